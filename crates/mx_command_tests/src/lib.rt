//! Tests of the commands and of runs of jobs, for what no contract says: runs in threads reach their
//! counts, jobs that cannot go on, gates and exhausted turns end a run, and outputs refuse.

#![tactic(auto)]

#[cfg(test)]
mod arbiters;
#[cfg(test)]
mod job_runs;
#[cfg(test)]
mod live_runs;
#[cfg(test)]
mod noted_reads;
#[cfg(test)]
mod refused_outputs;
#[cfg(test)]
mod workers;
