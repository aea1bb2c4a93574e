//! Tests across the crates, for what no contract says: worked examples that no printout shows, the
//! texts of faults, large inputs, and draws compared with words that are drawn here.

#![tactic(auto)]

#[cfg(test)]
mod clusters;
#[cfg(test)]
mod fates_asked;
#[cfg(test)]
mod four_slots;
#[cfg(test)]
mod given;
#[cfg(test)]
mod journals;
#[cfg(test)]
mod members;
#[cfg(test)]
mod registers;
#[cfg(test)]
mod runs;
#[cfg(test)]
mod schedules;
#[cfg(test)]
mod settled_stations;
#[cfg(test)]
mod shapes;
#[cfg(test)]
mod single_calls;
#[cfg(test)]
mod sizes;
#[cfg(test)]
mod station_calls;
#[cfg(test)]
mod station_rows;
#[cfg(test)]
mod stations;
#[cfg(test)]
mod texts;
#[cfg(test)]
mod verdicts;
#[cfg(test)]
mod workers;
