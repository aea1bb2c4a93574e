ghost use Rattle.std.specs.Prelude.{suc, ◌≡◌, ◌≤◌, ◌-◌, drop, length};
ghost use Rattle.mx_journal.specs.Records.{above};
ghost use Rattle.mx_journal.specs.Runs.{AreRuns, first_number, flatten};

use crate::places::place_of;
use crate::runs::Run;

pub(crate) fn cut_up_to(runs: &mut Vec<Run>, number: u64)
    requires { AreRuns 1 runs.old.items }
    ensures records { flatten runs.new.items ≡ above number (flatten runs.old.items) }
    ensures runs { AreRuns 1 runs.new.items }
{
    let ended = place_of(runs, number);
    drop_runs(runs, ended);
    if runs.is_empty() {
        return;
    }
    let run = &mut runs[0];
    let count = count_up_to(run, number);
    run.skip(count);
}

fn drop_runs(runs: &mut Vec<Run>, count: usize)
    requires { count ≤ length runs.old.items }
    ensures { runs.new.items ≡ drop count runs.old.items }
{
    if count == 0 {
        return;
    }
    runs.rotate_left(count);
    let left = runs.len() - count;
    runs.truncate(left);
}

fn count_up_to(run: &Run, number: u64) -> usize
    requires { 1 ≤ first_number run.now }
    ensures { result ≡ suc number - first_number run.now }
{
    let first = run.first();
    if number < first {
        0
    } else {
        (number - first) as usize + 1
    }
}
