//! The command `explore`.

ghost use Rattle.mx_format.specs.Parts.{word_by};
ghost use Rattle.mx_cli.specs.Printing.{Prints, sight};
ghost use Rattle.mx_draw.specs.Explored.{IsExplored, IsExploredBy, IsExploredFrom};

use crate::random_run::run;
use mx_cli::{Command, RandomRun, Stop};
use mx_count::{EventSource, Options, print_counts};
use mx_driver::by_shape;
use mx_format::Letter;
use mx_io::Output;
use mx_network::Cluster;
use mx_nodelaws::Exclusion;
use mx_plan::Plan;
use std::alloc::Global;

/// `explore`: prints the counts of a random run, and the verdict on it.
#[derive(Clone, Copy)]
pub struct Explore {
    pub run: RandomRun,
    /// Whether more is printed than the numbers of steps, sections and parcels, and the verdict.
    pub has_counts: bool,
    pub is_json: bool,
}

impl Command for Explore {
    ghost reports = { λ e. IsExplored e };

    fn run<O: Output>(
        &self,
        alloc: Global,
        plan: &Plan,
        _text: &[u8],
        out: &mut O,
    ) -> Result<u8, Stop> {
        explore_plan(alloc, plan, self, out)
    }
}

fn explore_plan<O: Output>(
    alloc: Global,
    plan: &Plan,
    command: &Explore,
    out: &mut O,
) -> Result<u8, Stop>
    ensures prints { Prints (IsExploredBy plan.now command.now plan.now.shape)
        (sight O.Output out.old) (sight O.Output out.new) result }
{
    by_shape!(
        alloc,
        plan,
        |cluster| explore_cluster(alloc, plan, cluster, command, out)
    )
}

fn explore_cluster<C: Exclusion, O: Output>(
    alloc: Global,
    plan: &Plan,
    mut cluster: Cluster<C>,
    command: &Explore,
    out: &mut O,
) -> Result<u8, Stop>
where
    C::Msg: Letter,
    ensures prints { Prints (IsExploredFrom C.core (word_by C.Msg.parts) C.Msg.words plan.now
        command.now cluster) (sight O.Output out.old) (sight O.Output out.new) result }
{
    run(alloc, plan, &mut cluster, &command.run)?;
    let options = Options {
        source: EventSource::Drawn,
        is_json: command.is_json,
        has_counts: command.has_counts,
    };
    print_counts(alloc, plan, &cluster, command.run.steps, options, out)
}
