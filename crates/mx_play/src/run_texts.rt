//! The texts about all that happened: the file of its events, and the closing lines.

ghost use Rattle.std.specs.Prelude.{◌≡◌, ◌++◌, length, string_bytes, IfOk, OnOk};
ghost use Rattle.mx_format.specs.LetterTexts.{letter_text};
ghost use Rattle.mx_driver.specs.Runs.{closing_text};
ghost use Rattle.mx_format.specs.Files.{file_text, events_of};

use mx_driver::View;
use mx_explorer::verdict_status;
use mx_format::{Letter, add_file};
use mx_knowledge::Knowledge;
use mx_nodelaws::Exclusion;
use mx_plan::Plan;
use mx_scripts::State;
use std::alloc::{AllocError, Global};

pub(crate) fn add_events<C: Exclusion>(
    plan: &Plan,
    state: &State<C>,
    text: &mut String,
) -> Result<(), AllocError>
    ensures { OnOk result (string_bytes text.new ≡ string_bytes text.old
        ++ file_text plan.now (events_of state.now.cluster.trace)) }
{
    add_file(plan, state.cluster().trace(), text)
}

pub(crate) fn add_end<C: Exclusion + Knowledge>(
    alloc: Global,
    plan: &Plan,
    state: &State<C>,
    text: &mut String,
) -> Result<u8, AllocError>
where
    C::Msg: Letter,
    requires { length state.now.cluster.members ≡ length plan.now.nodes }
    ensures text { OnOk result (string_bytes text.new ≡ string_bytes text.old
        ++ closing_text C.core (letter_text C.Msg.parts) plan.now state.now.cluster) }
    ensures zero { IfOk result (λ status. status ≡ 0) }
{
    let verdict = View::LINES.add_closing(alloc, plan, state.cluster(), text)?;
    Ok(verdict_status(verdict))
}
