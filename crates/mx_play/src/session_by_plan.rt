//! A session in the cluster of a plan, by the plan's algorithm.

ghost use Rattle.std.specs.Prelude.{◌≡◌, true, IfOk};
ghost use Rattle.mx_cli.specs.Reports.{seen};
ghost use Rattle.mx_play.specs.Played.{IsPlayedBy};
ghost use Rattle.mx_play.specs.Stops.{AreReadableLines, OnlyMemory};

use crate::line_sources::Lines;
use crate::session::{SessionSetting, first_session};
use crate::session_run::run_session;
use mx_cli::{PlanAndText, Stop};
use mx_io::{Output, Store};
use mx_maekawa::Maekawa;
use mx_plan::Shape;
use mx_raymond::Raymond;
use mx_ricart::Ricart;
use std::alloc::Global;

pub(crate) fn run_by_plan<L: Lines, W: Store, O: Output, E: Output>(
    alloc: Global,
    start: &PlanAndText,
    lines: &mut L,
    store: &mut W,
    out: &mut O,
    err: &mut E,
) -> Result<u8, Stop>
    ensures played { IfOk result (λ _. IsPlayedBy start.now.plan start.now.text.items
        (L.rest lines.old) (seen O.Output E.Output out.old err.old)
        (seen O.Output E.Output out.new err.new)
        (W.stored store.old) (W.stored store.new) start.now.plan.shape) }
    ensures zero { IfOk result (λ status. status ≡ 0) }
    ensures stops { O.takes_all out.old ≡ true → E.takes_all err.old ≡ true
        → AreReadableLines (L.readable lines.old) → OnlyMemory result }
    ensures stays { (O.takes_all out.new ≡ O.takes_all out.old)
        × (E.takes_all err.new ≡ E.takes_all err.old) }
{
    let plan = &start.plan;
    let script = start.text.as_slice();
    match plan.shape() {
        Shape::Ricart(shape) => {
            let setting = SessionSetting::<Ricart> { alloc, plan, shape };
            let mut session = first_session(&setting)?;
            run_session(&setting, script, lines, &mut session, store, out, err)
        }
        Shape::Maekawa(shape) => {
            let setting = SessionSetting::<Maekawa> { alloc, plan, shape };
            let mut session = first_session(&setting)?;
            run_session(&setting, script, lines, &mut session, store, out, err)
        }
        Shape::Raymond(shape) => {
            let setting = SessionSetting::<Raymond> { alloc, plan, shape };
            let mut session = first_session(&setting)?;
            run_session(&setting, script, lines, &mut session, store, out, err)
        }
    }
}
