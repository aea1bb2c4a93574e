//! `replay` of a script in place of events.

ghost use Rattle.std.specs.Prelude.{◌≡◌, List, Some, length, option_map};
ghost use Rattle.mx_cli.specs.Printing.{Prints, sight};
ghost use Rattle.mx_cli.specs.Requests.{view_of};
ghost use Rattle.mx_driver.specs.Viewed.{node_in};
ghost use Rattle.mx_plan.specs.Text.{Text};
ghost use Rattle.mx_shown_scripts.specs.Replayed.{IsReplayedScript, own_view};
ghost use Rattle.mx_shown_scripts.specs.ShownScripts.{CanShow, IsShownBy, IsShownOf, IsShownScript, IsShownTo, ShowsAll};
ghost use Rattle.mx_scripts.specs.States.{RunState};

use crate::happenings::do_lines;
use crate::objects::add_refused;
use crate::shown_script::Showing;
use mx_cli::{Command, Stop, ViewOptions, stop_with};
use mx_driver::{Replay, View};
use mx_event_files::{Happening, OnScript, text_in};
use mx_format::Letter;
use mx_io::Output;
use mx_knowledge::Knowledge;
use mx_maekawa::Maekawa;
use mx_nodelaws::Exclusion;
use mx_plan::{Plan, Shape};
use mx_raymond::Raymond;
use mx_ricart::Ricart;
use mx_scripts::{RefusedLine, State};
use mx_stamps::NodeId;
use std::alloc::Global;

/// `replay` of a script. In JSON, it also shows what the script does beside events and, if a line is
/// refused, what the lines before it do. With states, a lost parcel is not under way.
#[derive(Clone, Copy)]
pub struct ReplayScript<'a>(pub ViewOptions<'a>);

impl Command for ReplayScript<'_> {
    ghost reports = { λ c p text. IsReplayedScript (view_of c.0) p text };

    fn run<O: Output>(
        &self,
        alloc: Global,
        plan: &Plan,
        text: &[u8],
        out: &mut O,
    ) -> Result<u8, Stop> {
        match own_view(plan, &self.0) {
            Some(view) => show_bytes(alloc, plan, &view, text, out),
            None => OnScript(&Replay(self.0)).run(alloc, plan, text, out),
        }
    }
}

/// Returns the view that the options ask for; `None` if it shows no more of a script than of its
/// events, or if the plan lacks the node.
fn own_view(plan: &Plan, options: &ViewOptions<'_>) -> Option<View>
    ensures { result ≡ own_view (view_of options.now) plan.now }
{
    if !options.is_json && !options.has_state {
        return None;
    }
    let node = node_in(plan, options.node)?;
    Some(View {
        node,
        is_quiet: options.is_quiet,
        is_json: options.is_json,
        has_state: options.has_state,
    })
}

/// Returns the node of this name, or `Some(None)` without a name; `None` if the plan lacks it.
fn node_in(plan: &Plan, name: Option<&str>) -> Option<Option<NodeId>>
    ensures { result ≡ node_in plan.now (option_map (λ text. text.now) name.entry) }
{
    match name {
        Some(name) => Some(Some(plan.node(name)?)),
        None => Some(None),
    }
}

fn show_bytes<O: Output>(
    alloc: Global,
    plan: &Plan,
    view: &View,
    bytes: &[u8],
    out: &mut O,
) -> Result<u8, Stop>
    ensures prints { Prints (IsShownScript plan.now view.now bytes.now)
        (sight O.Output out.old) (sight O.Output out.new) result }
{
    let showing = Showing { alloc, plan, view };
    match text_in(alloc, bytes) {
        Ok(script) => show_by_plan(&showing, script, out),
        Err(stop) => Err(stop),
    }
}

fn show_by_plan<O: Output>(showing: &Showing<'_>, script: &str, out: &mut O) -> Result<u8, Stop>
    ensures prints { Prints (λ r. IsShownBy showing.now.plan.now showing.now.view.now script.now r
        showing.now.plan.now.shape) (sight O.Output out.old) (sight O.Output out.new) result }
{
    let (alloc, plan) = (showing.alloc, showing.plan);
    match plan.shape() {
        Shape::Ricart(shape) => {
            let mut state = State::<Ricart>::start(alloc, plan, shape)?;
            let mut start = State::<Ricart>::start(alloc, plan, shape)?;
            show(showing, script, &mut state, &mut start, out)
        }
        Shape::Maekawa(shape) => {
            let mut state = State::<Maekawa>::start(alloc, plan, shape)?;
            let mut start = State::<Maekawa>::start(alloc, plan, shape)?;
            show(showing, script, &mut state, &mut start, out)
        }
        Shape::Raymond(shape) => {
            let mut state = State::<Raymond>::start(alloc, plan, shape)?;
            let mut start = State::<Raymond>::start(alloc, plan, shape)?;
            show(showing, script, &mut state, &mut start, out)
        }
    }
}

/// Does the lines of a script, and then shows what they did, from the same start. Thus nothing is
/// printed of a script that is refused, unless that is to be shown.
fn show<C: Exclusion + Knowledge, O: Output>(
    showing: &Showing<'_>,
    script: &str,
    state: &mut State<C>,
    start: &mut State<C>,
    out: &mut O,
) -> Result<u8, Stop>
where
    C::Msg: Letter,
    requires same { state.old ≡ start.old }
    requires members { length start.old.cluster.members ≡ length showing.now.plan.now.nodes }
    ensures prints { Prints (IsShownOf C.core C.Msg.parts showing.now.plan.now
        showing.now.view.now C.knows start.old script.now)
        (sight O.Output out.old) (sight O.Output out.new) result }
{
    let mut happened = Vec::new(showing.alloc);
    let refused = do_lines(showing.alloc, showing.plan, script, state, &mut happened)?;
    match refused {
        Some(line) => show_refused(showing, start, happened.as_slice(), line, out),
        None => showing.print(start, happened.as_slice(), "", out),
    }
}

/// Shows what the lines before a refused one did, if a refused line is shown. Stops with its line.
fn show_refused<C: Exclusion + Knowledge, O: Output>(
    showing: &Showing<'_>,
    start: &mut State<C>,
    happened: &[Happening],
    line: RefusedLine,
    out: &mut O,
) -> Result<u8, Stop>
where
    C::Msg: Letter,
    requires members { length start.old.cluster.members ≡ length showing.now.plan.now.nodes }
    requires happened { CanShow C.core C.Msg.parts showing.now.plan.now showing.now.view.now C.knows
        start.old happened.now }
    ensures prints { (last : RunState C C.Msg) (texts : List Text)
        → ShowsAll C.core C.Msg.parts showing.now.plan.now showing.now.view.now C.knows
        start.old happened.now last texts
        → Prints (IsShownTo C.core C.Msg.parts showing.now.plan.now showing.now.view.now C.knows
        start.old texts last (Some line))
        (sight O.Output out.old) (sight O.Output out.new) result }
{
    if !showing.shows_asides() {
        return Err(stop_with(showing.alloc, line));
    }
    let mut fault = String::new(showing.alloc);
    add_refused(showing.alloc, &line, &mut fault)?;
    showing.print(start, happened, fault.as_str(), out)?;
    Err(stop_with(showing.alloc, line))
}
