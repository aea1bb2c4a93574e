//! The first two lines of a picture: its size, and its title.

ghost use Rattle.std.specs.Prelude.{◌≡◌, ◌++◌, IfOk, OnOk, Some, string_bytes};
ghost use Rattle.mx_picture.specs.Drawn.{algorithm_name, names_text, opening_line, title_end, title_line, title_start, title_text, trace_title};

use mx_explorer::Verdict;
use mx_format::name_of;
use mx_plan::{Plan, Shape};
use std::alloc::{AllocError, Global};
use std::fmt;

/// What of the plane a picture shows, in pixels: its width and height, and the distance from its
/// top left corner to the line of its first node (`left`) and to its first row (`top`).
#[derive(Clone, Copy)]
pub(crate) struct Frame {
    pub(crate) left: u64,
    pub(crate) top: u64,
    pub(crate) width: u64,
    pub(crate) height: u64,
}

impl fmt::Display for Frame {
    ghost output = { λ frame. Some (opening_line frame) };

    fn fmt<W: fmt::Write>(&self, f: &mut fmt::Formatter<W>) -> fmt::Result {
        let width = self.width;
        let height = self.height;
        write!(
            f,
            "<svg xmlns=\"http://www.w3.org/2000/svg\" role=\"img\" width=\"{width}\" height=\"{height}\" viewBox=\"-{} -{} {width} {height}\">\n",
            self.left, self.top
        )
    }
}

/// What the title of a picture says, after the nodes.
#[derive(Clone, Copy)]
pub(crate) enum Title<'a> {
    /// How many events a run has.
    Run(u64),
    /// What `judge` prints of a trace, and the verdict.
    Trace(&'a str, Verdict),
}

/// Returns the title. Names need no escapes: a plan allows no character in them that XML escapes.
pub(crate) fn title_of(alloc: Global, plan: &Plan, title: &Title<'_>) -> Result<String, AllocError>
    ensures { IfOk result (λ text. string_bytes text ≡ title_text plan.now title.now) }
{
    match title {
        Title::Run(events) => run_title(alloc, plan, *events),
        Title::Trace(judgement, _) => trace_title(alloc, plan, judgement),
    }
}

fn run_title(alloc: Global, plan: &Plan, events: u64) -> Result<String, AllocError>
    ensures { IfOk result (λ title. string_bytes title ≡ title_line plan.now events) }
{
    let mut text = String::new(alloc);
    add_title(plan, events, &mut text)?;
    Ok(text)
}

fn add_title(plan: &Plan, events: u64, text: &mut String) -> Result<(), AllocError>
    ensures { OnOk result (string_bytes text.new
        ≡ string_bytes text.old ++ title_line plan.now events) }
{
    text.write(TitleStart(algorithm_of(plan)))?;
    add_names(plan, text)?;
    text.write(TitleEnd(events))
}

fn trace_title(alloc: Global, plan: &Plan, judgement: &str) -> Result<String, AllocError>
    ensures { IfOk result (λ title. string_bytes title ≡ trace_title plan.now judgement.now) }
{
    let mut text = String::new(alloc);
    text.push_str("<title>Trace, nodes:")?;
    add_names(plan, &mut text)?;
    text.push_str("\n")?;
    text.push_str(judgement)?;
    text.push_str("</title>\n")?;
    Ok(text)
}

#[derive(Clone, Copy)]
struct TitleStart<'a>(&'a str);

impl fmt::Display for TitleStart<'_> {
    ghost output = { λ s. Some (title_start s.0.now) };

    fn fmt<W: fmt::Write>(&self, f: &mut fmt::Formatter<W>) -> fmt::Result {
        write!(f, "<title>{} algorithm, nodes:", self.0)
    }
}

#[derive(Clone, Copy)]
struct TitleEnd(u64);

impl fmt::Display for TitleEnd {
    ghost output = { λ e. Some (title_end e.0) };

    fn fmt<W: fmt::Write>(&self, f: &mut fmt::Formatter<W>) -> fmt::Result {
        write!(f, ", events: {}</title>\n", self.0)
    }
}

pub(crate) fn algorithm_of(plan: &Plan) -> &'static str
    ensures { result.now ≡ algorithm_name plan.now.shape }
{
    match plan.shape() {
        Shape::Ricart(_) => "Ricart and Agrawala's",
        Shape::Maekawa(_) => "Maekawa's",
        Shape::Raymond(_) => "Raymond's",
    }
}

fn add_names(plan: &Plan, text: &mut String) -> Result<(), AllocError>
    ensures { OnOk result (string_bytes text.new ≡ string_bytes text.old ++ names_text plan.now) }
{
    for node in plan.node_ids() {
        text.push_str(" ")?;
        text.push_str(name_of(plan, node))?;
    }
    Ok(())
}
