//! The whole picture: its size, its nodes, and all that was drawn.

ghost use Rattle.std.specs.Prelude.{string_bytes, IfOk};
ghost use Rattle.mx_picture.specs.Drawn.{IsPage, title_text};

use crate::arrows::ArrowEnd;
use crate::columns::Columns;
use crate::labels::LabelTexts;
use crate::legend::{LOSSES, Legend, MARKS, NOTHING, RUN, STYLES, TRACE};
use crate::opening::{Frame, Title, algorithm_of, title_of};
use crate::rows::PictureRows;
use crate::sheet::Sheet;
use crate::text::width_of;
use mx_explorer::Verdict;
use mx_format::name_of;
use mx_plan::Plan;
use std::alloc::AllocError;

/// The height above the first row, in pixels: the heading, the legend and the names of the nodes.
const HEAD: u64 = 86;

/// The height below the last row, in pixels: the names again.
const FOOT: u64 = 30;

/// The room at each edge for the indices of the events, in pixels.
const INDICES: u64 = 60;

/// The distance between the left edge and the right end of the indices there, in pixels.
const INDEX_END: u64 = 50;

/// The least room at the left of the first node's line and at the right of the last, for the names,
/// in pixels.
const NAME: u64 = 100;

/// The room for two gaps, in pixels: between a node and its text, and between the text and the
/// indices.
const MARGIN: u64 = 40;

/// The distance of the heading from the edge, in pixels.
const INDENT: u64 = 16;

/// The number of bytes that the SVG of a row takes, roughly.
const ROW_BYTES: usize = 400;

/// All of a picture below its title, and its frame.
#[derive(Drop)]
struct Body {
    frame: Frame,
    svg: String,
}

/// Returns the page with this title, which has its lines from the second on, and these rows.
pub(crate) fn page_of(
    plan: &Plan,
    title: &Title<'_>,
    rows: &PictureRows<'_>,
) -> Result<String, AllocError>
    ensures { IfOk result (λ page. IsPage (title_text plan.now title.now) (string_bytes page)) }
{
    let alloc = rows.sheet.alloc;
    let second = title_of(alloc, plan, title)?;
    let body = body_of(rows, title)?;
    let mut text = String::new(alloc);
    text.write(body.frame)?;
    text.push_str(second.as_str())?;
    text.push_str(body.svg.as_str())?;
    text.push_str("</svg>\n")?;
    Ok(text)
}

fn body_of(rows: &PictureRows<'_>, title: &Title<'_>) -> Result<Body, AllocError> {
    let sheet = &rows.sheet;
    let heading = heading_of(rows, title)?;
    let (legend, more) = legends_of(sheet, title);
    let columns = columns_of(rows);
    let texts = sheet.texts(&columns)?;
    let width = heading_width(heading.as_str()).max(legend.width);
    let frame = frame_of(&columns, &texts, width.max(more.width), sheet.y);
    let mut svg = String::new(sheet.alloc);
    // so that it need not grow step by step
    svg.reserve(sheet.labels.len().saturating_mul(ROW_BYTES))?;
    add_head(sheet, &frame, heading.as_str(), legend, more, &mut svg)?;
    add_indices(sheet, &frame, &mut svg)?;
    add_nodes(rows, &columns, &mut svg)?;
    sheet.add_lines(rows.plan, &columns, &mut svg)?;
    sheet.add_marks(&columns, &mut svg)?;
    svg.push_str(texts.svg.as_str())?;
    Ok(Body { frame, svg })
}

/// Returns the positions of the nodes' lines. In a part of a run, only nodes that act or receive get
/// a line, or all if there are none.
fn columns_of(rows: &PictureRows<'_>) -> Columns {
    let part = &rows.part;
    let sheet = &rows.sheet;
    let is_whole = part.from == 0 && part.to == u64::MAX && part.node.is_none();
    let mut lanes = sheet.lanes;
    if is_whole || !lanes.contains(&true) {
        for node in rows.plan.node_ids() {
            lanes[usize::from(node.get())] = true;
        }
    }
    Columns::new(rows.plan, &lanes, sheet.labels.as_slice())
}

/// Returns the legend of a picture, and what it has at its right. A trace with messages has the
/// legend of a run.
fn legends_of(sheet: &Sheet, title: &Title<'_>) -> (&'static Legend, &'static Legend) {
    match title {
        Title::Trace(_, _) if sheet.flights.is_empty() => (&TRACE, &NOTHING),
        Title::Trace(_, _) => (&RUN, &MARKS),
        Title::Run(_) => {
            let mut arrows = sheet.arrows.iter();
            let has_losses = arrows.any(|arrow| matches!(arrow.end, ArrowEnd::Loss { .. }));
            (&RUN, if has_losses { &LOSSES } else { &NOTHING })
        }
    }
}

/// Returns the frame with room for these columns and texts, and for a head of this width. All lines
/// end `bottom` pixels below the first row.
fn frame_of(columns: &Columns, texts: &LabelTexts, width: u64, bottom: u64) -> Frame {
    let left = texts.left.saturating_add(MARGIN).max(NAME);
    let left = left.saturating_add(INDICES);
    let names = columns.last.saturating_add(NAME);
    let right = texts.right.saturating_add(MARGIN).max(names);
    let right = right.saturating_add(INDICES);
    Frame {
        left,
        top: HEAD,
        width: left.saturating_add(right).max(width),
        height: bottom.saturating_add(HEAD + FOOT),
    }
}

/// Returns the width that a heading wants, in pixels. Its characters are larger than those of other
/// texts, and bold.
fn heading_width(heading: &str) -> u64 {
    width_of(heading).saturating_mul(5) / 4 + 2 * INDENT
}

/// Returns the algorithm of a run, the number of nodes, the number of sections entered, the verdict
/// on a trace, which part is shown, and whether that part is empty.
fn heading_of(rows: &PictureRows<'_>, title: &Title<'_>) -> Result<String, AllocError> {
    let sheet = &rows.sheet;
    let mut text = String::new(sheet.alloc);
    match title {
        Title::Run(_) => write!(text, "{} algorithm", algorithm_of(rows.plan))?,
        Title::Trace(_, _) => text.push_str("Trace")?,
    }
    let (nodes, entered) = (rows.plan.nodes(), sheet.entered);
    write!(text, ", nodes: {nodes}, sections entered: {entered}")?;
    match title {
        Title::Run(_) => (),
        Title::Trace(_, Verdict::Sound) => text.push_str(", verdict sound")?,
        Title::Trace(_, Verdict::Broken(index, clause)) => {
            let word = clause.word();
            write!(text, ", verdict broken at {index}: {word}")?
        }
    }
    add_part(rows, &mut text)?;
    Ok(text)
}

/// Appends to a heading which part is shown, and whether it is empty.
fn add_part(rows: &PictureRows<'_>, text: &mut String) -> Result<(), AllocError> {
    let part = &rows.part;
    if part.from > 0 {
        write!(text, ", from event {}", part.from)?;
    }
    if part.to < u64::MAX {
        write!(text, ", to event {}", part.to)?;
    }
    if let Some(node) = part.node {
        write!(text, ", node {}", name_of(rows.plan, node))?;
    }
    if part.only_letters {
        text.push_str(", letters only")?;
    }
    if rows.sheet.labels.is_empty() {
        text.push_str(", no events")?;
    }
    Ok(())
}

/// Appends the description, the styles, the white background, the legend and the heading.
fn add_head(
    sheet: &Sheet,
    frame: &Frame,
    heading: &str,
    legend: &Legend,
    more: &Legend,
    text: &mut String,
) -> Result<(), AllocError> {
    let mut story = sheet.story.as_str();
    if story.is_empty() {
        story = " none.";
    }
    let (left, width, height) = (frame.left, frame.width, frame.height);
    let aside = left.saturating_sub(INDENT);
    write!(
        text,
        "<desc>Time runs downward; the text of each event is beside its node. Sections:{story}</desc>\n{STYLES}{}{}",
        more.styles, legend.styles
    )?;
    write!(
        text,
        "<g transform=\"translate(-{left} -{HEAD})\">\n<path class=\"paper\" d=\"M0 0h{width}v{height}h-{width}z\"/>\n<g transform=\"translate(0 22)\">\n{}{}</g>\n</g>\n",
        legend.svg, more.svg
    )?;
    write!(
        text,
        "<text class=\"heading\" x=\"-{aside}\" y=\"-66\">{heading}</text>\n"
    )
}

/// Appends the guides, and the indices of the events, at the left edge and at the right one.
fn add_indices(sheet: &Sheet, frame: &Frame, text: &mut String) -> Result<(), AllocError> {
    let (left, width) = (frame.left, frame.width);
    text.push_str("<path class=\"guide\" d=\"")?;
    for y in &sheet.guides {
        write!(text, "M-{left} {y}h{width}")?;
    }
    let aside = left.saturating_sub(INDEX_END);
    let across = width.saturating_sub(INDICES);
    let indices = sheet.indices.as_str();
    write!(
        text,
        "\"/>\n<g id=\"indices\" class=\"index\" transform=\"translate(-{aside})\">\n<text y=\"-18\">event</text>\n{indices}</g>\n<use href=\"#indices\" x=\"{across}\"/>\n"
    )
}

/// Appends the line of each node that is shown, with its name above and below.
fn add_nodes(
    rows: &PictureRows<'_>,
    columns: &Columns,
    text: &mut String,
) -> Result<(), AllocError> {
    for node in rows.plan.node_ids() {
        if let Some(x) = columns.line_of(node) {
            let name = name_of(rows.plan, node);
            let bottom = rows.sheet.y;
            write!(
                text,
                "<path class=\"node\" d=\"M{x}-12V{bottom}\"/>\n<text class=\"name\" x=\"{x}\" y=\"-18\">{name}</text>\n<text class=\"name\" x=\"{x}\" y=\"{bottom}\" dy=\"20\">{name}</text>\n"
            )?;
        }
    }
    Ok(())
}
