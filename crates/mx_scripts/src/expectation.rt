//! What a line with `expect` says of the last event.

ghost use Rattle.std.specs.Prelude.{◌≡◌, ◌⊎◌, ◌++◌, codes, string_bytes, IfErr, IfOk, OnOk};
ghost use Rattle.mx_format.specs.EventTexts.{outcome_text};
ghost use Rattle.mx_format.specs.Lines.{each_text};
ghost use Rattle.mx_lines.specs.Names.{texts_of};
ghost use Rattle.mx_scripts.specs.Expectations.{Expects, IsMet, IsNotMet, accepts, is_refusal, text_after_first};

use crate::line_failure::LineFailure;
use mx_format::OutcomeText;
use mx_lines::{LineFault, Quoted, words_in};
use mx_network::Entry;
use mx_trace::Outcome;
use std::alloc::{AllocError, Global};

/// Compares the outcome of the newest item of a trace, as a text, with the words of a line after
/// its first. The word `refused` alone fits any refusal.
///
/// # Errors
///
/// `NoEvent` if the trace has no item, `OtherOutcome` if the outcome is another one, and `Memory`
/// if memory runs out.
pub fn compare_outcome(alloc: Global, line: &str, trace: &[Entry]) -> Result<(), LineFailure>
    ensures ok { OnOk result (IsMet line.now trace.now) }
    ensures err { IfErr result (λ why.
        (why ≡ LineFailure.Memory) ⊎ IsNotMet line.now trace.now why) }
{
    let Some((newest, _before)) = trace.split_last() else {
        return Err(LineFailure::Refused(LineFault::NoEvent));
    };
    let expected = expected_in(alloc, line)?;
    if !accepts(alloc, &newest.outcome, expected.as_str())? {
        return Err(LineFailure::Refused(LineFault::OtherOutcome));
    }
    Ok(())
}

fn accepts(alloc: Global, outcome: &Outcome, expected: &str) -> Result<bool, AllocError>
    ensures { IfOk result (λ is. is ≡ accepts outcome.now expected.now) }
{
    if is_refusal(outcome) && expected == "refused" {
        return Ok(true);
    }
    let found = text_of(alloc, outcome)?;
    Ok(found.as_str() == expected)
}

fn is_refusal(outcome: &Outcome) -> bool
    ensures { result ≡ is_refusal outcome.now }
{
    matches!(outcome, Outcome::Refused(_))
}

fn text_of(alloc: Global, outcome: &Outcome) -> Result<String, AllocError>
    ensures { IfOk result (λ text. string_bytes text ≡ outcome_text outcome.now) }
{
    let mut text = String::new(alloc);
    text.write(OutcomeText(outcome))?;
    Ok(text)
}

/// Returns the words of a line after its first, with a space between them.
fn expected_in(alloc: Global, line: &str) -> Result<String, AllocError>
    ensures { IfOk result (λ text. Expects line.now (string_bytes text)) }
{
    let words = words_in(alloc, line)?;
    text_after_first(alloc, words.as_slice())
}

fn text_after_first(alloc: Global, words: &[&str]) -> Result<String, AllocError>
    ensures { IfOk result (λ text. string_bytes text ≡ text_after_first (texts_of words.now)) }
{
    let mut text = String::new(alloc);
    if let [_, first, more @ ..] = words {
        text.push_str(first)?;
        add_more(more, &mut text)?;
    }
    Ok(text)
}

fn add_more(words: &[&str], text: &mut String) -> Result<(), AllocError>
    ensures { OnOk result (string_bytes text.new
        ≡ string_bytes text.old ++ each_text (λ word. codes " " ++ word) (texts_of words.now)) }
{
    for word in words {
        text.push_str(" ")?;
        text.push_str(word)?;
    }
    Ok(())
}

/// Appends the message that the newest item of a trace has another outcome than a line expects.
pub(crate) fn add_other_outcome(
    alloc: Global,
    line: &str,
    trace: &[Entry],
    text: &mut String,
) -> Result<(), AllocError> {
    let Some(newest) = trace.last() else {
        return Ok(());
    };
    let found = text_of(alloc, &newest.outcome)?;
    let expected = expected_in(alloc, line)?;
    let found = Quoted(found.as_str());
    let expected = Quoted(expected.as_str());
    write!(text, " found {found}, expected {expected}")
}
