//! Fetches the bytes that a command names, and reads its plan.

ghost use Rattle.std.specs.Prelude.{◌≡◌, ◌≤◌, ◌==◌, ◌&&◌, [], ◌∷◌, Some, IfErr, IfSome, length, option_map};
ghost use Rattle.std.specs.List.{after_first, before_first, position_or_len};
ghost use Rattle.mx_io.specs.Told.{Asks};
ghost use Rattle.mx_cli.specs.Asked.{AsksBoth, AsksInTurn};
ghost use Rattle.mx_cli.specs.Reading.{Fetches, IsUnread, ReadsBoth, ReadsFor, is_dash, line_of, plan_told, rest_of, text_told};
ghost use Rattle.mx_cli.specs.Words.{names_of};

use crate::faults::{Fault, Named};
use crate::request::FileNames;
use crate::stop::Stop;
use mx_io::{Source, SourceFault};
use mx_plan::{Needs, Plan, read_plan_for};
use std::alloc::Global;

/// A plan, and the bytes that come with it: its events, or a script.
#[derive(Drop)]
pub struct PlanAndText {
    pub plan: Plan,
    pub text: Vec<u8>,
}

/// Returns the bytes that the source has under a name. A fault names the input `named`.
pub fn fetch<S: Source>(
    alloc: Global,
    source: &mut S,
    name: &str,
    named: Named,
) -> Result<Vec<u8>, Stop>
    ensures told { IfSome (S.told source.old name.now) (λ telling. Fetches named telling result) }
    ensures asks { Asks (S.asked source.old) (S.asked source.new) (name.now ∷ []) }
    ensures unread { IfErr result IsUnread }
    ensures stays { S.told source.new ≡ S.told source.old }
{
    match source.bytes(alloc, name) {
        Ok(bytes) => Ok(bytes),
        Err(SourceFault::Unreadable) => Err(Stop::Fault(Fault::CannotRead(named))),
        Err(SourceFault::Memory) => Err(Stop::Memory),
    }
}

/// Reads the plan that the source has under a name. Only the needed keys have to be there. What the
/// source has under its names does not change.
pub fn fetch_plan<S: Source>(
    alloc: Global,
    source: &mut S,
    name: &str,
    needs: Needs,
) -> Result<Plan, Stop>
    ensures told { IfSome (S.told source.old name.now) (λ telling. ReadsFor needs telling result) }
    ensures asks { Asks (S.asked source.old) (S.asked source.new) (name.now ∷ []) }
    ensures unread { IfErr result IsUnread }
    ensures stays { S.told source.new ≡ S.told source.old }
{
    let bytes = fetch(alloc, source, name, Named::Plan)?;
    plan_in(alloc, bytes.as_slice(), needs)
}

/// Reads a plan from its text. Only the needed keys have to be there.
pub fn plan_in(alloc: Global, text: &[u8], needs: Needs) -> Result<Plan, Stop>
    ensures read { ReadsFor needs (Some text.now) result }
    ensures unread { IfErr result IsUnread }
{
    match read_plan_for(alloc, text, needs) {
        Ok(plan) => Ok(plan),
        Err(fault) => Err(Stop::from(fault)),
    }
}

/// Reads the plan of the first name, and returns it with the bytes of the second. If both names are
/// `-`, the first line of standard input is the plan, and the rest is what comes with it. A fault
/// of the plan is returned rather than that the second name can't be read. Each name is read once,
/// the plan's first. If both are `-`, standard input is read once. The plan may lack keys that are
/// not needed.
pub fn fetch_both<S: Source>(
    alloc: Global,
    source: &mut S,
    names: &FileNames<'_>,
    needs: Needs,
) -> Result<PlanAndText, Stop>
    ensures read { ReadsBoth needs (plan_told (S.told source.old) (names_of names.now))
        (text_told (S.told source.old) (names_of names.now)) result }
    ensures asks { AsksBoth (names_of names.now) (S.asked source.old) (S.asked source.new) result }
    ensures unread { IfErr result IsUnread }
{
    if are_dashes(names) {
        fetch_one(alloc, source, names.plan, needs)
    } else {
        fetch_two(alloc, source, names, needs)
    }
}

fn fetch_one<S: Source>(
    alloc: Global,
    source: &mut S,
    name: &str,
    needs: Needs,
) -> Result<PlanAndText, Stop>
    ensures read { ReadsBoth needs (option_map line_of (S.told source.old name.now))
        (option_map rest_of (S.told source.old name.now)) result }
    ensures asks { Asks (S.asked source.old) (S.asked source.new) (name.now ∷ []) }
    ensures unread { IfErr result IsUnread }
{
    let one = fetch(alloc, source, name, Named::Plan)?;
    both_in(alloc, one.as_slice(), needs)
}

fn both_in(alloc: Global, bytes: &[u8], needs: Needs) -> Result<PlanAndText, Stop>
    ensures read { ReadsBoth needs (Some (line_of (Some bytes.now)))
        (Some (rest_of (Some bytes.now))) result }
    ensures unread { IfErr result IsUnread }
{
    let (line, rest) = split_line(bytes);
    let plan = plan_in(alloc, line, needs)?;
    let text = Vec::from_slice(alloc, rest)?;
    Ok(PlanAndText { plan, text })
}

fn fetch_two<S: Source>(
    alloc: Global,
    source: &mut S,
    names: &FileNames<'_>,
    needs: Needs,
) -> Result<PlanAndText, Stop>
    ensures read { ReadsBoth needs (S.told source.old names.now.plan.now)
        (S.told source.old names.now.events.now) result }
    ensures asks { AsksInTurn (names_of names.now) (S.asked source.old) (S.asked source.new) result }
    ensures unread { IfErr result IsUnread }
{
    let plan = fetch_plan(alloc, source, names.plan, needs)?;
    let text = fetch(alloc, source, names.events, Named::Events)?;
    Ok(PlanAndText { plan, text })
}

/// Whether both names are `-`, which is standard input.
pub fn are_dashes(names: &FileNames<'_>) -> bool
    ensures { result ≡ (is_dash names.now.plan.now && is_dash names.now.events.now) }
{
    names.plan == "-" && names.events == "-"
}

/// Returns the bytes before the first line feed, and those after it. Without a line feed, all bytes
/// are in the first part.
pub fn split_line(bytes: &[u8]) -> (&[u8], &[u8])
    ensures line { result.0.now ≡ before_first (λ b. b == 10) bytes.now }
    ensures rest { result.1.now ≡ after_first (λ b. b == 10) bytes.now }
{
    let at = first_feed(bytes);
    if at < bytes.len() {
        (&bytes[..at], &bytes[at + 1..])
    } else {
        (bytes, &bytes[bytes.len()..])
    }
}

fn first_feed(bytes: &[u8]) -> usize
    ensures value { result ≡ position_or_len (λ b. b == 10) bytes.now }
    ensures within { result ≤ length bytes.now }
{
    for (i, b) in bytes.iter().enumerate() {
        if *b == b'\n' {
            return i;
        }
    }
    bytes.len()
}
