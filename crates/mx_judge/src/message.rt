//! The messages of a trace: the parcels that its events send.

ghost use Rattle.std.specs.Prelude.{◌≡◌, ◌++◌, OnOk, codes, string_bytes};
ghost use Rattle.serde_json.specs.View.{view};
ghost use Rattle.mx_judge.specs.Members.{AnswersItem};
ghost use Rattle.mx_judge.specs.Messages as spec;

use crate::faults::ItemFault;
use crate::members::{Member, has_member, number_at, text_at};
use mx_format::json::{add_number, add_word, start_number};
use mx_format::name_of;
use mx_plan::{Names, Plan};
use mx_stamps::{NodeId, Stamp};
use serde_json::Value;
use std::alloc::{AllocError, Global};
use std::marker::Model;

/// What a message says beside its kind: the request that it is about, and numbers.
#[derive(Clone, Copy)]
pub struct MessageParts {
    pub stamp: Option<Stamp>,
    pub number: Option<u64>,
    pub hop: Option<u64>,
    pub top: Option<u64>,
    pub grant: Option<u64>,
    pub last: Option<u64>,
    pub upto: Option<u64>,
}

/// A message, as `replay --json` prints a parcel.
#[derive(Drop)]
pub struct Message {
    /// The name by which the text delivers it: a number, or a text in quotes.
    pub name: String,
    /// How many messages stand before it, by which an event delivers it.
    pub parcel: u64,
    pub from: NodeId,
    pub to: NodeId,
    /// The kind as a text of JSON, in quotes.
    pub kind: String,
    pub parts: MessageParts,
}

impl Model for Message {
    ghost use Rattle.std.specs.Prelude.{string_bytes};
    ghost use Rattle.mx_judge.specs.Messages.{SentMessage};

    ghost Value = { SentMessage };

    ghost view = { λ m. record {
      name = string_bytes m.name;
      parcel = m.parcel;
      from = m.from;
      to = m.to;
      kind = string_bytes m.kind;
      parts = m.parts;
    } };
}

/// Reads the message in an object that has `kind`. `names` are those of the messages before it.
pub(crate) fn message_in(
    alloc: Global,
    plan: &Plan,
    names: &Names,
    value: &Value,
) -> Result<Message, ItemFault>
    ensures { AnswersItem (spec.message_of plan.now (view value.now) names.now) result }
{
    let name = name_at(alloc, value)?;
    let parcel = names.len() as u64;
    let from = node_at(plan, value, Member::From)?;
    let to = node_at(plan, value, Member::To)?;
    let parts = parts_at(plan, value)?;
    let kind = kind_at(alloc, value)?;
    Ok(Message {
        name,
        parcel,
        from,
        to,
        kind,
        parts,
    })
}

/// Returns the name of the message that an object sends or delivers.
fn name_at(alloc: Global, value: &Value) -> Result<String, ItemFault>
    ensures { spec.GivesText (spec.name_at (view value.now)) result }
{
    match value.get("parcel") {
        Some(name) if name.is_string() => Ok(name.to_string(alloc)?),
        _ => {
            let number = number_at(value, Member::Parcel)?;
            Ok(format!(in alloc; "{number}")?)
        }
    }
}

/// Returns how many messages stand before the one that an object delivers. If none has the name, it
/// is the number in the object, or 2^64 - 1 if that is the place of another message.
pub(crate) fn delivered_at(alloc: Global, names: &Names, value: &Value) -> Result<u64, ItemFault>
    ensures { AnswersItem (spec.delivered_at names.now (view value.now)) result }
{
    let name = name_at(alloc, value)?;
    Ok(match names.index_of(name.as_str()) {
        Some(index) => index as u64,
        None => unsent_at(names, value),
    })
}

fn unsent_at(names: &Names, value: &Value) -> u64
    ensures { result ≡ spec.unsent_at names.now (view value.now) }
{
    match number_at(value, Member::Parcel) {
        Ok(number) if number >= names.len() as u64 => number,
        _ => u64::MAX,
    }
}

fn node_at(plan: &Plan, value: &Value, member: Member) -> Result<NodeId, ItemFault>
    ensures { result ≡ spec.node_at plan.now (view value.now) member }
{
    plan.node(text_at(value, member))
        .ok_or(ItemFault::Wrong(member))
}

fn parts_at(plan: &Plan, value: &Value) -> Result<MessageParts, ItemFault>
    ensures { result ≡ spec.parts_at plan.now (view value.now) }
{
    Ok(MessageParts {
        stamp: stamp_at(plan, value)?,
        number: optional_at(value, Member::Number)?,
        hop: optional_at(value, Member::Hop)?,
        top: optional_at(value, Member::Top)?,
        grant: optional_at(value, Member::Grant)?,
        last: optional_at(value, Member::Last)?,
        upto: optional_at(value, Member::Upto)?,
    })
}

fn stamp_at(plan: &Plan, value: &Value) -> Result<Option<Stamp>, ItemFault>
    ensures { result ≡ spec.stamp_at plan.now (view value.now) }
{
    if !has_member(value, "stamp") {
        return Ok(None);
    }
    let number = number_at(value, Member::Stamp)?;
    let node = node_at(plan, value, Member::Of)?;
    Ok(Some(Stamp { number, node }))
}

/// Returns the number of a member, if the member is there.
fn optional_at(value: &Value, member: Member) -> Result<Option<u64>, ItemFault>
    ensures { result ≡ spec.optional_at member (view value.now) }
{
    if !has_member(value, member.key()) {
        return Ok(None);
    }
    Ok(Some(number_at(value, member)?))
}

fn kind_at(alloc: Global, value: &Value) -> Result<String, ItemFault>
    ensures { spec.GivesText (spec.kind_at (view value.now)) result }
{
    match value.get("kind") {
        Some(kind) if kind.is_string() => Ok(kind.to_string(alloc)?),
        _ => Err(ItemFault::Wrong(Member::Kind)),
    }
}

impl Message {
    /// Appends what the message says, such as `reply 1.a top 0`.
    ///
    /// # Errors
    ///
    /// Returns `AllocError` if memory runs out.
    pub fn add_text(&self, plan: &Plan, text: &mut String) -> Result<(), AllocError> {
        let parts = &self.parts;
        text.push_str(self.kind.as_str().trim_matches('"'))?;
        if let Some(stamp) = parts.stamp {
            write!(text, " {}.{}", stamp.number, name_of(plan, stamp.node))?;
        }
        let counts = [
            ("", parts.number),
            ("", parts.hop),
            ("top ", parts.top),
            ("grant ", parts.grant),
            ("last ", parts.last),
            ("", parts.upto),
        ];
        for (name, count) in counts {
            if let Some(count) = count {
                write!(text, " {name}{count}")?;
            }
        }
        Ok(())
    }
}

/// Appends the line of a message, an object of JSON.
pub(crate) fn add_message(
    plan: &Plan,
    message: &Message,
    text: &mut String,
) -> Result<(), AllocError>
    ensures { OnOk result (string_bytes text.new
        ≡ string_bytes text.old ++ spec.message_json plan.now message.now) }
{
    add_route(plan, message, text)?;
    add_stamp(plan, message.parts.stamp, text)?;
    add_counts(&message.parts, text)?;
    text.push_str("}\n")
}

/// Appends the members of a message up to its kind.
fn add_route(plan: &Plan, message: &Message, text: &mut String) -> Result<(), AllocError>
    ensures { OnOk result (string_bytes text.new
        ≡ string_bytes text.old ++ spec.route_json plan.now message.now) }
{
    start_number("parcel", message.parcel, text)?;
    add_word("from", name_of(plan, message.from), text)?;
    add_word("to", name_of(plan, message.to), text)?;
    write!(text, ",\"kind\":{}", message.kind)
}

fn add_stamp(plan: &Plan, stamp: Option<Stamp>, text: &mut String) -> Result<(), AllocError>
    ensures { OnOk result (string_bytes text.new
        ≡ string_bytes text.old ++ spec.stamp_json plan.now stamp) }
{
    let Some(stamp) = stamp else {
        return Ok(());
    };
    add_number("stamp", stamp.number, text)?;
    add_word("of", name_of(plan, stamp.node), text)
}

fn add_counts(parts: &MessageParts, text: &mut String) -> Result<(), AllocError>
    ensures { OnOk result (string_bytes text.new
        ≡ string_bytes text.old ++ spec.counts_json parts.now) }
{
    add_part("number", parts.number, text)?;
    add_part("hop", parts.hop, text)?;
    add_part("top", parts.top, text)?;
    add_part("grant", parts.grant, text)?;
    add_part("last", parts.last, text)?;
    add_part("upto", parts.upto, text)
}

fn add_part(key: &str, number: Option<u64>, text: &mut String) -> Result<(), AllocError>
    ensures { OnOk result (string_bytes text.new
        ≡ string_bytes text.old ++ spec.part_json key.now number) }
{
    match number {
        Some(number) => add_number(key, number, text),
        None => Ok(()),
    }
}
