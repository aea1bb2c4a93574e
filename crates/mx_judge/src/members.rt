//! The members of the objects of events and messages.

ghost use Rattle.std.specs.Prelude.{◌≡◌};
ghost use Rattle.serde_json.specs.View.{view};
ghost use Rattle.mx_judge.specs.Members as spec;

use crate::faults::ItemFault;
use serde_json::Value;

#[derive(Clone, Copy)]
pub(crate) enum Member {
    Act,
    Node,
    From,
    To,
    Of,
    Register,
    Value,
    Upto,
    Parcel,
    Outcome,
    Number,
    Count,
    Cause,
    Kind,
    Stamp,
    Hop,
    Top,
    Grant,
    Last,
}

impl Member {
    pub(crate) fn key(self) -> &'static str
        ensures { result.now ≡ spec.key_of self }
    {
        match self {
            Member::Act => "act",
            Member::Node => "node",
            Member::From => "from",
            Member::To => "to",
            Member::Of => "of",
            Member::Register => "register",
            Member::Value => "value",
            Member::Upto => "upto",
            Member::Parcel => "parcel",
            Member::Outcome => "outcome",
            Member::Number => "number",
            Member::Count => "count",
            Member::Cause => "cause",
            Member::Kind => "kind",
            Member::Stamp => "stamp",
            Member::Hop => "hop",
            Member::Top => "top",
            Member::Grant => "grant",
            Member::Last => "last",
        }
    }

    pub(crate) fn message(self) -> &'static str
        ensures { result.now ≡ spec.message_of self }
    {
        match self {
            Member::Act | Member::Cause => "no such word",
            Member::Node | Member::From | Member::To | Member::Of => "no such node",
            Member::Register => "no such register",
            Member::Outcome => "not one of its act",
            Member::Kind => "not a text",
            Member::Parcel => "not a number or a text",
            _ => "not a number",
        }
    }

    /// Returns what is expected of the member, or `None` if it is one of a few words.
    pub(crate) fn expected(self) -> Option<&'static str> {
        match self {
            Member::Act | Member::Outcome | Member::Cause => None,
            Member::Node | Member::From | Member::To | Member::Of => Some("a node of the plan"),
            Member::Register => Some("a register of the plan"),
            Member::Kind => Some("a text"),
            Member::Parcel => Some("a whole number of 64 bits without a sign, or a text"),
            _ => Some("a whole number of 64 bits without a sign"),
        }
    }
}

pub(crate) fn has_member(value: &Value, key: &str) -> bool
    ensures { result ≡ spec.has_member key.now (view value.now) }
{
    value.get(key).is_some()
}

pub(crate) fn text_at(value: &Value, member: Member) -> &str
    ensures { result.now ≡ spec.text_at member (view value.now) }
{
    value
        .get(member.key())
        .and_then(Value::as_str)
        .unwrap_or("")
}

pub(crate) fn number_at(value: &Value, member: Member) -> Result<u64, ItemFault>
    ensures { result ≡ spec.number_at member (view value.now) }
{
    value
        .get(member.key())
        .and_then(Value::as_u64)
        .ok_or(ItemFault::Wrong(member))
}
