//! Objects of JSON, member by member. Texts are not escaped: the names of plans and the words that
//! `mx` writes have no character that needs it.

ghost use Rattle.std.specs.Prelude.{◌≡◌, ◌++◌, OnOk, string_bytes};
ghost use Rattle.mx_format.specs.Members.{array_member, node_member, node_start, number_member, number_start, register_member, word_member, word_start};

use crate::events::{name_of, register_name_of};
use crate::lists::{Json, Listed, add_joined};
use mx_plan::Plan;
use mx_stamps::NodeId;
use std::alloc::AllocError;

/// Appends the start of an object: the brace, and the first member, whose value is a text.
pub fn start_word(key: &str, word: &str, text: &mut String) -> Result<(), AllocError>
    ensures { OnOk result (string_bytes text.new
        ≡ string_bytes text.old ++ word_start key.now word.now) }
{
    write!(text, "{{\"{key}\":\"{word}\"")
}

/// Appends the start of an object: the brace, and the first member, whose value is a number.
pub fn start_number(key: &str, number: u64, text: &mut String) -> Result<(), AllocError>
    ensures { OnOk result (string_bytes text.new
        ≡ string_bytes text.old ++ number_start key.now number) }
{
    write!(text, "{{\"{key}\":{number}")
}

/// Appends the start of an object: the brace, and the member `node` with the name of a node.
pub fn start_node(plan: &Plan, node: NodeId, text: &mut String) -> Result<(), AllocError>
    ensures { OnOk result (string_bytes text.new
        ≡ string_bytes text.old ++ node_start plan.now node) }
{
    start_word("node", name_of(plan, node), text)
}

/// Appends a comma, and a member whose value is a text.
pub fn add_word(key: &str, word: &str, text: &mut String) -> Result<(), AllocError>
    ensures { OnOk result (string_bytes text.new
        ≡ string_bytes text.old ++ word_member key.now word.now) }
{
    write!(text, ",\"{key}\":\"{word}\"")
}

/// Appends a comma, and a member whose value is a number.
pub fn add_number(key: &str, number: u64, text: &mut String) -> Result<(), AllocError>
    ensures { OnOk result (string_bytes text.new
        ≡ string_bytes text.old ++ number_member key.now number) }
{
    write!(text, ",\"{key}\":{number}")
}

/// Appends a member whose value is a text, and one whose value is a number.
pub(crate) fn add_word_and_number(
    key: &str,
    word: &str,
    name: &str,
    number: u64,
    text: &mut String,
) -> Result<(), AllocError>
    ensures { OnOk result (string_bytes text.new ≡ string_bytes text.old
        ++ (word_member key.now word.now ++ number_member name.now number)) }
{
    add_word(key, word, text)?;
    add_number(name, number, text)
}

/// Appends a comma, and a member whose value is the name of a node.
pub(crate) fn add_node_name(
    plan: &Plan,
    key: &str,
    node: NodeId,
    text: &mut String,
) -> Result<(), AllocError>
    ensures { OnOk result (string_bytes text.new
        ≡ string_bytes text.old ++ node_member plan.now key.now node) }
{
    add_word(key, name_of(plan, node), text)
}

/// Appends a comma, and the member `register` with the name of a register.
pub(crate) fn add_register_name(
    plan: &Plan,
    register: u8,
    text: &mut String,
) -> Result<(), AllocError>
    ensures { OnOk result (string_bytes text.new
        ≡ string_bytes text.old ++ register_member plan.now register) }
{
    add_word("register", register_name_of(plan, register), text)
}

/// Appends a comma, and a member whose value is an array.
pub(crate) fn add_array<V: Listed<Json>>(
    plan: &Plan,
    key: &str,
    values: &[V],
    text: &mut String,
) -> Result<(), AllocError>
    ensures { OnOk result (string_bytes text.new ≡ string_bytes text.old
        ++ array_member key.now (V.written plan.now) values.now) }
{
    write!(text, ",\"{key}\":[")?;
    add_joined(plan, ",", values, text)?;
    text.push_str("]")
}
