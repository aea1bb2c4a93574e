//! Parcels, in lines and as JSON.

ghost use Rattle.std.specs.Prelude.{◌≡◌, ◌++◌, OnOk, codes, string_bytes};
ghost use Rattle.mx_format.specs.LetterTexts.{letter_text};
ghost use Rattle.mx_format.specs.Lines.{each_text};
ghost use Rattle.mx_format.specs.Members.{array_member, word_member};
ghost use Rattle.mx_format.specs.ParcelTexts.{content_json, parcel_json, parcel_line, parcel_text, range_json, range_text, record_text};

use crate::events::name_of;
use crate::json::{add_array, add_node_name, add_word, add_word_and_number, start_number};
use crate::letters::Letter;
use crate::lists::{Json, Line, Listed, add_each};
use crate::parts::add_letter_json;
use mx_journal::{Range, Record};
use mx_member::{Parcel, SentParcel};
use mx_plan::Plan;
use std::alloc::AllocError;

impl Listed<Line> for Range {
    ghost written = { λ _ range. range_text range };

    fn add(&self, _plan: &Plan, text: &mut String) -> Result<(), AllocError> {
        write!(text, "{}..{}", self.first, self.last)
    }
}

impl Listed<Json> for Range {
    ghost written = { λ _ range. range_json range };

    fn add(&self, _plan: &Plan, text: &mut String) -> Result<(), AllocError> {
        write!(text, "[{},{}]", self.first, self.last)
    }
}

impl<Form> Listed<Form> for Record {
    ghost written = { λ _ entry. record_text entry };

    fn add(&self, _plan: &Plan, text: &mut String) -> Result<(), AllocError> {
        write!(text, "{}", self.number)
    }
}

/// Appends the line of a parcel.
pub fn add_parcel_line<M: Letter>(
    plan: &Plan,
    number: u64,
    sent: &SentParcel<'_, M>,
    text: &mut String,
) -> Result<(), AllocError>
    ensures { OnOk result (string_bytes text.new ≡ string_bytes text.old
        ++ parcel_line (letter_text M.parts) plan.now number
        (sent.now.from, sent.now.to, sent.now.parcel.now)) }
{
    let (from, to) = (name_of(plan, sent.from), name_of(plan, sent.to));
    write!(text, "  #{number} {from}>{to} ")?;
    add_parcel(plan, sent.parcel, text)?;
    text.push_str("\n")
}

/// Appends the text of a parcel.
pub fn add_parcel<M: Letter>(
    plan: &Plan,
    parcel: &Parcel<M>,
    text: &mut String,
) -> Result<(), AllocError>
    ensures { OnOk result (string_bytes text.new
        ≡ string_bytes text.old ++ parcel_text (letter_text M.parts) plan.now parcel.now) }
{
    match parcel {
        Parcel::Guard(letter) => letter.tell(plan, text),
        Parcel::Want(ranges) => add_list(plan, "want", ranges.as_slice(), text),
        Parcel::Base(base) => write!(text, "base {}", base.upto()),
        Parcel::Records(records) => add_list(plan, "records", records.as_slice(), text),
    }
}

fn add_list<V: Listed<Line>>(
    plan: &Plan,
    word: &str,
    values: &[V],
    text: &mut String,
) -> Result<(), AllocError>
    ensures { OnOk result (string_bytes text.new ≡ string_bytes text.old
        ++ (word.now ++ each_text (λ value. codes " " ++ V.written plan.now value) values.now)) }
{
    text.push_str(word)?;
    add_each(plan, " ", values, text)
}

/// Appends the line of a parcel, as an object of JSON.
pub fn add_parcel_json<M: Letter>(
    plan: &Plan,
    number: u64,
    sent: &SentParcel<'_, M>,
    text: &mut String,
) -> Result<(), AllocError>
    ensures { OnOk result (string_bytes text.new ≡ string_bytes text.old
        ++ parcel_json M.parts plan.now number
        (sent.now.from, sent.now.to, sent.now.parcel.now)) }
{
    start_number("parcel", number, text)?;
    add_node_name(plan, "from", sent.from, text)?;
    add_node_name(plan, "to", sent.to, text)?;
    add_content_json(plan, sent.parcel, text)?;
    text.push_str("}\n")
}

fn add_content_json<M: Letter>(
    plan: &Plan,
    parcel: &Parcel<M>,
    text: &mut String,
) -> Result<(), AllocError>
    ensures { OnOk result (string_bytes text.new
        ≡ string_bytes text.old ++ content_json M.parts plan.now parcel.now) }
{
    match parcel {
        Parcel::Guard(letter) => add_letter_json(plan, &letter.parts(), text),
        Parcel::Want(ranges) => add_list_json(plan, "want", "ranges", ranges.as_slice(), text),
        Parcel::Base(base) => add_word_and_number("kind", "base", "upto", base.upto(), text),
        Parcel::Records(records) => {
            add_list_json(plan, "records", "numbers", records.as_slice(), text)
        }
    }
}

fn add_list_json<V: Listed<Json>>(
    plan: &Plan,
    kind: &str,
    key: &str,
    values: &[V],
    text: &mut String,
) -> Result<(), AllocError>
    ensures { OnOk result (string_bytes text.new ≡ string_bytes text.old
        ++ (word_member (codes "kind") kind.now
        ++ array_member key.now (V.written plan.now) values.now)) }
{
    add_word("kind", kind, text)?;
    add_array(plan, key, values, text)
}
