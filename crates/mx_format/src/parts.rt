//! The parts of a letter, from which its text, its JSON, its count and its arrow are made.

ghost use Rattle.std.specs.Prelude.{◌≡◌, ◌++◌, OnOk, Some, string_bytes};
ghost use Rattle.mx_format.specs.Parts.{numbers_of, parts_of, subject_of};
ghost use Rattle.mx_format.specs.LetterTexts.{about_json, letter_json, numbers_json, numbers_text, said_text, subject_text};

use crate::events::name_of;
use crate::json::{add_node_name, add_number, add_word};
use mx_plan::Plan;
use mx_stamps::Stamp;
use std::alloc::AllocError;
use std::fmt;

/// What a letter is about: a request, by its stamp, or a number, with the number's name.
#[derive(Clone, Copy, Debug, PartialEq, Eq)]
pub enum Subject {
    Stamp(Stamp),
    Number(&'static str, u64),
}

/// The numbers that a letter has beside its subject, each with its name.
#[derive(Clone, Copy, Debug, PartialEq, Eq)]
pub enum Numbers {
    None,
    One(&'static str, u64),
    Two(&'static str, u64, &'static str, u64),
}

/// How pictures draw a letter: as a request, as a letter that grants one, or as any other.
#[derive(Clone, Copy, Debug, PartialEq, Eq)]
pub enum Style {
    Request,
    Grant,
    Other,
}

/// The parts of a letter.
#[derive(Clone, Copy, Debug, PartialEq, Eq)]
pub struct LetterParts {
    /// The word that its text begins with, and under which it is counted.
    pub word: &'static str,
    pub subject: Subject,
    pub numbers: Numbers,
    pub style: Style,
}

#[derive(Clone, Copy)]
struct SubjectText<'a> {
    plan: &'a Plan,
    subject: &'a Subject,
}

impl fmt::Display for SubjectText<'_> {
    ghost output = { λ s. Some (subject_text s.plan.now (subject_of s.subject.now)) };

    fn fmt<W: fmt::Write>(&self, f: &mut fmt::Formatter<W>) -> fmt::Result {
        match self.subject {
            Subject::Stamp(stamp) => {
                let number = stamp.number;
                let name = name_of(self.plan, stamp.node);
                write!(f, "{number}.{name}")
            }
            Subject::Number(_, number) => write!(f, "{number}"),
        }
    }
}

#[derive(Clone, Copy)]
struct NumbersText<'a>(&'a Numbers);

impl fmt::Display for NumbersText<'_> {
    ghost output = { λ n. Some (numbers_text (numbers_of n.0.now)) };

    fn fmt<W: fmt::Write>(&self, f: &mut fmt::Formatter<W>) -> fmt::Result {
        match self.0 {
            Numbers::None => Ok(()),
            Numbers::One(name, number) => write!(f, " {name} {number}"),
            Numbers::Two(name, number, second, other) => {
                write!(f, " {name} {number} {second} {other}")
            }
        }
    }
}

#[derive(Clone, Copy)]
pub(crate) struct PartsText<'a> {
    pub(crate) plan: &'a Plan,
    pub(crate) parts: &'a LetterParts,
}

impl fmt::Display for PartsText<'_> {
    ghost output = { λ t. Some (said_text t.plan.now t.parts.now) };

    fn fmt<W: fmt::Write>(&self, f: &mut fmt::Formatter<W>) -> fmt::Result {
        let word = self.parts.word;
        let numbers = NumbersText(&self.parts.numbers);
        let subject = SubjectText {
            plan: self.plan,
            subject: &self.parts.subject,
        };
        write!(f, "{word} {subject}{numbers}")
    }
}

/// Appends the members of a letter.
pub(crate) fn add_letter_json(
    plan: &Plan,
    parts: &LetterParts,
    text: &mut String,
) -> Result<(), AllocError>
    ensures { OnOk result (string_bytes text.new
        ≡ string_bytes text.old ++ letter_json plan.now (parts_of parts.now)) }
{
    add_word("kind", parts.word, text)?;
    add_subject(plan, &parts.subject, text)?;
    add_numbers(&parts.numbers, text)
}

fn add_subject(plan: &Plan, subject: &Subject, text: &mut String) -> Result<(), AllocError>
    ensures { OnOk result (string_bytes text.new
        ≡ string_bytes text.old ++ about_json plan.now (subject_of subject.now)) }
{
    match subject {
        Subject::Stamp(stamp) => {
            add_number("stamp", stamp.number, text)?;
            add_node_name(plan, "of", stamp.node, text)
        }
        Subject::Number(name, number) => add_number(name, *number, text),
    }
}

fn add_numbers(numbers: &Numbers, text: &mut String) -> Result<(), AllocError>
    ensures { OnOk result (string_bytes text.new
        ≡ string_bytes text.old ++ numbers_json (numbers_of numbers.now)) }
{
    match numbers {
        Numbers::None => Ok(()),
        Numbers::One(name, number) => add_number(name, *number, text),
        Numbers::Two(name, number, second, other) => {
            add_number(name, *number, text)?;
            add_number(second, *other, text)
        }
    }
}
