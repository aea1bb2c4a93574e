ghost use Rattle.std.specs.Prelude.{◌≡◌, ◌++◌, List, OnOk, map, string_bytes};
ghost use Rattle.mx_plan.specs.Text.{Text};
ghost use Rattle.mx_format.specs.LetterTexts.{letter_text};
ghost use Rattle.mx_format.specs.Parts.{Parts, maekawa_parts, maekawa_words, numbers_of, of_number, of_request, parts_of, raymond_parts, raymond_words, ricart_parts, ricart_words};

use crate::parts::{LetterParts, Numbers, PartsText, Style, Subject};
use mx_letters::{MaekawaMsg, RaymondMsg, RicartMsg};
use mx_plan::Plan;
use mx_stamps::Stamp;
use std::alloc::AllocError;

/// A letter that returns its parts.
pub trait Letter: Copy + Default {
    // its parts
    ghost parts: { Self → Parts };

    // the words of its algorithm's letters
    ghost words: { List Text };

    /// Returns the parts of the letter.
    fn parts(&self) -> LetterParts
        ensures { parts_of result ≡ parts self.now };

    /// Returns the words of the algorithm's letters, in the order in which `count` lists them.
    fn words() -> &'static [&'static str]
        ensures { map (λ word. word.now) result.now ≡ words };

    /// Appends the text of the letter.
    final fn tell(&self, plan: &Plan, text: &mut String) -> Result<(), AllocError>
        ensures { OnOk result (string_bytes text.new ≡ string_bytes text.old
            ++ letter_text parts plan.now self.now) }
    {
        let parts = self.parts();
        text.write(PartsText {
            plan,
            parts: &parts,
        })
    }
}

fn about(word: &'static str, stamp: &Stamp, numbers: Numbers, style: Style) -> LetterParts
    ensures { parts_of result ≡ of_request word.now stamp.now (numbers_of numbers) style }
{
    LetterParts {
        word,
        subject: Subject::Stamp(*stamp),
        numbers,
        style,
    }
}

fn counted(
    word: &'static str,
    name: &'static str,
    number: u64,
    numbers: Numbers,
    style: Style,
) -> LetterParts
    ensures { parts_of result ≡ of_number word.now (name.now, number) (numbers_of numbers) style }
{
    LetterParts {
        word,
        subject: Subject::Number(name, number),
        numbers,
        style,
    }
}

impl Letter for RicartMsg {
    ghost parts = { ricart_parts };

    ghost words = { ricart_words };

    fn parts(&self) -> LetterParts {
        match self {
            RicartMsg::Request(stamp) => about("request", stamp, Numbers::None, Style::Request),
            RicartMsg::Reply(stamp, top) => {
                about("reply", stamp, Numbers::One("top", *top), Style::Grant)
            }
        }
    }

    fn words() -> &'static [&'static str] {
        &["request", "reply"]
    }
}

impl Letter for MaekawaMsg {
    ghost parts = { maekawa_parts };

    ghost words = { maekawa_words };

    fn parts(&self) -> LetterParts {
        match self {
            MaekawaMsg::Request(stamp) => about("request", stamp, Numbers::None, Style::Request),
            MaekawaMsg::Locked(stamp, grant, last) => {
                let numbers = Numbers::Two("grant", *grant, "last", *last);
                about("locked", stamp, numbers, Style::Grant)
            }
            MaekawaMsg::Failed(stamp) => about("failed", stamp, Numbers::None, Style::Other),
            MaekawaMsg::Inquire(stamp, grant) => {
                let grant = Numbers::One("grant", *grant);
                about("inquire", stamp, grant, Style::Other)
            }
            MaekawaMsg::Relinquish(stamp, grant) => {
                let grant = Numbers::One("grant", *grant);
                about("relinquish", stamp, grant, Style::Other)
            }
            MaekawaMsg::Release(stamp, top) => {
                about("release", stamp, Numbers::One("top", *top), Style::Other)
            }
        }
    }

    fn words() -> &'static [&'static str] {
        &[
            "request",
            "locked",
            "failed",
            "inquire",
            "relinquish",
            "release",
        ]
    }
}

impl Letter for RaymondMsg {
    ghost parts = { raymond_parts };

    ghost words = { raymond_words };

    fn parts(&self) -> LetterParts {
        match self {
            RaymondMsg::Request(number) => {
                counted("request", "number", *number, Numbers::None, Style::Request)
            }
            RaymondMsg::Privilege(hop, last) => {
                let last = Numbers::One("last", *last);
                counted("privilege", "hop", *hop, last, Style::Grant)
            }
            RaymondMsg::Got(hop) => counted("got", "hop", *hop, Numbers::None, Style::Other),
        }
    }

    fn words() -> &'static [&'static str] {
        &["request", "privilege", "got"]
    }
}
