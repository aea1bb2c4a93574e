ghost use Rattle.std.specs.Prelude.{Some};
ghost use Rattle.mx_format.specs.Words.{words_text};

use std::fmt;

/// A word, and the names and numbers after it, with spaces between.
#[derive(Clone, Copy)]
pub enum Words<'a> {
    Word(&'static str),
    Number(&'static str, u64),
    Numbers(&'static str, u64, &'static str, u64),
    Name(&'static str, &'a str),
    NameAndNumber(&'static str, &'a str, u64),
}

impl fmt::Display for Words<'_> {
    ghost output = { λ w. Some (words_text w) };

    fn fmt<W: fmt::Write>(&self, f: &mut fmt::Formatter<W>) -> fmt::Result {
        match self {
            Words::Word(word) => f.write_str(word),
            Words::Number(word, number) => write!(f, "{word} {number}"),
            Words::Numbers(word, number, second, other) => {
                write!(f, "{word} {number} {second} {other}")
            }
            Words::Name(word, name) => write!(f, "{word} {name}"),
            Words::NameAndNumber(word, name, number) => write!(f, "{word} {name} {number}"),
        }
    }
}
