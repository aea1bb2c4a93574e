//! Places in a text of JSON, such as `quorums.sets[0]`: what stands there, and where it begins.

use json::{MAX_DEPTH, Reader, Scratch, Token, Value};
use std::alloc::{AllocError, Global};
use std::fmt;
use std::fmt::Display;

#[derive(Clone, Copy)]
struct Step {
    key: Option<&'static str>,
    /// The index of the member or item, if it is there.
    index: Option<usize>,
}

#[derive(Clone, Copy)]
pub(crate) struct Spot<'v, 'a> {
    whole: &'static str,
    steps: [Option<Step>; 4],
    pub(crate) value: Option<&'v Value<'a>>,
}

impl<'v, 'a> Spot<'v, 'a> {
    pub(crate) fn root(whole: &'static str, value: &'v Value<'a>) -> Self {
        Spot {
            whole,
            steps: [None; 4],
            value: Some(value),
        }
    }

    pub(crate) fn named(mut self, whole: &'static str) -> Self {
        self.whole = whole;
        self
    }

    pub(crate) fn key(self, key: &'static str) -> Self {
        self.then(Some(key), self.member_of(key))
    }

    pub(crate) fn item(self, i: usize) -> Self {
        self.then(None, self.item_of(i))
    }

    fn then(mut self, key: Option<&'static str>, found: Option<(usize, &'v Value<'a>)>) -> Self {
        let index = found.map(|(index, _)| index);
        if let Some(free) = self.steps.iter_mut().find(|step| step.is_none()) {
            *free = Some(Step { key, index });
        }
        self.value = found.map(|(_, value)| value);
        self
    }

    /// Of several members with this key, returns the last.
    fn member_of(&self, key: &str) -> Option<(usize, &'v Value<'a>)> {
        let Some(Value::Object(members)) = self.value else {
            return None;
        };
        let index = members.iter().rposition(|(name, _)| *name == key)?;
        let (_, value) = members.get(index)?;
        Some((index, value))
    }

    fn item_of(&self, i: usize) -> Option<(usize, &'v Value<'a>)> {
        let Some(Value::Array(items)) = self.value else {
            return None;
        };
        Some((i, items.get(i)?))
    }

    /// Returns 0 for a value that is no array.
    pub(crate) fn len(&self) -> usize {
        match self.value {
            Some(Value::Array(items)) => items.len(),
            _ => 0,
        }
    }

    /// Returns an empty text for a value that is no string.
    pub(crate) fn text(&self) -> &'a str {
        self.value.and_then(Value::as_str).unwrap_or("")
    }

    /// Returns the byte of the text at which the value begins, or the innermost value around it.
    pub(crate) fn offset(&self, alloc: Global, text: &[u8]) -> Result<usize, AllocError> {
        let indices = self.steps.iter().flatten().filter_map(|step| step.index);
        let indices: Vec<usize> = indices.collect(alloc)?;
        offset_of(alloc, text, indices.as_slice())
    }
}

impl Display for Spot<'_, '_> {
    fn fmt<W: fmt::Write>(&self, f: &mut fmt::Formatter<W>) -> fmt::Result {
        f.write_str(self.whole)?;
        for (k, step) in self.steps.iter().enumerate() {
            match step {
                Some(Step { key: Some(key), .. }) if k > 0 => write!(f, ".{key}")?,
                Some(Step { key: Some(key), .. }) => f.write_str(key)?,
                Some(Step { index: Some(i), .. }) => write!(f, "[{i}]")?,
                _ => {}
            }
        }
        Ok(())
    }
}

pub(crate) fn index_in(word: &str, words: &[&str]) -> Option<usize> {
    words.iter().position(|known| *known == word)
}

/// Returns the byte at which a value in a text of JSON begins. The indices are those of the members
/// and items around it and of its own, from the outermost value on.
pub(crate) fn offset_of(
    alloc: Global,
    text: &[u8],
    indices: &[usize],
) -> Result<usize, AllocError> {
    let mut scratch = Scratch::new(alloc);
    let mut reader = Reader::new(str::from_utf8(text).unwrap_or(""), &mut scratch)?;
    for index in indices {
        let _ = enter(&mut reader, *index);
    }
    Ok(reader.offset())
}

fn enter(reader: &mut Reader<'_>, index: usize) -> Option<()> {
    let is_object = matches!(reader.next()?, Token::BeginObject);
    for _ in 0..index {
        if is_object {
            let _ = reader.next_key().ok()?;
        }
        reader.skip_value(MAX_DEPTH).ok()?;
    }
    if is_object {
        let _ = reader.next_key().ok()?;
    }
    Some(())
}
