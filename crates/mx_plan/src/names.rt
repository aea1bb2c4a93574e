ghost use Rattle.std.specs.Prelude.{◌≡◌, ℕ, ◌++◌, ◌∷◌, ◌≤◌, ◌<◌, ◌↔◌, [], List, length, map, not, true, position, slice_get, option_map, string_bytes, IfOk, OnErr, IfSome, IsSome};
ghost use Rattle.std.specs.List.{list_all, list_any};
ghost use Rattle.std.specs.Str.{bytes_eq};
ghost use Rattle.mx_plan.specs.Text.{Text, is_name, is_name_byte};

use indexmap::IndexSet;
use std::alloc::{AllocError, Global};
use std::marker::Model;

/// Names, numbered from 0 in the order in which they were added.
#[derive(Drop)]
pub struct Names {
    set: IndexSet<String>,
}

impl Model for Names {
    ghost Value = { List Text };

    ghost view = { λ n. map string_bytes n.set.keys };
}

impl Names {
    /// Creates an empty list of names.
    pub fn new(alloc: Global) -> Self
        ensures { result ≡ [] }
    {
        Names {
            set: IndexSet::new(alloc),
        }
    }

    /// Returns the number of names.
    pub fn len(&self) -> usize
        ensures { result ≡ length self.now }
    {
        self.set.len()
    }

    /// Adds a name unless it is there already, and returns whether the name was added.
    ///
    /// # Errors
    ///
    /// Returns `AllocError` if memory runs out. Nothing has changed then.
    pub fn add(&mut self, alloc: Global, name: &str) -> Result<bool, AllocError>
        ensures added { IfOk result (λ r. r ≡ not (list_any (bytes_eq name.now) self.old)) }
        ensures names { IfOk result (λ r. r ≡ true → self.new ≡ self.old ++ name.now ∷ []) }
        ensures err { OnErr result (self.new ≡ self.old) }
    {
        let name = String::from_str(alloc, name)?;
        Ok(self.set.insert(name)?)
    }

    /// Returns the name with this number.
    pub fn get(&self, index: usize) -> Option<&str>
        ensures { option_map (λ s. s.now) result ≡ slice_get self.now index }
    {
        Some(self.set.get_index(index)?.as_str())
    }

    /// Returns the number of a name, if it is there.
    pub fn index_of(&self, name: &str) -> Option<usize>
        ensures index { result ≡ position (bytes_eq name.now) self.now }
        ensures within { IfSome result (λ i. i < length self.now) }
    {
        self.set.get_index_of(name)
    }
}

/// Returns whether a text is a name: 1 to 16 letters, digits, `_` and `-`.
pub fn is_name(text: &str) -> bool
    ensures { result ≡ is_name text.now }
{
    let bytes = text.as_bytes();
    if bytes.is_empty() || bytes.len() > 16 {
        return false;
    }
    has_name_bytes(bytes)
}

fn has_name_bytes(bytes: &[u8]) -> bool
    ensures { result ≡ list_all is_name_byte bytes.now }
{
    bytes.iter().all(|b| is_name_byte(*b))
}

#[tactic(auto, unfolding(crate::specs::Text::is_name_byte))]
fn is_name_byte(b: u8) -> bool
    ensures { result ≡ is_name_byte b }
{
    matches!(b, b'0'..=b'9' | b'A'..=b'Z' | b'a'..=b'z' | b'_' | b'-')
}
