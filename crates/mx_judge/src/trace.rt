//! A trace, with the place of each event in its text.

ghost use Rattle.std.specs.Prelude.{◌≡◌, IfOk, OnOk, not, true};
ghost use Rattle.std.specs.List.{list_any};
ghost use Rattle.std.specs.Str.{bytes_eq};
ghost use Rattle.mx_judge.specs.Listed.{listed, nothing, place_of, sent_by, start_of, with_message, with_one};

use crate::message::Message;
use mx_plan::Names;
use mx_trace::Entry;
use std::alloc::{AllocError, Global};

/// A trace that is read from a text.
#[derive(Drop)]
pub struct Trace {
    pub entries: Vec<Entry>,
    /// For each entry the number of its line or, in an array, of its item, from 1 on.
    pub places: Vec<u64>,
    /// The messages that the events send, in order.
    pub messages: Vec<Message>,
    /// For each entry how many messages stand before it.
    pub starts: Vec<usize>,
    /// The names of the messages, in order.
    pub(crate) names: Names,
}

impl Trace {
    pub(crate) fn new(alloc: Global) -> Trace
        ensures { listed result ≡ nothing }
    {
        Trace {
            entries: Vec::new(alloc),
            places: Vec::new(alloc),
            messages: Vec::new(alloc),
            starts: Vec::new(alloc),
            names: Names::new(alloc),
        }
    }

    /// Appends an entry, the one of this line or item.
    pub(crate) fn push(&mut self, place: u64, entry: Entry) -> Result<(), AllocError>
        ensures { OnOk result (listed self.new ≡ with_one place (listed self.old) entry) }
    {
        let start = self.messages.len();
        self.places.push(place)?;
        self.starts.push(start)?;
        self.entries.push(entry)?;
        Ok(())
    }

    /// Appends a message, which the newest entry sends. Returns false if its name was there already.
    pub(crate) fn send(&mut self, alloc: Global, message: Message) -> Result<bool, AllocError>
        ensures sent { IfOk result (λ sent.
            sent ≡ not (list_any (bytes_eq message.name) (listed self.old).names)) }
        ensures more { IfOk result (λ sent. sent ≡ true
            → listed self.new ≡ with_message (listed self.old) message) }
    {
        if !self.names.add(alloc, message.name.as_str())? {
            return Ok(false);
        }
        self.messages.push(message)?;
        Ok(true)
    }

    /// Returns the number of the line or item of the entry with this index, or 0 if there is no such
    /// entry.
    pub fn place_of(&self, index: u64) -> u64
        ensures { result ≡ place_of (listed self.now) index }
    {
        match self.places.get(index as usize) {
            Some(place) => *place,
            None => 0,
        }
    }

    /// Returns the messages that the entry with this index sends; none, if there is no such entry.
    pub fn sent_by(&self, index: usize) -> &[Message]
        ensures { result.now ≡ sent_by (listed self.now) index }
    {
        if index >= self.starts.len() {
            return &[];
        }
        match self
            .messages
            .get(self.start_of(index)..self.start_of(index + 1))
        {
            Some(messages) => messages,
            None => &[],
        }
    }

    fn start_of(&self, index: usize) -> usize
        ensures { result ≡ start_of (listed self.now) index }
    {
        match self.starts.get(index) {
            Some(start) => *start,
            None => self.messages.len(),
        }
    }
}
