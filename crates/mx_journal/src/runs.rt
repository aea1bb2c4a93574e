ghost use Rattle.std.specs.Prelude.{◌≡◌, ◌+◌, ◌<◌, ◌≤◌, [], ◌∷◌, ◌++◌, OnOk, OnErr, length, get_or, take, drop};
ghost use Rattle.std.specs.VecDeque.{deque_capacity, deque_len};
ghost use Rattle.mx_journal.specs.Runs.{first_number, last_number};

use crate::records::Record;
use std::alloc::{AllocError, Global};
use std::collections::VecDeque;
use std::marker::Model;
use std::mem;

/// A sequence of records that can grow at both ends. In a journal, their numbers are consecutive.
#[derive(Drop)]
pub(crate) struct Run {
    records: VecDeque<Record>,
}

impl Model for Run {
    ghost use Rattle.std.specs.Prelude.{List};
    ghost use Rattle.mx_journal.specs.declared.records.Record.{Record};

    ghost Value = { List Record };

    ghost view = { λ r. r.records.items };
}

impl Run {
    pub(crate) fn new(alloc: Global) -> Run
        ensures { result ≡ [] }
    {
        Run {
            records: VecDeque::new(alloc),
        }
    }

    pub(crate) fn len(&self) -> usize
        ensures { result ≡ length self.now }
    {
        self.records.len()
    }

    pub(crate) fn record(&self, place: usize) -> &Record
        requires { place < length self.now }
        ensures { result.now ≡ get_or self.now place result.now }
    {
        &self.records[place]
    }

    pub(crate) fn first(&self) -> u64
        ensures { result ≡ first_number self.now }
    {
        match self.records.front() {
            Some(entry) => entry.number,
            None => 0,
        }
    }

    pub(crate) fn last(&self) -> u64
        ensures { result ≡ last_number self.now }
    {
        match self.records.back() {
            Some(entry) => entry.number,
            None => 0,
        }
    }

    pub(crate) fn push_back(&mut self, entry: Record) -> Result<(), AllocError>
        ensures ok { OnOk result (self.new ≡ self.old ++ entry ∷ []) }
        ensures err { OnErr result (self.new ≡ self.old) }
    {
        self.records.push_back(entry)?;
        Ok(())
    }

    pub(crate) fn push_front(&mut self, entry: Record) -> Result<(), AllocError>
        ensures ok { OnOk result (self.new ≡ entry ∷ self.old) }
        ensures err { OnErr result (self.new ≡ self.old) }
    {
        self.records.push_front(entry)?;
        Ok(())
    }

    pub(crate) fn truncate(&mut self, len: usize)
        ensures { self.new ≡ take len self.old }
    {
        self.records.truncate(len);
    }

    pub(crate) fn skip(&mut self, count: usize)
        ensures { self.new ≡ drop count self.old }
    {
        drop_first(&mut self.records, count);
    }

    /// Moves the records of the shorter run. The contents of `next` are unspecified afterwards.
    pub(crate) fn take_next(&mut self, next: &mut Run) -> Result<(), AllocError>
        ensures ok { OnOk result (self.new ≡ self.old ++ next.old) }
        ensures err { OnErr result (self.new ≡ self.old) }
        ensures next { OnErr result (next.new ≡ next.old) }
    {
        if self.records.len() >= next.records.len() {
            return self.records.append(&mut next.records);
        }
        next.records.reserve(self.records.len())?;
        move_before(&mut next.records, &mut self.records);
        mem::swap(&mut self.records, &mut next.records);
        Ok(())
    }

    pub(crate) fn join(&mut self, entry: Record, next: &mut Run) -> Result<(), AllocError>
        ensures ok { OnOk result (self.new ≡ self.old ++ entry ∷ next.old) }
        ensures err { OnErr result (self.new ≡ self.old) }
        ensures next { OnErr result (next.new ≡ next.old) }
    {
        if self.records.len() >= next.records.len() {
            self.records.reserve(next.records.len().saturating_add(1))?;
            self.records.push_back_reserved(entry);
            move_behind(&mut self.records, &mut next.records);
            return Ok(());
        }
        next.records.reserve(self.records.len().saturating_add(1))?;
        next.records.push_front_reserved(entry);
        move_before(&mut next.records, &mut self.records);
        mem::swap(&mut self.records, &mut next.records);
        Ok(())
    }
}

fn drop_first(records: &mut VecDeque<Record>, count: usize)
    ensures { records.new.items ≡ drop count records.old.items }
{
    for _ in 0..count {
        let _ = records.pop_front();
    }
}

fn move_behind(records: &mut VecDeque<Record>, behind: &mut VecDeque<Record>)
    requires { deque_len records.old + deque_len behind.old ≤ deque_capacity records.old }
    ensures { records.new.items ≡ records.old.items ++ behind.old.items }
{
    while let Some(other) = behind.pop_front() {
        records.push_back_reserved(other);
    }
}

fn move_before(records: &mut VecDeque<Record>, before: &mut VecDeque<Record>)
    requires { deque_len records.old + deque_len before.old ≤ deque_capacity records.old }
    ensures { records.new.items ≡ before.old.items ++ records.old.items }
{
    while let Some(other) = before.pop_back() {
        records.push_front_reserved(other);
    }
}
