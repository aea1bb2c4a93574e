ghost use Rattle.std.specs.Prelude.{◌≡◌, [], ◌++◌, IfOk, OnOk, map};
ghost use Rattle.mx_knowledge.specs.Facts.{fact, fact_of, listed, one, word};

use mx_stamps::{NodeId, Stamp};
use std::alloc::{AllocError, Global};
use std::marker::Model;

/// A value of a fact.
#[derive(Clone, Copy)]
pub enum Item {
    /// A number.
    Number(u64),
    /// A node.
    Node(NodeId),
    /// The stamp of a request.
    Stamp(Stamp),
    /// A node with a number, such as an arbiter with the number of its grant.
    Numbered(NodeId, u64),
}

/// A fact: its name, and its values in order.
#[derive(Drop)]
pub struct Fact {
    /// The name of the fact.
    pub name: &'static str,
    /// The values, in order.
    pub items: Vec<Item>,
}

/// Facts in the order in which they are shown.
#[derive(Drop)]
pub struct Facts {
    alloc: Global,
    all: Vec<Fact>,
}

impl Model for Facts {
    ghost use Rattle.std.specs.Prelude.{List, map};
    ghost use Rattle.mx_knowledge.specs.Facts.{Known, fact_of};

    ghost Value = { List Known };

    ghost view = { λ f. map fact_of f.all.items };
}

impl Facts {
    /// Creates an empty list of facts.
    pub fn new(alloc: Global) -> Facts
        ensures { result ≡ [] }
    {
        Facts {
            alloc,
            all: Vec::new(alloc),
        }
    }

    /// Returns the facts, in order.
    pub fn as_slice(&self) -> &[Fact]
        ensures { map fact_of result.now ≡ self.now }
    {
        self.all.as_slice()
    }

    /// Adds a fact without values.
    ///
    /// # Errors
    ///
    /// Returns `AllocError` if memory runs out.
    pub fn add_word(&mut self, name: &'static str) -> Result<(), AllocError>
        ensures { OnOk result (self.new ≡ self.old ++ word name.now) }
    {
        let items = Vec::new(self.alloc);
        self.push(name, items)
    }

    /// Adds a fact with one value.
    ///
    /// # Errors
    ///
    /// Returns `AllocError` if memory runs out.
    pub fn add(&mut self, name: &'static str, item: Item) -> Result<(), AllocError>
        ensures { OnOk result (self.new ≡ self.old ++ one name.now item) }
    {
        let mut items = Vec::new(self.alloc);
        items.push(item)?;
        self.push(name, items)
    }

    /// Adds a fact with these values, if there are any.
    ///
    /// # Errors
    ///
    /// Returns `AllocError` if memory runs out.
    pub fn add_list(&mut self, name: &'static str, items: Vec<Item>) -> Result<(), AllocError>
        ensures { OnOk result (self.new ≡ self.old ++ listed name.now items.items) }
    {
        if items.is_empty() {
            return Ok(());
        }
        self.push(name, items)
    }

    fn push(&mut self, name: &'static str, items: Vec<Item>) -> Result<(), AllocError>
        ensures { OnOk result (self.new ≡ self.old ++ fact name.now items.items) }
    {
        self.all.push(Fact { name, items })?;
        Ok(())
    }
}
