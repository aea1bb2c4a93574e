ghost use Rattle.std.specs.Prelude.{◌≡◌, ◌++◌, IfOk, OnOk};
ghost use Rattle.mx_knowledge.specs.Tables.{below};
ghost use Rattle.mx_ricart.specs.Knows.{missing_at, missing_of, permission_of, request_of};

use crate::ricart::Ricart;
use mx_knowledge::{Facts, Item, Knowledge, stamps_in};
use mx_nodelaws::Phase;
use mx_stamps::NodeId;
use std::alloc::{AllocError, Global};

impl Knowledge for Ricart {
    ghost use Rattle.mx_ricart.specs.Knows.{known_of};

    ghost knows = { known_of };

    fn facts(&self, alloc: Global) -> Result<Facts, AllocError> {
        let mut facts = Facts::new(alloc);
        facts.add("clock", Item::Number(self.highest.highest()))?;
        self.add_request(&mut facts)?;
        self.add_permission(alloc, &mut facts)?;
        let held_back = stamps_in(alloc, &self.deferred, self.count.get())?;
        facts.add_list("holds back", held_back)?;
        Ok(facts)
    }
}

impl Ricart {
    fn add_request(&self, facts: &mut Facts) -> Result<(), AllocError>
        ensures { OnOk result (facts.new ≡ facts.old ++ request_of self.now) }
    {
        match self.phase {
            Phase::Idle => Ok(()),
            Phase::Waiting | Phase::Inside(_) => facts.add("request", Item::Stamp(self.ours)),
        }
    }

    fn add_permission(&self, alloc: Global, facts: &mut Facts) -> Result<(), AllocError>
        ensures { OnOk result (facts.new ≡ facts.old ++ permission_of self.now) }
    {
        match self.phase {
            Phase::Waiting => self.add_missing(alloc, facts),
            Phase::Idle | Phase::Inside(_) => Ok(()),
        }
    }

    fn add_missing(&self, alloc: Global, facts: &mut Facts) -> Result<(), AllocError>
        ensures { OnOk result (facts.new ≡ facts.old ++ missing_of self.now) }
    {
        if self.has_all_replies() {
            facts.add_word("may enter")
        } else {
            let missing = self.missing(alloc)?;
            facts.add_list("missing", missing)
        }
    }

    fn missing(&self, alloc: Global) -> Result<Vec<Item>, AllocError>
        ensures { IfOk result (λ items. items.items ≡ below (missing_at self.now) self.now.count) }
    {
        let mut items = Vec::new(alloc);
        for i in 0..self.count.get() {
            if let Some(node) = NodeId::of(i) {
                if i != self.me.get() && !self.got[i as usize] {
                    items.push(Item::Node(node))?;
                }
            }
        }
        Ok(items)
    }
}
