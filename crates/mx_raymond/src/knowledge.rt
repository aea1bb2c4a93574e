ghost use Rattle.std.specs.Prelude.{◌≡◌, ◌++◌, OnOk};
ghost use Rattle.mx_raymond.specs.Knows.{asked_of, granted_of, permission_of, place_of, unacked_of};

use crate::raymond::Raymond;
use mx_knowledge::{Facts, Item, Knowledge};
use mx_nodelaws::Phase;
use std::alloc::{AllocError, Global};

impl Knowledge for Raymond {
    ghost use Rattle.mx_raymond.specs.Knows.{known_of};

    ghost knows = { known_of };

    fn facts(&self, alloc: Global) -> Result<Facts, AllocError> {
        let mut facts = Facts::new(alloc);
        self.add_place(&mut facts)?;
        facts.add_list("queue", self.queue.items(alloc)?)?;
        self.add_asked(&mut facts)?;
        facts.add("hop", Item::Number(self.hop))?;
        self.add_unacked(&mut facts)?;
        self.add_permission(&mut facts)?;
        Ok(facts)
    }
}

impl Raymond {
    fn add_place(&self, facts: &mut Facts) -> Result<(), AllocError>
        ensures { OnOk result (facts.new ≡ facts.old ++ place_of self.now) }
    {
        if self.is_holder() {
            facts.add_word("has the privilege")
        } else {
            facts.add("privilege towards", Item::Node(self.holder))
        }
    }

    fn add_asked(&self, facts: &mut Facts) -> Result<(), AllocError>
        ensures { OnOk result (facts.new ≡ facts.old ++ asked_of self.now) }
    {
        if self.has_asked {
            facts.add_word("has asked")
        } else {
            Ok(())
        }
    }

    fn add_unacked(&self, facts: &mut Facts) -> Result<(), AllocError>
        ensures { OnOk result (facts.new ≡ facts.old ++ unacked_of self.now.unacked) }
    {
        match &self.unacked {
            Some(unacked) => {
                facts.add("unacknowledged", Item::Numbered(unacked.to, unacked.hop))
            }
            None => Ok(()),
        }
    }

    fn add_permission(&self, facts: &mut Facts) -> Result<(), AllocError>
        ensures { OnOk result (facts.new ≡ facts.old ++ permission_of self.now) }
    {
        match self.phase {
            Phase::Waiting => self.add_granted(facts),
            Phase::Idle | Phase::Inside(_) => Ok(()),
        }
    }

    fn add_granted(&self, facts: &mut Facts) -> Result<(), AllocError>
        ensures { OnOk result (facts.new ≡ facts.old ++ granted_of self.now) }
    {
        if self.has_permission() {
            facts.add_word("may enter")
        } else {
            Ok(())
        }
    }
}
