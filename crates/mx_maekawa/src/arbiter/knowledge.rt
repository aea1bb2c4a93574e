ghost use Rattle.std.specs.Prelude.{◌≡◌, ◌++◌, OnOk};
ghost use Rattle.mx_maekawa.specs.Knows.{arbiter_known, grant_of, lock_of};

use super::Arbiter;
use mx_knowledge::{Facts, Item, stamps_in};
use std::alloc::{AllocError, Global};

impl Arbiter {
    pub(crate) fn add_facts(&self, alloc: Global, facts: &mut Facts) -> Result<(), AllocError>
        ensures { OnOk result (facts.new ≡ facts.old ++ arbiter_known self.now) }
    {
        self.add_lock(facts)?;
        self.add_grant(facts)?;
        let waiting = stamps_in(alloc, &self.waiting, self.count)?;
        facts.add_list("arbiter queue", waiting)?;
        facts.add("arbiter last", Item::Number(self.last))
    }

    fn add_lock(&self, facts: &mut Facts) -> Result<(), AllocError>
        ensures { OnOk result (facts.new ≡ facts.old ++ lock_of self.now.lock) }
    {
        match &self.lock {
            None => facts.add_word("arbiter free"),
            Some(lock) => facts.add("arbiter for", Item::Stamp(lock.stamp)),
        }
    }

    fn add_grant(&self, facts: &mut Facts) -> Result<(), AllocError>
        ensures { OnOk result (facts.new ≡ facts.old ++ grant_of self.now.lock) }
    {
        match &self.lock {
            None => Ok(()),
            Some(lock) => facts.add("arbiter grant", Item::Number(lock.grant)),
        }
    }
}
