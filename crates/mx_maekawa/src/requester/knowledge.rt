ghost use Rattle.std.specs.Prelude.{◌≡◌, ◌++◌, IfOk, OnOk};
ghost use Rattle.mx_knowledge.specs.Tables.{below};
ghost use Rattle.mx_maekawa.specs.Knows.{answers_of, missing_at, missing_of, permission_of, request_of, requester_known};

use super::Requester;
use mx_knowledge::{Facts, Item, nodes_in, numbers_in};
use mx_nodelaws::Phase;
use mx_stamps::NodeId;
use std::alloc::{AllocError, Global};

impl Requester {
    pub(crate) fn add_facts(&self, alloc: Global, facts: &mut Facts) -> Result<(), AllocError>
        ensures { OnOk result (facts.new ≡ facts.old ++ requester_known self.now) }
    {
        facts.add("clock", Item::Number(self.highest.highest()))?;
        self.add_request(facts)?;
        let grants = numbers_in(alloc, &self.held, self.count)?;
        facts.add_list("grants", grants)?;
        self.add_permission(alloc, facts)?;
        self.add_answers(alloc, facts)
    }

    fn add_request(&self, facts: &mut Facts) -> Result<(), AllocError>
        ensures { OnOk result (facts.new ≡ facts.old ++ request_of self.now) }
    {
        match self.phase {
            Phase::Idle => Ok(()),
            Phase::Waiting | Phase::Inside(_) => facts.add("request", Item::Stamp(self.ours)),
        }
    }

    fn add_permission(&self, alloc: Global, facts: &mut Facts) -> Result<(), AllocError>
        ensures { OnOk result (facts.new ≡ facts.old ++ permission_of self.now) }
    {
        match self.phase {
            Phase::Waiting => self.add_missing(alloc, facts),
            Phase::Idle | Phase::Inside(_) => Ok(()),
        }
    }

    fn add_missing(&self, alloc: Global, facts: &mut Facts) -> Result<(), AllocError>
        ensures { OnOk result (facts.new ≡ facts.old ++ missing_of self.now) }
    {
        if self.holds_all() {
            facts.add_word("may enter")
        } else {
            let missing = self.missing(alloc)?;
            facts.add_list("missing", missing)
        }
    }

    fn missing(&self, alloc: Global) -> Result<Vec<Item>, AllocError>
        ensures { IfOk result (λ items. items.items ≡ below (missing_at self.now) self.now.count) }
    {
        let mut items = Vec::new(alloc);
        for i in 0..self.count {
            if let Some(node) = NodeId::of(i) {
                if self.own[i as usize] && self.held[i as usize].is_none() {
                    items.push(Item::Node(node))?;
                }
            }
        }
        Ok(items)
    }

    fn add_answers(&self, alloc: Global, facts: &mut Facts) -> Result<(), AllocError>
        ensures { OnOk result (facts.new ≡ facts.old ++ answers_of self.now) }
    {
        let failed = nodes_in(alloc, &self.failed, self.count)?;
        facts.add_list("failed", failed)?;
        let inquired = numbers_in(alloc, &self.remembered, self.count)?;
        facts.add_list("inquired", inquired)
    }
}
