use crate::maekawa::Maekawa;
use mx_knowledge::{Facts, Knowledge};
use std::alloc::{AllocError, Global};

impl Knowledge for Maekawa {
    ghost use Rattle.mx_maekawa.specs.Knows.{known_of};

    ghost knows = { known_of };

    fn facts(&self, alloc: Global) -> Result<Facts, AllocError> {
        let mut facts = Facts::new(alloc);
        self.requester.add_facts(alloc, &mut facts)?;
        self.arbiter.add_facts(alloc, &mut facts)?;
        Ok(facts)
    }
}
