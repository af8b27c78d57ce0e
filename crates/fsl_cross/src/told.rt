//! Reads the cards of a set's artifacts, for reports that list what there is.
ghost use Rattle.std.specs.Prelude.{◌≡◌, IfOk};
ghost use Rattle.fsl_cross.specs.Tables.{pages_facts, ticket_facts, forum_facts};

use super::facts::{forum, pages, tickets};
use super::items::Items;
use fsl_text::{List, Memory};
use std::alloc::Global;

impl Items {
    /// Lists what the pages, technotes and attachments of the set say, by their names. `Memory` is the only error.
    pub fn pages(&self, alloc: Global) -> Result<List<fsl_wiki::Fact>, Memory>
        ensures { IfOk result (λ facts. facts ≡ pages_facts self.now) }
    {
        let facts = pages::of_items(alloc, self)?;
        Ok(List::from_vec(facts))
    }

    /// Lists what the ticket changes of the set say, by their names. `Memory` is the only error.
    pub fn ticket_changes(&self, alloc: Global) -> Result<List<fsl_ticket::Fact>, Memory>
        ensures { IfOk result (λ facts. facts ≡ ticket_facts self.now) }
    {
        let facts = tickets::of_items(alloc, self)?;
        Ok(List::from_vec(facts))
    }

    /// Lists what the forum posts of the set say, by their names. `Memory` is the only error.
    pub fn posts(&self, alloc: Global) -> Result<List<fsl_forum::Fact>, Memory>
        ensures { IfOk result (λ facts. facts ≡ forum_facts self.now) }
    {
        let facts = forum::of_items(alloc, self)?;
        Ok(List::from_vec(facts))
    }
}
