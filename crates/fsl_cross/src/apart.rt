//! Makes single tables, each when it is asked for, since one report reads few of them. Each has the facts that it has among all
//! tables. The table of parentage is made for the table of tags, and let go.
ghost use Rattle.std.specs.Prelude.{◌≡◌, ℕ, List as Texts, All, IfOk, map};
ghost use Rattle.std.specs.List.Sorted.{IsStrictlySortedBy};
ghost use Rattle.fsl_order.specs.Names.{bytes_cmp};
ghost use Rattle.fsl_cross.specs.Checkins.{tags_facts, tip};
ghost use Rattle.fsl_cross.specs.Tables.{IsItem, tables, pages_facts, forum_facts, cluster_facts};

use crate::beside::beside;
use crate::items::Items;
use crate::{facts, timeline, tip};
use fsl_cluster::Clusters;
use fsl_files::Files;
use fsl_forum::Threads;
use fsl_leaves::Leaves;
use fsl_name::Name;
use fsl_tags::Tags;
use fsl_text::{List, Memory, Text};
use fsl_ticket::Tickets;
use fsl_timeline::Timeline;
use fsl_wiki::Pages;
use std::alloc::Global;

impl Items {
    /// The artifacts rise by name. This call does nothing: by it a caller learns so.
    fn rises(&self)
        ensures { IsStrictlySortedBy bytes_cmp (map (λ i. i.name) self.now) }
    {
        let _ = self.iter();
    }

    /// Makes the table of tags. `Memory` is the only error.
    pub fn tags(&self, alloc: Global) -> Result<Tags, Memory>
        ensures own { IfOk result (λ t. t.facts ≡ tags_facts self.now) }
        ensures facts { (fields : Texts (Texts ℕ)) → IfOk result (λ t. t.facts ≡ (tables fields self.now).tags) }
    {
        self.rises();
        let links = facts::links::table(alloc, self)?;
        facts::tags::table(alloc, &links, self)
    }

    /// Makes the tables of tags and of leaves. `Memory` is the only error.
    pub fn tags_and_leaves(&self, alloc: Global) -> Result<(Tags, Leaves), Memory>
        ensures own { IfOk result (λ both. both.0.facts ≡ tags_facts self.now) }
        ensures facts { (fields : Texts (Texts ℕ)) → IfOk result (λ both. both.1.facts ≡ (tables fields self.now).leaves) }
    {
        self.rises();
        let tags = self.tags(alloc)?;
        let leaves = facts::leaves::table(alloc, &tags, self);
        beside(tags, leaves)
    }

    /// Makes the table of the files of check-ins. `Memory` is the only error.
    pub fn files(&self, alloc: Global) -> Result<Files, Memory>
        requires { All IsItem self.now }
        ensures { (fields : Texts (Texts ℕ)) → IfOk result (λ t. t.facts ≡ (tables fields self.now).files) }
    {
        self.rises();
        facts::files::table(alloc, self)
    }

    /// Makes the table of wiki pages, technotes and attachments. `Memory` is the only error.
    pub fn wiki(&self, alloc: Global) -> Result<Pages, Memory>
        ensures own { IfOk result (λ t. t.facts ≡ pages_facts self.now) }
        ensures facts { (fields : Texts (Texts ℕ)) → IfOk result (λ t. t.facts ≡ (tables fields self.now).pages) }
    {
        self.rises();
        facts::pages::table(alloc, self)
    }

    /// Makes the table of tickets, with the configured fields. `Memory` is the only error.
    pub fn ticket(&self, alloc: Global, fields: &List<Text>) -> Result<Tickets, Memory>
        ensures fields { IfOk result (λ t. t.fields ≡ fields.now) }
        ensures facts { IfOk result (λ t. t.facts ≡ (tables fields.now self.now).tickets) }
    {
        self.rises();
        facts::tickets::table(alloc, fields, self)
    }

    /// Makes the table of forum posts. `Memory` is the only error.
    pub fn forum(&self, alloc: Global) -> Result<Threads, Memory>
        ensures own { IfOk result (λ t. t.facts ≡ forum_facts self.now) }
        ensures facts { (fields : Texts (Texts ℕ)) → IfOk result (λ t. t.facts ≡ (tables fields self.now).threads) }
    {
        self.rises();
        facts::forum::table(alloc, self)
    }

    /// Makes the table of clusters. `Memory` is the only error.
    pub fn cluster(&self, alloc: Global) -> Result<Clusters, Memory>
        ensures own { IfOk result (λ t. t.facts ≡ cluster_facts self.now) }
        ensures facts { (fields : Texts (Texts ℕ)) → IfOk result (λ t. t.facts ≡ (tables fields self.now).clusters) }
    {
        self.rises();
        facts::clusters::table(alloc, self)
    }

    /// Makes the timeline. Its rows come from the tables of tags, pages and posts, which are let go. `Memory` is the only error.
    pub fn timeline(&self, alloc: Global) -> Result<Timeline, Memory>
        ensures { (fields : Texts (Texts ℕ)) → IfOk result (λ t. t.facts ≡ (tables fields self.now).timeline) }
    {
        self.rises();
        let tags = self.tags(alloc)?;
        let two = beside(tags, self.wiki(alloc))?;
        let ((tags, pages), threads) = beside(two, self.forum(alloc))?;
        let rows = timeline::table(alloc, &tags, &pages, &threads, self);
        drop(threads);
        drop(pages);
        drop(tags);
        rows
    }

    /// Finds the tip of a symbolic name: of the check-ins on which the tag of `sym-` and the name is in force, the one with the
    /// greatest date and, at one date, the greatest name. None where there is none. `Memory` is the only error.
    pub fn tip(&self, alloc: Global, symbol: &[u8]) -> Result<Option<Name>, Memory>
        ensures { IfOk result (λ n. n ≡ tip self.now symbol.now) }
    {
        let tags = self.tags(alloc)?;
        self.tip_by(alloc, &tags, symbol)
    }

    /// The tip of a symbolic name, by the table of tags. `Memory` is the only error.
    pub(crate) fn tip_by(
        &self,
        alloc: Global,
        tags: &Tags,
        symbol: &[u8],
    ) -> Result<Option<Name>, Memory>
        requires { tags.now.facts ≡ tags_facts self.now }
        ensures { IfOk result (λ n. n ≡ tip self.now symbol.now) }
    {
        self.rises();
        let tag = tip::tag_of(alloc, symbol)?;
        let holders = tags.holders(alloc, tag.bytes())?;
        Ok(tip::latest(self, tags, holders.items()))
    }
}
