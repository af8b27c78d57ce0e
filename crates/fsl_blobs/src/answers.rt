//! Answers questions on the held artifacts.
ghost use Rattle.std.specs.Prelude.{◌≡◌, nat_eq, Some, None, IfOk, IfSome, OnOk, map};
ghost use Rattle.std.specs.List.{AllByRecursion, IsDistinct};
ghost use Rattle.std.specs.Option.{option_map, option_copied};
ghost use Rattle.std.specs.FinMap as map_of;
ghost use Rattle.fsl_blobs.specs.Fold.{contents, held_from, held_as_from};
ghost use Rattle.fsl_blobs.specs.Held.{state_of, matching, found};
ghost use Rattle.fsl_blobs.specs.Seen.{ListsAllHeld, IsHolding, held_as, public_front};

use crate::listing::{front_from, holdings, is_map, names_over, only_match, placed_from};
use crate::{BlobState, Blobs, Found, Holding, Placed};
use fsl_name::Name;
use fsl_record::{Config, Receipt};
use fsl_text::{List, Memory};
use std::alloc::Global;

impl Blobs {
    /// Returns the codes of the repository, and its configured ticket fields. A second Config changes nothing.
    pub fn config(&self) -> &Config
        ensures { (contents self.now.records).config ≡ Some result.now }
    {
        &self.config
    }

    /// Returns the state of a name: held and public, held and private, shunned, or none of these. Takes no memory.
    pub fn state(&self, name: Name) -> BlobState
        ensures { result ≡ state_of (contents self.now.records) name }
    {
        match self.held.get(&name) {
            Some(artifact) => {
                let size = artifact.size;
                if artifact.private {
                    BlobState::Private { size }
                } else {
                    BlobState::Public { size }
                }
            }
            None if self.shunned.contains(&name) => BlobState::Shunned,
            None => BlobState::Absent,
        }
    }

    /// Returns who brought a held artifact, and when. Returns `None` if that wasn't recorded, or the name isn't held. Takes no
    /// memory.
    pub fn receipt(&self, name: Name) -> Option<&Receipt>
        ensures { option_copied result ≡ map_of.get (contents self.now.records).receipts name }
    {
        match self.held.get(&name) {
            Some(artifact) => artifact.receipt.as_ref(),
            None => None,
        }
    }

    /// Finds the held name that begins with these digits. The prefix may be any bytes, and an empty one begins each name. Takes
    /// no memory.
    pub fn find(&self, prefix: &[u8]) -> Found
        ensures { result ≡ found (matching (contents self.now.records).held prefix.now) }
    {
        only_match(&self.held, prefix)
    }

    /// Returns the held names whose place is at least `from`, by place. A place is that of the record that added the artifact,
    /// counted from 1. `Memory` is the only error.
    pub fn held(&self, alloc: Global, from: u64) -> Result<List<Placed>, Memory>
        ensures names { IfOk result (λ names. map (λ p. (p.place, p.name)) names ≡ held_from self.now.records from) }
        // From 0 on each held name is among them.
        ensures all { OnOk result (from ≡ 0 → ListsAllHeld self.now.records) }
    {
        is_map(&self.held);
        let mut names = placed_from(alloc, &self.order.public, from)?;
        let private = placed_from(alloc, &self.order.private, from)?;
        names.extend_from_slice(&private)?;
        names.sort_unstable_by_key(|placed| placed.place);
        Ok(List::from_vec(names))
    }

    /// Returns the names of the artifacts that are held as private ones, or as public ones, by place. The others aren't walked.
    /// `Memory` is the only error.
    pub fn names_by_place(&self, alloc: Global, private: bool) -> Result<List<Name>, Memory>
        ensures { IfOk result (λ names. names ≡ map (λ p. p.1) (held_as_from private self.now.records 0)) }
    {
        is_map(&self.held);
        if private {
            let hidden = names_over(alloc, &self.order.private)?;
            return Ok(List::from_vec(hidden));
        }
        let names = names_over(alloc, &self.order.public)?;
        Ok(List::from_vec(names))
    }

    /// Returns the first public names whose place is at least `from`, by place. It takes each name before which the sizes of the
    /// artifacts in bytes, and so much for each, don't reach a sum, and one more. No others are walked, so that a round of a
    /// clone costs only the files that it sends. `Memory` is the only error.
    pub fn public_front(
        &self,
        alloc: Global,
        from: u64,
        most: u64,
        each: u64,
    ) -> Result<List<Placed>, Memory>
        ensures { IfOk result (λ names. map (λ p. (p.place, p.name)) names ≡ public_front self.now.records from most each) }
    {
        is_map(&self.held);
        let names = front_from(alloc, &self.held, &self.order.public, from, most, each)?;
        Ok(List::from_vec(names))
    }

    /// Describes a held artifact, public or private. Returns `None` if the name isn't held. Takes no memory.
    pub fn holding(&self, name: Name) -> Option<Holding<'_>>
        ensures held { option_map held_as result ≡ option_map (λ a. (name, a)) (map_of.get (contents self.now.records).held name) }
        ensures from { IfSome result (IsHolding self.now.records) }
    {
        match self.held.get(&name) {
            Some(artifact) => Some(Holding {
                name,
                private: artifact.private,
                place: artifact.place,
                size: artifact.size,
                bytes: &artifact.bytes,
            }),
            None => None,
        }
    }

    /// Describes the held artifacts, public and private, by rising name. `Memory` is the only error.
    pub fn holdings<'a>(&'a self, alloc: Global) -> Result<Vec<Holding<'a>>, Memory>
        ensures held { IfOk result (λ list. map held_as list.items ≡ map_of.entries (contents self.now.records).held) }
        ensures from { IfOk result (λ list. AllByRecursion (IsHolding self.now.records) list.items) }
        // No two stand at one place.
        ensures apart { IfOk result (λ list. IsDistinct nat_eq (map (λ h. h.place) list.items)) }
    {
        is_map(&self.held);
        holdings(alloc, &self.held)
    }
}
