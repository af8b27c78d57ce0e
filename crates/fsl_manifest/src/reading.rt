//! Reads a manifest from cards.
ghost use Rattle.std.specs.Prelude.{IfOk};
ghost use Rattle.fsl_card.specs.Cards.{IsReading};
ghost use Rattle.fsl_grammar.specs.Reading.{IsRead};
ghost use Rattle.fsl_manifest.specs.Manifests.{IsManifest};
ghost use Rattle.fsl_manifest.specs.Parts.{HasFields};

use crate::Manifest;
use crate::forms::{FileForm, PickForm};
use fsl_card::{Card, Cards};
use fsl_grammar::{
    ChecksumForm, DateForm, HashForm, TagForm, TextForm, Unread, UserForm, at_most_one, each,
    has_manifest_letters, one, parents,
};
use fsl_text::Memory;
use std::alloc::Global;

impl Manifest {
    /// Reads a manifest from its cards. Returns `None` if their letters aren't those of a manifest, an argument hasn't its form,
    /// two parents are the same or the first is foreign, or a file has no hash and there is no baseline. `Memory` is the only
    /// error.
    /// FORMATS: Kinds
    pub fn read(alloc: Global, cards: &Cards) -> Result<Option<Manifest>, Memory>
        ensures { IfOk result (IsReading IsManifest cards.now) }
    {
        match read_cards(alloc, cards.items()) {
            Ok(manifest) => Ok(Some(manifest)),
            Err(Unread::Form) => Ok(None),
            Err(Unread::Memory) => Err(Memory),
        }
    }
}

fn read_cards(alloc: Global, cards: &[Card]) -> Result<Manifest, Unread>
    ensures { IsRead IsManifest cards.now result }
{
    if !has_manifest_letters(cards) {
        return Err(Unread::Form);
    }
    let manifest = read_fields(alloc, cards)?;
    if manifest.is_whole() {
        Ok(manifest)
    } else {
        Err(Unread::Form)
    }
}

/// Reads the fields of a manifest from its cards.
fn read_fields(alloc: Global, cards: &[Card]) -> Result<Manifest, Unread>
    ensures { IsRead HasFields cards.now result }
{
    let baseline = at_most_one::<HashForm>(alloc, cards, b'B')?;
    let comment = one::<TextForm>(alloc, cards, b'C')?;
    let date = one::<DateForm>(alloc, cards, b'D')?;
    let files = each::<FileForm>(alloc, cards, b'F')?;
    let mime = at_most_one::<TextForm>(alloc, cards, b'N')?;
    let parents = parents(alloc, cards)?;
    let picks = each::<PickForm>(alloc, cards, b'Q')?;
    let checksum = at_most_one::<ChecksumForm>(alloc, cards, b'R')?;
    let tags = each::<TagForm>(alloc, cards, b'T')?;
    let user = one::<UserForm>(alloc, cards, b'U')?;
    Ok(Manifest {
        baseline,
        comment,
        date,
        files,
        mime,
        parents,
        picks,
        checksum,
        tags,
        user,
    })
}
