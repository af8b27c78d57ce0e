//! Makes the F cards of a tree.
ghost use Rattle.std.specs.Prelude.{◌≡◌, ◌++◌, IfOk, OnOk, map};
ghost use Rattle.fsl_checkin.specs.Checkins.{card_perm_of, file_card_of};

use crate::{Perm, TreeItem};
use fsl_manifest as manifests;
use fsl_manifest::FileCard;
use fsl_name::{Name, Ref};
use fsl_text::{Memory, Text};
use std::alloc::Global;

/// A permission as a card has it.
fn card_perm(perm: Perm) -> manifests::Perm
    ensures { result ≡ card_perm_of perm }
{
    match perm {
        Perm::Plain => manifests::Perm::Plain,
        Perm::Exec => manifests::Perm::Exec,
        Perm::Symlink => manifests::Perm::Symlink,
    }
}

/// The F card of an item.
fn file_card(alloc: Global, item: &TreeItem) -> Result<FileCard, Memory>
    ensures { IfOk result (λ file. file ≡ file_card_of item.now) }
{
    Ok(FileCard {
        path: Text::of(alloc, item.path.bytes())?,
        hash: Some(Ref::Own(Name::of(item.bytes.bytes()))),
        perm: card_perm(item.perm),
        former: None,
    })
}

/// The F cards of some items.
pub(crate) fn file_cards(alloc: Global, items: &[TreeItem]) -> Result<Vec<FileCard>, Memory>
    ensures { IfOk result (λ files. files.items ≡ map file_card_of items.now) }
{
    let mut files = Vec::new(alloc);
    for item in items {
        files.push(file_card(alloc, item)?)?;
    }
    Ok(files)
}
