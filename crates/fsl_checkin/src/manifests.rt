//! Writes the manifest of a tree.
ghost use Rattle.std.specs.Prelude.{◌≡◌, ◌≢◌, ℕ, List, [], IfOk, IsTrue, map, option_to_list};
ghost use Rattle.std.specs.List.{list_all};
ghost use Rattle.fsl_name.specs.declared.reference.Ref.TheVariants.{Own};
ghost use Rattle.fsl_order.specs.Rows.{rises};
ghost use Rattle.fsl_text.specs.Paths.{path_ok};
ghost use Rattle.fsl_card.specs.Cards.{IsTextOf};
ghost use Rattle.fsl_manifest.specs.Manifests.{IsManifest};
ghost use Rattle.fsl_manifest.specs.Writing.{IsManifestText};
ghost use Rattle.fsl_checkin.specs.Checkins.{checkin_of};
ghost use Rattle.fsl_checkin.specs.Trees.{paths};

use crate::TreeItem;
use crate::cards::file_cards;
use crate::sums::sum;
use fsl_date::Moment;
use fsl_manifest::Manifest;
use fsl_name::{Name, Ref};
use fsl_text::{List, Memory, Text};
use std::alloc::Global;

/// The parents of a check-in with one parent, or none.
fn parents(alloc: Global, parent: Option<Name>) -> Result<List<Ref>, Memory>
    ensures { IfOk result (λ names. names ≡ map Own (option_to_list parent)) }
{
    let mut names = List::new(alloc);
    if let Some(name) = parent {
        names.append(Ref::Own(name))?;
    }
    Ok(names)
}

/// The check-in of a tree.
fn checkin(
    alloc: Global,
    items: &[TreeItem],
    parent: Option<Name>,
    user: &[u8],
    comment: &[u8],
    moment: Moment,
) -> Result<Manifest, Memory>
    requires { IsTrue (rises (paths items.now)) }
    ensures { IfOk result (λ m. m ≡ checkin_of items.now parent user.now comment.now moment) }
{
    let checksum = sum(items);
    let files = file_cards(alloc, items)?;
    Ok(Manifest {
        baseline: None,
        comment: Text::of(alloc, comment)?,
        date: moment,
        files: List::from_vec(files),
        mime: None,
        parents: parents(alloc, parent)?,
        picks: List::new(alloc),
        checksum: Some(checksum),
        tags: List::new(alloc),
        user: Text::of(alloc, user)?,
    })
}

/// Writes the text of the check-in of a tree. It has a comment, a date, an F card for each item, a parent where there is one, the
/// checksum of the tree in an R card, a user, and the Z card. User and comment have at least one byte. The paths are good and
/// rise. `Memory` is the only error.
/// FORMATS: Trees
pub fn manifest(
    alloc: Global,
    items: &List<TreeItem>,
    parent: Option<Name>,
    user: &[u8],
    comment: &[u8],
    moment: Moment,
) -> Result<Text, Memory>
    requires user { user.now ≢ [] }
    requires comment { comment.now ≢ [] }
    requires good { IsTrue (list_all path_ok (paths items.now)) }
    requires rising { IsTrue (rises (paths items.now)) }
    ensures written { IfOk result (λ text. IsManifestText text (checkin_of items.now parent user.now comment.now moment)) }
    ensures read { IfOk result (λ text. IsTextOf IsManifest text (checkin_of items.now parent user.now comment.now moment)) }
{
    let checkin = checkin(alloc, items.items(), parent, user, comment, moment)?;
    checkin.write(alloc)
}
