//! Adds the own names in the cards of an artifact behind others. Foreign ones are left out.
ghost use Rattle.std.specs.Prelude.{◌≡◌, ◌∷◌, ◌++◌, OnOk, flat_map, option_to_list};
ghost use Rattle.fsl_name.specs.Ref.{own_names};
ghost use Rattle.fsl_artifact.specs.References.{manifest_names, names_in, tag_targets};

use super::Artifact;
use fsl_forms::{Forum, Technote};
use fsl_grammar::TagCard;
use fsl_manifest::{FileCard, Manifest, Pick};
use fsl_name::{Name, Ref};
use fsl_text::Memory;

/// Adds a name at the end, if there is one.
fn append_optional(names: &mut Vec<Name>, name: Option<Name>) -> Result<(), Memory>
    ensures { OnOk result (names.new.items ≡ names.old.items ++ option_to_list name) }
{
    if let Some(name) = name {
        names.push(name)?;
    }
    Ok(())
}

/// Adds the name of a reference at the end, if there is one that isn't foreign.
fn append_ref(names: &mut Vec<Name>, reference: &Option<Ref>) -> Result<(), Memory>
    ensures { OnOk result (names.new.items ≡ names.old.items ++ own_names (option_to_list reference.now)) }
{
    match reference {
        Some(found) => append_optional(names, found.own()),
        None => Ok(()),
    }
}

/// Adds the names of references at the end. `Memory` is the only error.
pub fn append_refs(names: &mut Vec<Name>, refs: &[Ref]) -> Result<(), Memory>
    ensures { OnOk result (names.new.items ≡ names.old.items ++ own_names refs.now) }
{
    for found in refs {
        append_optional(names, found.own())?;
    }
    Ok(())
}

/// Adds the targets of tags at the end.
fn append_targets(names: &mut Vec<Name>, tags: &[TagCard]) -> Result<(), Memory>
    ensures { OnOk result (names.new.items ≡ names.old.items ++ tag_targets tags.now) }
{
    for tag in tags {
        append_ref(names, &tag.target)?;
    }
    Ok(())
}

/// Adds the contents of files at the end.
fn append_files(names: &mut Vec<Name>, files: &[FileCard]) -> Result<(), Memory>
    ensures { OnOk result (names.new.items ≡ names.old.items ++ flat_map (λ file. own_names (option_to_list file.hash)) files.now) }
{
    for file in files {
        append_ref(names, &file.hash)?;
    }
    Ok(())
}

/// Adds the check-ins that were picked or backed out at the end.
fn append_picks(names: &mut Vec<Name>, picks: &[Pick]) -> Result<(), Memory>
    ensures { OnOk result (names.new.items ≡ names.old.items ++ flat_map (λ pick. own_names (pick.target ∷ option_to_list pick.other)) picks.now) }
{
    for pick in picks {
        append_optional(names, pick.target.own())?;
        append_ref(names, &pick.other)?;
    }
    Ok(())
}

/// Adds the names in a check-in at the end.
fn append_manifest(names: &mut Vec<Name>, manifest: &Manifest) -> Result<(), Memory>
    ensures { OnOk result (names.new.items ≡ names.old.items ++ manifest_names manifest.now) }
{
    append_optional(names, manifest.baseline)?;
    append_files(names, manifest.files.items())?;
    append_refs(names, manifest.parents.items())?;
    append_picks(names, manifest.picks.items())?;
    append_targets(names, manifest.tags.items())
}

/// Adds the names in a technote at the end.
fn append_technote(names: &mut Vec<Name>, note: &Technote) -> Result<(), Memory>
    ensures { OnOk result (names.new.items ≡ names.old.items ++ (own_names note.now.parents ++ tag_targets note.now.tags)) }
{
    append_refs(names, note.parents.items())?;
    append_targets(names, note.tags.items())
}

/// Adds the names in a forum post at the end.
fn append_forum(names: &mut Vec<Name>, post: &Forum) -> Result<(), Memory>
    ensures { OnOk result (names.new.items ≡ names.old.items ++ (option_to_list post.now.root ++ option_to_list post.now.reply ++ option_to_list post.now.prior)) }
{
    append_optional(names, post.root)?;
    append_optional(names, post.reply)?;
    append_optional(names, post.prior)
}

/// Adds the names in an artifact at the end. `Memory` is the only error.
pub fn append_names(names: &mut Vec<Name>, artifact: &Artifact) -> Result<(), Memory>
    ensures { OnOk result (names.new.items ≡ names.old.items ++ names_in artifact.now) }
{
    match artifact {
        Artifact::Plain | Artifact::Ticket(_) => Ok(()),
        Artifact::Manifest(manifest) => append_manifest(names, manifest),
        Artifact::Cluster(cluster) => append_refs(names, cluster.members.items()),
        Artifact::Control(control) => append_targets(names, control.tags.items()),
        Artifact::Wiki(page) => append_refs(names, page.parents.items()),
        Artifact::Attachment(attachment) => append_ref(names, &attachment.source),
        Artifact::Technote(note) => append_technote(names, note),
        Artifact::Forum(post) => append_forum(names, post),
    }
}
