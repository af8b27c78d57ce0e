//! Writes the text of a manifest.
ghost use Rattle.std.specs.Prelude.{◌≡◌, ◌++◌, ◌∷◌, IfOk, IsTrue, OnOk, flat_map, map};
ghost use Rattle.fsl_card.specs.Cards.{IsTextOf, card_text, text_of};
ghost use Rattle.fsl_date.specs.Moment.{IsMoment};
ghost use Rattle.fsl_grammar.specs.Writing.{card_if};
ghost use Rattle.fsl_manifest.specs.Manifests.{IsManifest, is_well_formed};
ghost use Rattle.fsl_manifest.specs.Writing.{IsManifestText, file_card, manifest_cards, perm_arguments, pick_card};
ghost use Rattle.fsl_name.specs.Ref.{ref_text};
ghost use Rattle.hex.specs.Hex.{encode_lower};

use crate::{FileCard, Manifest, Perm, Pick};
use fsl_card::finish;
use fsl_grammar::{
    begin_card, end_card, write_argument, write_card, write_optional_name_card, write_optional_ref,
    write_optional_text, write_optional_text_card, write_parents, write_tags, write_text,
    write_text_card,
};
use fsl_name::Ref;
use fsl_text::{Memory, Text};
use std::alloc::Global;

impl Manifest {
    /// Writes the text of the manifest, its Z card included. It reads back as the manifest. `Memory` is the only error.
    /// FORMATS: Kinds
    pub fn write(&self, alloc: Global) -> Result<Text, Memory>
        requires { IsTrue (is_well_formed self.now) }
        ensures written { IfOk result (λ text. IsManifestText text self.now) }
        ensures read { IfOk result (λ text. IsTextOf IsManifest text self.now) }
    {
        self.know_type();
        let mut lines = Text::empty(alloc);
        self.write_cards(&mut lines)?;
        finish(&mut lines)?;
        Ok(lines)
    }

    /// Writes all cards but the Z card at the end of a text.
    fn write_cards(&self, into: &mut Text) -> Result<(), Memory>
        ensures { OnOk result (IsMoment self.now.date × (into.new ≡ into.old ++ text_of (manifest_cards self.now))) }
    {
        write_optional_name_card(into, b'B', &self.baseline)?;
        write_text_card(into, b'C', self.comment.bytes())?;
        write_card(into, b'D', &self.date.text())?;
        write_files(into, self.files.items())?;
        write_optional_text_card(into, b'N', &self.mime)?;
        write_parents(into, self.parents.items())?;
        write_picks(into, self.picks.items())?;
        write_checksum(into, &self.checksum)?;
        write_tags(into, self.tags.items())?;
        write_text_card(into, b'U', self.user.bytes())
    }
}

fn write_files(into: &mut Text, files: &[FileCard]) -> Result<(), Memory>
    ensures { OnOk result (into.new ≡ into.old ++ text_of (map file_card files.now)) }
{
    for file in files {
        write_file(into, file)?;
    }
    Ok(())
}

fn write_file(into: &mut Text, file: &FileCard) -> Result<(), Memory>
    ensures { OnOk result (into.new ≡ into.old ++ card_text (file_card file.now)) }
{
    begin_card(into, b'F')?;
    write_text(into, file.path.bytes())?;
    write_optional_ref(into, &file.hash)?;
    write_perm(into, file.perm, &file.former)?;
    end_card(into)
}

/// Writes a permission that isn't plain, and the former path behind it, if there is one.
fn write_perm(into: &mut Text, perm: Perm, former: &Option<Text>) -> Result<(), Memory>
    ensures { OnOk result (into.new ≡ into.old ++ flat_map (λ arg. 32 ∷ arg) (perm_arguments perm former.now)) }
{
    match perm {
        Perm::Plain => return Ok(()),
        Perm::Exec => write_argument(into, b"x")?,
        Perm::Symlink => write_argument(into, b"l")?,
        Perm::Writable => write_argument(into, b"w")?,
    }
    write_optional_text(into, former)
}

fn write_picks(into: &mut Text, picks: &[Pick]) -> Result<(), Memory>
    ensures { OnOk result (into.new ≡ into.old ++ text_of (map pick_card picks.now)) }
{
    for pick in picks {
        write_pick(into, pick)?;
    }
    Ok(())
}

fn write_pick(into: &mut Text, pick: &Pick) -> Result<(), Memory>
    ensures { OnOk result (into.new ≡ into.old ++ card_text (pick_card pick.now)) }
{
    begin_card(into, b'Q')?;
    write_signed_ref(into, if pick.back { b'-' } else { b'+' }, &pick.target)?;
    write_optional_ref(into, &pick.other)?;
    end_card(into)
}

/// Writes a sign and a reference behind it as one argument.
fn write_signed_ref(into: &mut Text, sign: u8, target: &Ref) -> Result<(), Memory>
    ensures { OnOk result (into.new ≡ into.old ++ 32 ∷ sign ∷ ref_text target.now) }
{
    let mut digits = [0u8; 64];
    let count = target.write(&mut digits) as usize;
    into.append(&[b' ', sign])?;
    into.append(&digits[..count])
}

fn write_checksum(into: &mut Text, checksum: &Option<[u8; 16]>) -> Result<(), Memory>
    ensures { OnOk result (into.new ≡ into.old ++ text_of (card_if 82 encode_lower checksum.now)) }
{
    match checksum {
        Some(checksum) => write_card(into, b'R', &digits_of(checksum)),
        None => Ok(()),
    }
}

/// Returns the 32 digits of 16 bytes, in lower case.
fn digits_of(bytes: &[u8; 16]) -> [u8; 32]
    ensures { result ≡ encode_lower bytes.now }
{
    let mut digits = [0u8; 32];
    let _ = hex::encode_to_slice(bytes, &mut digits);
    digits
}
