//! Facts on manifests, for proofs alone: its own names have 20 bytes each, foreign ones 32, and its checksum has 16.
ghost use Rattle.std.specs.Prelude.{◌∷◌, option_to_list};
ghost use Rattle.std.specs.List.{AllByRecursion};
ghost use Rattle.fsl_name.specs.Ref.{IsRef};
ghost use Rattle.fsl_manifest.specs.Parts.{IsChecksum};
ghost use Rattle.fsl_manifest.specs.Writing.{IsOfType};

use crate::{FileCard, Manifest, Pick};
use fsl_grammar::{know_name, know_ref, know_refs, know_tags};

impl Manifest {
    pub(crate) fn know_type(&self)
        ensures { IsOfType self.now }
    {
        know_name(&self.baseline);
        know_files(self.files.items());
        know_refs(self.parents.items());
        know_picks(self.picks.items());
        know_checksum(&self.checksum);
        know_tags(self.tags.items());
    }
}

fn know_files(files: &[FileCard])
    ensures { AllByRecursion (λ file. AllByRecursion IsRef (option_to_list file.hash)) files.now }
{
    for file in files {
        know_ref(&file.hash);
    }
}

fn know_picks(picks: &[Pick])
    ensures { AllByRecursion (λ pick. AllByRecursion IsRef (pick.target ∷ option_to_list pick.other)) picks.now }
{
    for pick in picks {
        let _ = pick.target.bytes();
        know_ref(&pick.other);
    }
}

fn know_checksum(checksum: &Option<[u8; 16]>)
    ensures { AllByRecursion IsChecksum (option_to_list checksum.now) }
{
    if let Some(bytes) = checksum {
        know_bytes(*bytes);
    }
}

fn know_bytes(bytes: [u8; 16])
    ensures { IsChecksum bytes }
{
    let _ = bytes;
}
