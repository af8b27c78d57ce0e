//! Writes a cluster.
ghost use Rattle.std.specs.Prelude.{◌≡◌, ◌++◌, ◌∷◌, [], codes, IfOk, OnOk};
ghost use Rattle.hex.specs.Hex.{encode_lower};
ghost use Rattle.md5.specs.Md5.{md5};
ghost use Rattle.fsl_name.specs.Name.{name_text};
ghost use Rattle.fsl_cluster.specs.Clusters.{AreMembers, member_cards, cluster_text};

use fsl_name::Name;
use fsl_text::{Memory, Text};
use md5::{Digest, Md5};
use std::alloc::Global;

/// The MD5 of some bytes, in 32 lower-case digits.
fn checksum(bytes: &[u8]) -> [u8; 32]
    ensures { result ≡ encode_lower (md5 bytes.now) }
{
    let digest = Md5::digest(bytes);
    let mut digits = [0u8; 32];
    let _ = hex::encode_to_slice(&digest, &mut digits);
    digits
}

/// Puts the M card of a name at the end.
fn add_member(into: &mut Text, name: &Name) -> Result<(), Memory>
    ensures { OnOk result (into.new ≡ into.old ++ codes "M " ++ name_text name.now ++ 10 ∷ []) }
{
    into.append(b"M ")?;
    into.append(&name.text())?;
    into.append(b"\n")
}

/// The M cards of some names, in their order.
fn members(alloc: Global, names: &[Name]) -> Result<Text, Memory>
    ensures { IfOk result (λ text. text ≡ member_cards names.now) }
{
    let mut text = Text::empty(alloc);
    for name in names {
        add_member(&mut text, name)?;
    }
    Ok(text)
}

/// Writes the cluster of these names. There are 1 to 4,096 of them, rising. Its bytes are their M cards, and the Z card with the
/// MD5 of the bytes before it. `Memory` is the only error.
/// FORMATS: Kinds
pub fn make_cluster(alloc: Global, names: &[Name]) -> Result<Text, Memory>
    requires { AreMembers names.now }
    ensures { IfOk result (λ text. text ≡ cluster_text names.now) }
{
    let mut text = members(alloc, names)?;
    let digits = checksum(text.bytes());
    text.append(b"Z ")?;
    text.append(&digits)?;
    text.append(b"\n")?;
    Ok(text)
}
