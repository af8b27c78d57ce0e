//! Holds the version of a path, and compares two.
ghost use Rattle.std.specs.Prelude.{◌≡◌, length};
ghost use Rattle.std.specs.Option.{option_map};
ghost use Rattle.fsl_order.specs.Names.{bytes_cmp, dated_cmp};
ghost use Rattle.fsl_name.specs.Name.{name_of};
ghost use Rattle.fsl_uv.specs.Entries.{content};
ghost use Rattle.fsl_uv.specs.Cards.{hashed};
ghost use Rattle.fsl_uv.specs.Maps.{stamp_of, version_cmp};
ghost use Rattle.fsl_uv.specs.Words.{IsHash};

use crate::entries::hash_of;
use fsl_date::Moment;
use fsl_name::Name;
use fsl_text::Text;
use std::cmp::Ordering;
use std::marker::Model;

/// The version of a path: a moment, and a content beside its name, or none if the file is deleted. Contracts see the moment and
/// the content.
#[derive(Drop)]
pub struct Version {
    moment: Moment,
    hash: Option<Name>,
    bytes: Option<Text>,
}

impl Model for Version {
    ghost use Rattle.std.specs.Prelude.{◌≡◌};
    ghost use Rattle.std.specs.Option.{option_map};
    ghost use Rattle.fsl_name.specs.Name.{name_of};
    ghost use Rattle.fsl_uv.specs.Entries as entries;

    ghost Value = { entries.Version };

    ghost view = { λ v. record { moment = v.moment; bytes = v.bytes } };

    ghost invariant = { λ v. v.hash ≡ option_map name_of v.bytes };
}

/// Returns the bytes of a content, none of a deleted file.
pub(crate) fn bytes_of(bytes: &Option<Text>) -> &[u8]
    ensures { result.now ≡ content bytes.now }
{
    match bytes {
        Some(held) => held.bytes(),
        None => &[],
    }
}

/// Compares two hashes as they are written. A missing one is written `-`, which comes before each digit.
pub(crate) fn hash_order(one: &Option<Name>, other: &Option<Name>) -> Ordering
    ensures { result ≡ bytes_cmp (hashed one.now) (hashed other.now) }
{
    match (one, other) {
        (None, None) => Ordering::Equal,
        (None, Some(name)) => {
            let _ = name.bytes();
            Ordering::Less
        }
        (Some(name), None) => {
            let _ = name.bytes();
            Ordering::Greater
        }
        (Some(one), Some(other)) => one.text().as_slice().cmp(&other.text().as_slice()),
    }
}

impl Version {
    /// Makes a content, or none, from a moment on.
    pub(crate) fn of(moment: Moment, bytes: Option<Text>) -> Version
        ensures { result ≡ record { moment = moment; bytes = bytes } }
    {
        let hash = hash_of(&bytes);
        Version {
            moment,
            hash,
            bytes,
        }
    }

    /// Returns its moment.
    pub fn moment(&self) -> Moment
        ensures { result ≡ self.now.moment }
    {
        self.moment
    }

    /// Returns the name of its content, or none.
    pub fn hash(&self) -> &Option<Name>
        ensures { result.now ≡ option_map name_of self.now.bytes }
    {
        &self.hash
    }

    /// Returns its content, or none.
    pub fn held(&self) -> &Option<Text>
        ensures { result.now ≡ self.now.bytes }
    {
        &self.bytes
    }

    /// Returns the bytes of its content, none of a deleted file.
    pub fn bytes(&self) -> &[u8]
        ensures { result.now ≡ content self.now.bytes }
    {
        bytes_of(&self.bytes)
    }

    /// Compares its moment and its hash to others.
    pub(crate) fn order_to(&self, moment: Moment, hash: &Option<Name>) -> Ordering
        ensures { result ≡ dated_cmp (stamp_of self.now) (moment, hashed hash.now) }
    {
        self.moment.cmp(&moment).then(hash_order(&self.hash, hash))
    }

    /// Compares it to a content, or none, of this hash from a moment on: by moment, by the hash as it is written, and by the
    /// content.
    pub(crate) fn order_with(
        &self,
        moment: Moment,
        hash: &Option<Name>,
        bytes: &Option<Text>,
    ) -> Ordering
        requires { hash.now ≡ option_map name_of bytes.now }
        ensures { result ≡ version_cmp self.now (record { moment = moment; bytes = bytes.now }) }
    {
        let stamps = self.order_to(moment, hash);
        if stamps.is_eq() {
            self.bytes().cmp(&bytes_of(bytes))
        } else {
            stamps
        }
    }
}
