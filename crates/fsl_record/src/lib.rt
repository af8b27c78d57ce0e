//! Reads and writes the records of the repository file. Written records read back. Bytes of a group either read as one list of
//! records, or have the one fault of the first record that doesn't read. Config is the first record of the first group and occurs
//! nowhere else. The file has two versions: a Blob with a receipt and an Unshun occur in version 2 alone.
#![tactic(auto)]

mod configs;
mod faults;
mod fields;
mod groups;
mod laws;
mod pieces;
mod reading;
mod receipts;
mod writing;

pub use fields::are_fields;
use fsl_name::Name;
use fsl_text::{List, Text};
pub use groups::group;
pub use laws::{has_no_fault, has_one_fault, is_one_group, written_reads_back};
pub use receipts::Receipt;
pub use writing::{write, write_config};

/// The codes of a repository, and its configured ticket fields. A Config is written only if its fields have their form: at most
/// 256, each of 1 to 64 bytes of `a` to `z`, digits and `_` that begin with a letter, and all different.
#[derive(Drop)]
pub struct Config {
    pub project: Name,
    pub server: Name,
    pub fields: List<Text>,
}

/// Says why bytes aren't the records of a group, by the first record that doesn't read. If that record has several faults, this
/// is the one that comes first in its bytes.
#[derive(Clone, Copy, PartialEq, Eq, Debug)]
pub enum RecordFault {
    /// A record runs past its group, or the group has no byte.
    Short,
    /// This byte begins no record that may occur here, or it is neither the 0 nor the 1 that says whether a blob is private.
    Kind { found: u8 },
    /// A blob has so many bytes, more than 2^24; or its receipt has this moment, behind the year 9999, or a login of so
    /// many bytes, more than 2^20; or a Config has so many fields, more than 256; or a field of so many bytes is no
    /// field's name, or is there already.
    Length { found: u64 },
    /// The blob is kept under the first of these names, and its bytes have the second.
    NameWrong { kept: Name, found: Name },
    /// The records don't fit in memory.
    Memory,
}

/// A record of the repository file. Its bytes are a letter and its parts. Numbers are written with the greatest byte first.
/// FORMATS: The repository file
#[derive(Drop)]
pub enum Record {
    /// `C`, the two codes, the number of fields in 2 bytes, and each field behind its length in 1 byte.
    Config(Config),
    /// An artifact: `B`, a byte 0 or 1, its name, the number of its bytes in 8 bytes, and its bytes, at most 2^24. A
    /// private artifact isn't given to others. One with a receipt has the letter `R`, and behind its name the moment in 8
    /// bytes, as its milliseconds since the year 0 began, the number of the login's bytes in 4 bytes, and the login.
    Blob {
        private: bool,
        name: Name,
        receipt: Option<Receipt>,
        bytes: Text,
    },
    /// `P` and a name: the private artifact with this name becomes public.
    Publish {
        name: Name,
    },
    /// `S` and a name: the artifact with this name is removed, and isn't taken again.
    Shun {
        name: Name,
    },
    /// `U` and a name: the artifact with this name may be taken again.
    Unshun {
        name: Name,
    },
}
