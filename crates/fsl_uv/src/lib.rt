//! Keeps unversioned files: files without history, of which the newest counts.
//!
//! A store is a file of records. Each Blob in it is the text of an entry: the line `uv MOMENT HASH PATH` with the path escaped
//! and `-` for the hash of a deletion, a newline, and the content. Of the entries of a path the greatest by moment, by hash as it
//! is written, and by content counts. So a store is a map from paths to versions, and the same map in whatever order its entries
//! came.
//!
//! Two stores agree by four messages. One offers its entries, and the other answers with questions and files. The first takes
//! these in, and gives the files of the questions. Then both have the merge of their maps, as far as versions of a path with one
//! moment and one hash are the same.
#![tactic(auto)]

ghost use Rattle.std.specs.Prelude.{◌≡◌};
ghost use Rattle.fsl_uv.specs.declared.UvMessageFault.TheVariants as message_fault;

mod applying;
mod cards;
mod entries;
mod exchanging;
mod fronts;
mod heads;
mod held;
mod laws;
mod messages;
mod opening;
mod store;
mod storing;
mod version;
mod words;

pub use exchanging::sync;
use fsl_date::Moment;
use fsl_name::Name;
use fsl_text::{Memory, Text};
pub use laws::{
    full_comes_first, kept_is_merged, merges_in_any_order, merges_to_the_greater,
    messages_fail_one_way, messages_read_one_way, messages_read_some_way, records_read_one_way,
    records_read_some_way, same_for_the_set, stores_talk, sync_merges, sync_merges_at,
    ties_are_same, uv_is_the_newest, uv_of_both_is_merge,
};
pub use store::Store;
pub use version::Version;
pub use words::is_path;

/// An entry of a path: its content from a moment on, or none if the file is deleted.
#[derive(Drop)]
pub struct Entry {
    pub path: Text,
    pub moment: Moment,
    pub bytes: Option<Text>,
}

/// A card of a message about unversioned files.
#[derive(Drop)]
pub enum Card {
    /// `uvigot PATH MOMENT HASH SIZE`: the sender's newest entry of the path has this moment, a content of this name and of so
    /// many bytes, or none.
    Igot {
        path: Text,
        moment: Moment,
        hash: Option<Name>,
        size: u64,
    },
    /// `uvgimme PATH`: the sender asks for the newest entry of the path.
    Gimme {
        path: Text,
    },
    /// `uvfile PATH MOMENT HASH SIZE`, with the content that follows its line, and a newline.
    File {
        entry: Entry,
    },
}

/// The result of putting an entry in.
#[derive(Clone, Copy, PartialEq, Eq, Debug)]
pub enum Put {
    /// The path has an equal or a greater entry. Nothing changed.
    Kept,
    /// The entry is the path's newest from now on.
    Stored,
}

/// Says why an entry wasn't put in. Nothing changed.
#[derive(Clone, Copy, PartialEq, Eq, Debug)]
pub enum UvFault {
    /// A commit has failed, with the disk's count of faults at this.
    Stopped { faults: u64 },
    /// The content of the entry has so many bytes, more than 16,711,680.
    TooLarge { size: u64 },
    /// With the entry all contents have so many bytes, and there are so many paths, deleted ones included; more than 67,108,864
    /// or 65,536.
    Full { bytes: u64, count: u64 },
    /// The entry doesn't fit in memory.
    Memory,
}

/// Says why a store wasn't opened.
#[derive(Clone, Copy, PartialEq, Eq, Debug)]
pub enum UvLoadFault {
    /// A call of the disk failed.
    Disk,
    /// The file is no list of records, and fails to be one at this place.
    NotRepository { at: u64 },
    /// The first artifact that is no entry has this name.
    NotEntry { name: Name },
    /// The store doesn't fit in memory.
    Memory,
}

/// Says why a message doesn't read.
#[derive(Clone, Copy, PartialEq, Eq, Debug)]
pub enum UvMessageFault {
    /// The first line, counted from 1, that is none of the three cards, or whose content is short or too large.
    Line { line: u64 },
    /// The first content that has another name than its line says.
    NameWrong { kept: Name, found: Name },
    /// The message doesn't fit in memory.
    Memory,
}

/// Says why the files of a message weren't put in. Nothing changed.
#[derive(Clone, Copy, PartialEq, Eq, Debug)]
pub enum ApplyFault {
    /// A commit has failed, with the disk's count of faults at this.
    Stopped { faults: u64 },
    /// The message doesn't read, as in [`UvMessageFault`].
    Line { line: u64 },
    /// A content has another name, as in [`UvMessageFault`].
    NameWrong { kept: Name, found: Name },
    /// With the files all contents have so many bytes, and there are so many paths, more than 67,108,864 or 65,536.
    Full { bytes: u64, count: u64 },
    /// The files don't fit in memory.
    Memory,
}

/// Says why a sync of two stores didn't go to its end.
#[derive(Clone, Copy)]
pub enum SyncFault {
    /// One of the stores would be above a limit.
    Full,
    /// A call of one of the disks failed.
    Disk,
    /// The files don't fit in memory.
    Memory,
}

impl From<Memory> for UvMessageFault {
    ghost from_gives = { λ _ fault. fault ≡ message_fault.Memory };

    fn from(_: Memory) -> Self {
        UvMessageFault::Memory
    }
}
