//! States laws on scrubbed records and their file. These functions have no code.
ghost use Rattle.fsl_scrub.specs.Closing.{MomentsStand, UnopenedStandsForNone, WholeStandsForAll, WrittenMomentsStand};
ghost use Rattle.fsl_scrub.specs.Scrubbed.{FoldsAlike, HeldHaveBlobs, HonestIsSame, LoadsAlike, ScrubbedAreRecords, WrittenAreRecords, WrittenFoldsAlike};

/// Each held artifact has its Blob among the scrubbed records.
pub fn held_have_blobs()
    ensures { HeldHaveBlobs }
{}

/// A file that isn't opened stands for no records.
pub fn unopened_file_stands_for_none()
    ensures { UnopenedStandsForNone }
{}

/// A whole new file stands for its records.
pub fn whole_file_stands_for_its_records()
    ensures { WholeStandsForAll }
{}

/// Scrubbed records leave what the records leave, receipts too.
pub fn scrubbed_records_leave_the_same()
    ensures { FoldsAlike }
{}

/// The file of scrubbed records leaves the same as the records, in every reading of it, and so the same tables.
pub fn scrubbed_file_leaves_the_same()
    ensures { LoadsAlike }
{}

/// Scrubbed records are those of a repository.
pub fn scrubbed_are_records()
    ensures { ScrubbedAreRecords }
{}

/// At each moment of a scrub each image stands for no records or for the scrubbed ones.
pub fn each_moment_stands()
    ensures { MomentsStand }
{}

/// Over a disk that tells its contents and meets the disk model records are written as they are.
pub fn honest_is_same()
    ensures { HonestIsSame }
{}

/// Whatever the disk is, records as they are written are those of a repository.
pub fn written_are_records()
    ensures { WrittenAreRecords }
{}

/// Records as they are written leave the same as the records, with contents as they were read.
pub fn written_records_leave_the_same()
    ensures { WrittenFoldsAlike }
{}

/// At each moment of a scrub each image stands for no records or for those that are written.
pub fn each_written_moment_stands()
    ensures { WrittenMomentsStand }
{}
