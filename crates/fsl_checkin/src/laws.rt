//! States laws on trees and their check-ins. These functions have no code.
ghost use Rattle.fsl_checkin.specs.Laws.{BadIsNoTree, BadIsOne, ExportIsDue, ExportIsOne, HadIsAnswered, HasExport, HasVerdict, IsOneTree, IsSomeTree, TreesComeBack, VerdictIsDue, VerdictIsOne, WrittenReadsBack};

/// A text is one tree at most.
pub fn text_is_one_tree()
    ensures { IsOneTree }
{}

/// A tree whose paths are good and rise reads back from the text that `tree_text` writes.
pub fn written_tree_reads_back()
    ensures { WrittenReadsBack }
{}

/// A tree that was checked in comes back. Where a repository holds its contents and the text of its check-in, the tree of that
/// check-in is this one, and its checksum is right.
pub fn trees_come_back()
    ensures { TreesComeBack }
{}

/// A text with a bad item is no tree.
pub fn bad_text_is_no_tree()
    ensures { BadIsNoTree }
{}

/// A text has one number of a first bad item at most.
pub fn bad_item_is_one()
    ensures { BadIsOne }
{}

/// The held artifacts and the name decide the answer of an export.
pub fn export_has_one_answer()
    ensures { ExportIsOne }
{}

/// The held artifacts and the name decide the answer of a test of a checksum.
pub fn verify_has_one_answer()
    ensures { VerdictIsOne }
{}

/// An export reads the held contents over an honest disk, which tells its contents and meets the disk model.
pub fn export_reads_what_is_held()
    ensures { ExportIsDue }
{}

/// A test of a checksum reads the held contents over an honest disk.
pub fn verify_reads_what_is_held()
    ensures { VerdictIsDue }
{}

/// A text is a tree, or has a first item that is none.
pub fn text_is_tree_or_not()
    ensures { IsSomeTree }
{}

/// An export has an answer, whatever the disk.
pub fn export_has_an_answer()
    ensures { HasExport }
{}

/// A test of a checksum has an answer, whatever the disk.
pub fn verify_has_an_answer()
    ensures { HasVerdict }
{}

/// An export of a tree that comes back answers this tree alone, and a test of its checksum answers that it is right.
pub fn tree_that_comes_back_is_answered()
    ensures { HadIsAnswered }
{}
