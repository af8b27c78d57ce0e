//! Reads messages of files.
ghost use Rattle.std.specs.Prelude.{◌≡◌, ◌++◌, ◌∷◌, List as Items, false, position, IfOk, IfErr};
ghost use Rattle.fsl_wire.specs.declared.WireCard.{WireCard as Card};
ghost use Rattle.fsl_wire.specs.Drafts.{IsBareMessage};
ghost use Rattle.fossil.specs.declared.reading.message.MessageFault.TheVariants as fault_is;
ghost use Rattle.fossil.specs.Messages.{is_other, files_of, unread_as, IsFileList, IsFaultOf};

use fsl_name::Name;
use fsl_text::{List, Memory, Text};
use fsl_wire::{WireCard, WireFault, line_of, read_bare};
use std::alloc::Global;

/// A file as it was sent, under a name that may be wrong.
#[derive(Drop)]
pub struct MessageFile {
    pub name: Name,
    pub bytes: Text,
    pub private: bool,
}

/// The reasons why a message isn't one of files.
#[derive(Clone, Copy, Debug, PartialEq, Eq)]
pub enum MessageFault {
    /// This line, counted from 1, is the first that doesn't read.
    BadLine { line: u64 },
    /// Each line reads, and this one has the first card that isn't one of files.
    NotFile { line: u64 },
    /// The program is out of memory.
    Memory,
}

impl From<Memory> for MessageFault {
    ghost from_gives = { λ _ fault. fault ≡ fault_is.Memory };

    fn from(_: Memory) -> Self {
        MessageFault::Memory
    }
}

/// Why a message that doesn't read isn't one of files.
fn unread(fault: WireFault) -> MessageFault
    ensures { result ≡ unread_as fault }
{
    match fault {
        WireFault::Unknown { line }
        | WireFault::Args { line }
        | WireFault::Delta { line }
        | WireFault::Size { line }
        | WireFault::Short { line } => MessageFault::BadLine { line },
        WireFault::Memory => MessageFault::Memory,
    }
}

/// Whether a card is none of files.
fn is_other(card: &WireCard) -> bool
    ensures { result ≡ is_other card.now }
{
    !matches!(
        card,
        WireCard::File { .. } | WireCard::Private | WireCard::SendPrivate
    )
}

/// The place of the first card that is none of files.
fn first_other(cards: &[WireCard]) -> Option<usize>
    ensures { result ≡ position is_other cards.now }
{
    cards.iter().position(|card| is_other(card))
}

/// Puts the file of a card at the end, where it has one, and tells whether the next file is marked as private.
fn add_file(files: &mut List<MessageFile>, marked: bool, card: WireCard) -> Result<bool, Memory>
    ensures { IfOk result (λ next. (rest : Items Card) → files.new ++ files_of next rest ≡ files.old ++ files_of marked (card ∷ rest)) }
{
    match card {
        WireCard::File { name, bytes } => {
            let file = MessageFile {
                name,
                bytes,
                private: marked,
            };
            files.append(file)?;
            Ok(false)
        }
        WireCard::Private => Ok(true),
        _ => Ok(marked),
    }
}

/// The files of cards, whose contents are moved.
fn files_in(alloc: Global, cards: List<WireCard>) -> Result<List<MessageFile>, Memory>
    ensures { IfOk result (λ files. files ≡ files_of false cards) }
{
    let mut files = List::new(alloc);
    let mut marked = false;
    for card in cards.into_vec() {
        marked = add_file(&mut files, marked, card)?;
    }
    Ok(files)
}

/// The files of a message's cards, or its first card that is none of files.
fn files_among(
    alloc: Global,
    message: &[u8],
    cards: List<WireCard>,
) -> Result<List<MessageFile>, MessageFault>
    requires { IsBareMessage message.now cards }
    ensures files { IfOk result (IsFileList message.now) }
    ensures fault { IfErr result (IsFaultOf message.now) }
{
    match first_other(cards.items()) {
        Some(place) => Err(MessageFault::NotFile {
            line: line_of(message, place as u64),
        }),
        None => Ok(files_in(alloc, cards)?),
    }
}

/// Reads the files of a message, which is let go: their contents are copied out of it once.
///
/// Errors: the first line that doesn't read, else the first card that isn't one of files; `Memory` where the program is
/// out of memory.
///
/// FORMATS: Messages of files
pub fn read_files(alloc: Global, message: Text) -> Result<List<MessageFile>, MessageFault>
    ensures files { IfOk result (IsFileList message) }
    ensures fault { IfErr result (IsFaultOf message) }
{
    match read_bare(alloc, message.bytes()) {
        Ok(cards) => files_among(alloc, message.bytes(), cards.into_cards()),
        Err(fault) => Err(unread(fault)),
    }
}
