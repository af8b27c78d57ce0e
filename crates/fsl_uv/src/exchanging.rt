//! Syncs two stores. Each takes in what it lacks of the other, in one commit of its own, the one here first.
ghost use Rattle.std.specs.Prelude.{◌≡◌, List, IfOk};
ghost use Rattle.fsl_uv.specs.declared.Card as card_type;
ghost use Rattle.fsl_uv.specs.Cards.{message_text, IsMessage};
ghost use Rattle.fsl_uv.specs.Syncing.{given, peer_answer};
ghost use Rattle.fsl_uv.specs.Stores.{IsSettled};
ghost use Rattle.fsl_uv.specs.Exchanging.{Takes, Syncs};

use crate::{ApplyFault, Store, SyncFault};
use fsl_disk::Disk;
use fsl_text::{Memory, Text};

/// Returns the answer of a store to the offer of the one here.
fn answered<D: Disk, P: Disk>(here: &Store<D>, there: &Store<P>) -> Result<Text, Memory>
    ensures { IfOk result (λ text. text ≡ message_text (peer_answer here.now.seen.map there.now.seen.map)) }
{
    here.is_store();
    let offer = here.offer()?;
    let answer = there.answer(offer.bytes());
    drop(offer);
    match answer {
        Ok(answer) => Ok(answer),
        // An offer is a message, so memory ran out.
        Err(_) => Err(Memory),
    }
}

/// Returns the files that a store gives for an answer.
fn given_for<D: Disk>(here: &Store<D>, answer: &[u8]) -> Result<Text, Memory>
    ensures { IfOk result (λ text. (cards : List card_type.Card) → IsMessage answer.now cards → text ≡ message_text (given here.now.seen.map cards)) }
{
    match here.give(answer) {
        Ok(files) => Ok(files),
        // An answer is a message, so memory ran out.
        Err(_) => Err(Memory),
    }
}

/// Takes the files of a message in, and commits them.
fn take<D: Disk>(store: &mut Store<D>, message: &[u8]) -> Result<u64, SyncFault>
    requires settled { IsSettled store.old.seen.log }
    requires reads { (cards : List card_type.Card) × IsMessage message.now cards }
    ensures { (cards : List card_type.Card) → IsMessage message.now cards → Takes D.state store.old cards result store.new }
{
    match store.apply(message) {
        Ok(count) => match store.commit() {
            Ok(_) => Ok(count),
            Err(_) => Err(SyncFault::Disk),
        },
        Err(ApplyFault::Full { .. }) => Err(SyncFault::Full),
        // The store runs, and what it gets is a message, so memory ran out.
        Err(_) => Err(SyncFault::Memory),
    }
}

/// Gives a store the files that it asked for in its answer.
fn hand_on<D: Disk, P: Disk>(
    here: &Store<D>,
    there: &mut Store<P>,
    answer: &[u8],
) -> Result<u64, SyncFault>
    requires settled { IsSettled there.old.seen.log }
    requires reads { (cards : List card_type.Card) × IsMessage answer.now cards }
    ensures { (cards : List card_type.Card) → IsMessage answer.now cards → Takes P.state there.old (given here.now.seen.map cards) result there.new }
{
    here.is_store();
    match given_for(here, answer) {
        Ok(files) => {
            let sent = take(there, files.bytes());
            drop(files);
            sent
        }
        Err(_) => Err(SyncFault::Memory),
    }
}

/// Syncs two stores, of which all is committed. The one here takes in the entries that it lacks of the other, and commits them.
/// Then the other does the same. Returns how many entries each stored.
///
/// Errors: `Full` if a store would be above a limit, which is found before anything is stored, as far as versions of a path with
/// one moment and one hash are the same; `Disk` if a call of one of the disks failed, whose store is stopped then; `Memory`.
/// FORMATS: Unversioned files
pub fn sync<D: Disk, P: Disk>(
    here: &mut Store<D>,
    there: &mut Store<P>,
) -> Result<(u64, u64), SyncFault>
    requires here { IsSettled here.old.seen.log }
    requires there { IsSettled there.old.seen.log }
    ensures { Syncs D.state P.state here.old there.old result here.new there.new }
{
    here.is_store();
    there.is_store();
    let Ok(answer) = answered(here, there) else {
        return Err(SyncFault::Memory);
    };
    let message = answer.bytes();
    let received = take(here, message);
    match received {
        Ok(received) => {
            let sent = hand_on(here, there, message);
            drop(answer);
            match sent {
                Ok(sent) => Ok((received, sent)),
                Err(fault) => Err(fault),
            }
        }
        Err(fault) => {
            drop(answer);
            Err(fault)
        }
    }
}
