//! Takes the cards of a reply. Its files arrive in order as public.
ghost use Rattle.std.specs.Prelude.{◌≡◌, ◌<◌, ◌||◌};
ghost use Rattle.fsl_pull.specs.Arrivals.{arrival_fault, has_moved};
ghost use Rattle.fsl_pull.specs.Taking.{IsArrived, GoesOnFrom, TakesCard, TakesAll};

use crate::{PeerFault, PullFault};
use fsl_disk::Disk;
use fsl_name::Name;
use fsl_repo::{Arrival, ArriveFault, Repo};
use fsl_text::Steps;
use fsl_wire::WireCard;
use std::marker::Brand;
use std::sync::ledger::{Blank, Ledger};

/// Why a file wasn't taken.
pub(crate) fn file_fault(name: Name, fault: ArriveFault) -> PullFault
    ensures { result ≡ arrival_fault name fault }
{
    match fault {
        ArriveFault::Stopped { faults } => PullFault::Stopped { faults },
        ArriveFault::TooLarge { size } => PullFault::TooLarge { name, size },
        ArriveFault::NameWrong { found } => PullFault::Peer(PeerFault::WrongName { name, found }),
        ArriveFault::Full { .. } => PullFault::Full { name },
        ArriveFault::Memory => PullFault::Memory,
    }
}

/// Whether an arrival stored or published an artifact.
pub(crate) fn moves(arrival: Arrival) -> bool
    ensures { result ≡ has_moved arrival }
{
    match arrival {
        Arrival::Stored | Arrival::Published => true,
        Arrival::Present | Arrival::Shunned => false,
    }
}

/// A file arrives as public, with a counter of its own.
fn arrive_counted<D: Disk, L: Ledger>(
    repo: &mut Repo<D>,
    name: Name,
    bytes: &[u8],
    blank: Blank,
) -> Result<Arrival, ArriveFault>
    requires name { blank.name ≡ L.name }
    requires parts { blank.parts ≡ L.parts }
    requires counts { 0 < L.parts }
    ensures arrived { IsArrived repo.old.seen name bytes.now result repo.new.seen }
    ensures disk { repo.new.disk ≡ repo.old.disk }
{
    let mut steps: Steps<L> = Steps::new(blank);
    repo.is_whole();
    let answer = repo.arrive(name, bytes, false, &mut steps);
    repo.is_whole();
    answer
}

/// A file arrives as public. Nothing but the repository's records and announced names changes. How many touches that takes
/// is said by the repository of each arrival, and of no sync.
pub(crate) fn take_file<D: Disk>(
    repo: &mut Repo<D>,
    name: Name,
    bytes: &[u8],
) -> Result<Arrival, ArriveFault>
    ensures arrived { IsArrived repo.old.seen name bytes.now result repo.new.seen }
    ensures disk { repo.new.disk ≡ repo.old.disk }
{
    arrive_counted::<D, Brand>(repo, name, bytes, Blank::new(1))
}

/// Looks at the number that says where a clone goes on. Only the first of a reply counts.
fn go_on(from: &mut Option<u64>, next: u64) -> Result<(), PullFault>
    ensures { GoesOnFrom from.old next result from.new }
{
    let Some(asked) = *from else {
        return Ok(());
    };
    if next != 0 && next <= asked {
        return Err(PullFault::Peer(PeerFault::Sequence { found: next }));
    }
    *from = None;
    Ok(())
}

/// Takes one card, and answers whether an artifact was stored or published. `from` is the place that a clone asked from,
/// until the first card that says where it goes on.
fn take_card<D: Disk>(
    repo: &mut Repo<D>,
    card: &WireCard,
    from: &mut Option<u64>,
) -> Result<bool, PullFault>
    ensures taken { TakesCard repo.old.seen from.old card.now result repo.new.seen from.new }
    ensures disk { repo.new.disk ≡ repo.old.disk }
{
    match card {
        WireCard::File { name, bytes } => match take_file(repo, *name, bytes.bytes()) {
            Ok(arrival) => Ok(moves(arrival)),
            Err(fault) => Err(file_fault(*name, fault)),
        },
        WireCard::CloneSeqno { next } => match go_on(from, *next) {
            Ok(()) => Ok(false),
            Err(fault) => Err(fault),
        },
        _ => Ok(false),
    }
}

/// Whether one of two tests holds. A call of its own, so that a loop's proof has one name for the answer.
pub(crate) fn either(one: bool, other: bool) -> bool
    ensures { result ≡ (one || other) }
{
    one || other
}

/// Takes the cards of a reply in order, up to the first that is wrong, and answers whether an artifact was stored or
/// published. `Memory` leaves what was taken before.
pub(crate) fn take_cards<D: Disk>(
    repo: &mut Repo<D>,
    cards: &[WireCard],
    from: Option<u64>,
) -> Result<bool, PullFault>
    ensures taken { TakesAll repo.old.seen from cards.now result repo.new.seen }
    ensures disk { repo.new.disk ≡ repo.old.disk }
{
    let mut from = from;
    let mut moved = false;
    for card in cards {
        match take_card(repo, card, &mut from) {
            Ok(more) => moved = either(moved, more),
            Err(fault) => return Err(fault),
        }
    }
    Ok(moved)
}
