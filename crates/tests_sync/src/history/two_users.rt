// Two users of one repository, on one thread.
ghost use Rattle.std.specs.Prelude.{◌≡◌, [], ◌∷◌, map, Some};

use fsl_blobs::Known;
use fsl_disk::MemoryDisk;
use fsl_history::{Chronicle, Housed, TicketPass, Ticketed};
use fsl_name::Name;
use fsl_repo::{Answer, Arrival, Event, Repo};
use fsl_text::Text;
use fsl_turn::Turns;
use std::alloc::Global;
use std::marker::Brand;
use std::sync::Wait;
use std::test::Fail;
use tests_kit::opened;

// A file with a Config without fields.
const CONFIG: &[u8] =
    b"fossil-blobs-1\nO\0\0\0\0\0\0\0\x2BCabcdefghijklmnopqrstABCDEFGHIJKLMNOPQRST\0\0C";

type Pass<B> = TicketPass<Repo<MemoryDisk>, B>;

/// One stores an artifact, the other announces it, the first looks and commits.
fn take_turns<B: Chronicle<Repo<MemoryDisk>>, R: Wait>(
    rt: &R,
    turns: &Ticketed<Repo<MemoryDisk>, B>,
    first: &mut Pass<B>,
    second: &mut Pass<B>,
    bytes: Text,
) -> bool {
    let name = Name::of(bytes.bytes());
    let arrive = Event::Arrive {
        name,
        bytes,
        private: false,
    };
    let arrived = turns.turn(rt, first, &arrive);
    let announced = turns.turn(rt, second, &Event::Announce { name });
    let length = turns.look(first);
    let committed = turns.turn(rt, first, &Event::Commit);
    matches!(arrived, Answer::Arrive(Ok(Arrival::Stored)))
        & matches!(announced, Answer::Announce(Ok(Known::Held)))
        & (length == 2)
        & matches!(committed, Answer::Commit(Ok(2)))
}

/// The same with the first two of these passes.
fn take_turns_of<B: Chronicle<Repo<MemoryDisk>>, R: Wait>(
    rt: &R,
    turns: &Ticketed<Repo<MemoryDisk>, B>,
    passes: &mut [Pass<B>],
    bytes: Text,
) -> bool {
    let Some((first, others)) = passes.split_first_mut() else {
        return false;
    };
    let Some(second) = others.first_mut() else {
        return false;
    };
    take_turns(rt, turns, first, second, bytes)
}

/// The same on two new passes, and the end: one artifact was stored.
fn play<B: Chronicle<Repo<MemoryDisk>>, R: Wait>(
    rt: &R,
    alloc: Global,
    housed: Housed<Repo<MemoryDisk>>,
    bytes: Text,
) -> bool
    requires table { housed.table.shared.table_id ≡ B.table }
    requires first { (f : _) × (B.first ≡ Some f) × (map (λ b. b.0) housed.table.shared.key.items ≡ f ∷ []) }
    requires passes { B.passes ≡ 2 }
{
    match Ticketed::<Repo<MemoryDisk>, B>::make(alloc, housed, 2) {
        Ok((turns, mut passes)) => {
            let right = take_turns_of(rt, &turns, passes.as_mut_slice(), bytes);
            let (repo, stored) = turns.finish(passes);
            drop(repo.close());
            right & (stored == 1)
        }
        Err(repo) => {
            drop(repo.close());
            false
        }
    }
}

fn play_on<R: Wait>(rt: &R, alloc: Global, repo: Repo<MemoryDisk>, bytes: Text) -> bool {
    match Housed::new(alloc, repo) {
        Ok(housed) => play::<Brand, R>(rt, alloc, housed, bytes),
        Err(repo) => {
            drop(repo.close());
            false
        }
    }
}

#[test]
fn two_users_make_one_history(rt: HostRuntime) -> Result<(), Fail> {
    let bytes = Text::of(rt.alloc(), b"abc")?;
    let right = match opened(rt.alloc(), CONFIG) {
        Some(repo) => play_on(&rt, rt.alloc(), repo, bytes),
        None => false,
    };
    assert!(rt; right);
    Ok(())
}
