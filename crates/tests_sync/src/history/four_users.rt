// Four users of one machine: a look behind another's turn, and turns in threads that wait for each other.
ghost use Rattle.std.specs.Prelude.{◌≡◌, [], ◌∷◌, map, vec_len, Some};

use super::toy::Toy;
use fsl_history::{Chronicle, Housed, TicketPass, Ticketed};
use fsl_turn::Turns;
use std::alloc::Global;
use std::marker::Brand;
use std::sync::Wait;
use std::test::Fail;
use std::thread::{Threads, for_each_mut};

// The turns of one user.
const TURNS: u64 = 200;

/// One looks, another makes a turn, and the one looks again.
fn look_twice<B: Chronicle<Toy>, R: Wait>(
    rt: &R,
    turns: &Ticketed<Toy, B>,
    first: &mut TicketPass<Toy, B>,
    second: &mut TicketPass<Toy, B>,
) -> bool {
    let before = turns.look(first);
    let made = turns.turn(rt, second, &0);
    let after = turns.look(first);
    (before == 0) & (made == 0) & (after == 1)
}

/// All turns of one user, each behind its last.
fn make_turns<B: Chronicle<Toy>, R: Wait>(
    rt: &R,
    turns: &Ticketed<Toy, B>,
    pass: &mut TicketPass<Toy, B>,
) {
    let mut least = 0;
    for _turn in 0..TURNS {
        least = turns.turn(rt, pass, &least).wrapping_add(1);
    }
}

/// The turns of all users, each in a thread of its own.
fn make_all<B: Chronicle<Toy> + Send + Sync, R: Threads + Wait + Sync>(
    rt: &R,
    turns: &Ticketed<Toy, B>,
    passes: &mut Vec<TicketPass<Toy, B>>,
)
    ensures { vec_len passes.new ≡ vec_len passes.old }
{
    for_each_mut(
        rt,
        passes.as_mut_slice(),
        4,
        &|_, pass: &mut TicketPass<Toy, B>| { make_turns(rt, turns, pass) },
    );
}

/// Whether the looks were right, and whether all turns were made.
fn play<B: Chronicle<Toy> + Send + Sync, R: Threads + Wait + Sync>(
    rt: &R,
    alloc: Global,
    housed: Housed<Toy>,
) -> (bool, bool)
    requires table { housed.table.shared.table_id ≡ B.table }
    requires first { (f : _) × (B.first ≡ Some f) × (map (λ b. b.0) housed.table.shared.key.items ≡ f ∷ []) }
    requires passes { B.passes ≡ 4 }
{
    match Ticketed::<Toy, B>::make(alloc, housed, 4) {
        Ok((turns, mut passes)) => {
            let looked = match passes.as_mut_slice() {
                [first, second, ..] => look_twice(rt, &turns, first, second),
                _ => false,
            };
            make_all(rt, &turns, &mut passes);
            let (toy, _) = turns.finish(passes);
            (looked, toy.right & (toy.made == 4 * TURNS + 1))
        }
        Err(_) => (false, false),
    }
}

fn play_on<R: Threads + Wait + Sync>(rt: &R, alloc: Global, toy: Toy) -> (bool, bool) {
    match Housed::new(alloc, toy) {
        Ok(housed) => play::<Brand, R>(rt, alloc, housed),
        Err(_) => (false, false),
    }
}

#[test]
fn who_waits_is_called_and_who_looks_sees_all(rt: HostRuntime) -> Result<(), Fail> {
    let toy = Toy {
        made: 0,
        right: true,
        mixed: 1,
    };
    let (looked, made) = play_on(&rt, rt.alloc(), toy);
    assert!(rt; looked);
    assert!(rt; made);
    Ok(())
}
