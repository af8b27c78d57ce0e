//! A machine under a lock.
ghost use Rattle.std.specs.Prelude.{◌≡◌, ℕ, ◌+◌, ◌≤◌, ◌<◌, length, Some, IfOk, IfErr, IfSome, vec_len, sum};

use crate::machine::{Machine, step_uncounted};
use crate::turns::Turns;
use fsl_text::Steps;
use std::alloc::Global;
use std::marker::{Brand, Model, PhantomData};
use std::sync::ledger::{Blank, Book, Ledger, Share};
use std::sync::{Mutex, Wait};

/// Names the ledger of the shares, and the state that the machine began with.
pub trait Origin<M>: Ledger {
    ghost use Rattle.std.specs.Prelude.{Option};

    ghost first: { Option M };
}

impl<M> Origin<M> for Brand {
    ghost use Rattle.std.specs.Prelude.{None};

    ghost first = { None };
}

/// Holds the machine and the total of the shares under the lock. The machine is later than the one that the ledger names, and its
/// count rose by that total.
#[derive(Drop)]
struct Under<M: Machine, L: Origin<M>> {
    machine: M,
    book: Book<L>,
    /// The rest of the shares, which is nothing.
    rest: Share<L>,
}

impl<M: Machine, L: Origin<M>> Model for Under<M, L> {
    ghost use Rattle.std.specs.Prelude.{◌≡◌, ℕ, ◌+◌, ◌≤◌, IfSome};

    ghost Value = { M × ℕ };

    ghost view = { λ u. (u.machine, u.book.total) };

    ghost invariant = { λ u. (u.rest.parts ≡ 0) × (u.rest.amount ≡ 0) × (u.book.total ≤ M.stored_count u.machine) × IfSome L.first (λ m. M.later m u.machine × (M.stored_count u.machine ≡ M.stored_count m + u.book.total)) };
}

/// One user's part of the turns, with its share of the machine's count. Contracts see the rise of the count in its turns.
#[derive(Drop)]
pub struct LockedPass<M, L: Origin<M>> {
    stored: u64,
    share: Share<L>,
    of: PhantomData<M>,
}

impl<M, L: Origin<M>> Model for LockedPass<M, L> {
    ghost use Rattle.std.specs.Prelude.{◌≡◌, ℕ};

    ghost Value = { ℕ };

    ghost view = { λ p. p.stored };

    ghost invariant = { λ p. (p.share.parts ≡ 1) × (p.share.amount ≡ p.stored) };
}

/// A machine under a lock, kept because the interface of turns has it, though no program uses it. Each turn holds the lock for
/// one step, and for no longer.
#[derive(Drop)]
pub struct Locked<M: Machine, L: Origin<M>> {
    under: Mutex<Under<M, L>>,
}

impl<M: Machine, L: Origin<M>> Under<M, L> {
    /// Makes one step of the machine, and counts its rise for this pass.
    fn turn(&mut self, mine: &mut LockedPass<M, L>, event: &M::Event) -> M::Answer
        ensures step { M.may_step self.old.0 event.now result self.new.0 }
        ensures share { mine.new + self.old.1 ≡ mine.old + self.new.1 }
    {
        let before = self.machine.stored();
        let answer = step_uncounted(&mut self.machine, event);
        let rise = self.machine.stored() - before;
        self.book.add(&mut mine.share, rise);
        self.book.audit(&mut mine.share);
        mine.stored += rise;
        answer
    }

    /// Takes all shares back, and sums them.
    fn close(self, passes: Vec<LockedPass<M, L>>) -> (M, u64)
        requires { vec_len passes ≡ L.parts }
        ensures sum { result.1 ≡ sum passes.items }
        ensures machine { result.0 ≡ self.0 }
        ensures later { IfSome L.first (λ m. M.later m result.0) }
        ensures rise { IfSome L.first (λ m. M.stored_count result.0 ≡ M.stored_count m + result.1) }
    {
        let Under {
            machine,
            mut book,
            mut rest,
        } = self;
        let _end = machine.stored();
        let mut total = 0;
        for pass in passes {
            let LockedPass {
                stored,
                share,
                of: _,
            } = pass;
            rest.merge(share);
            book.audit(&mut rest);
            total += stored;
        }
        book.audit(&mut rest);
        (machine, total)
    }
}

impl<M: Machine, L: Origin<M>> Locked<M, L> {
    /// Puts the machine under a lock, for this many users, 1 to 16, and makes a pass for each. Fails only if out of memory, and
    /// then gives the machine back as it was.
    pub fn make(
        alloc: Global,
        machine: M,
        passes: u64,
        blank: Blank,
    ) -> Result<(Locked<M, L>, Vec<LockedPass<M, L>>), M>
        requires name { blank.name ≡ L.name }
        requires parts { blank.parts ≡ L.parts }
        requires all { passes ≡ L.parts }
        requires few { (0 < passes) × (passes ≤ 16) }
        requires first { L.first ≡ Some machine }
        ensures passes { IfOk result (λ r. vec_len r.1 ≡ passes) }
        ensures none_yet { IfOk result (λ r. sum r.1.items ≡ 0) }
        ensures refused { IfErr result (λ m. m ≡ machine) }
    {
        let (book, mut rest) = blank.open::<L>();
        let mut out = Vec::new(alloc);
        for _i in 0..passes {
            let share = rest.split_off(1, 0);
            let pass = LockedPass {
                stored: 0,
                share,
                of: PhantomData,
            };
            if out.push(pass).is_err() {
                return Err(machine);
            }
        }
        let under = Under {
            machine,
            book,
            rest,
        };
        Ok((
            Locked {
                under: Mutex::new(under),
            },
            out,
        ))
    }

    /// Takes the machine out, once all its passes came back. It is later than the one that `make` took. Its count rose since then
    /// by the sum of the passes, which is returned beside it.
    pub fn finish(self, passes: Vec<LockedPass<M, L>>) -> (M, u64)
        requires { vec_len passes ≡ L.parts }
        ensures sum { result.1 ≡ sum passes.items }
        ensures later { IfSome L.first (λ m. M.later m result.0) }
        ensures rise { IfSome L.first (λ m. M.stored_count result.0 ≡ M.stored_count m + result.1) }
    {
        let Locked { under } = self;
        under.into_inner().close(passes)
    }
}

impl<M: Machine, L: Origin<M>> Turns<M> for Locked<M, L> {
    type Pass = LockedPass<M, L>;

    ghost use Rattle.std.specs.Prelude.{None};

    ghost calls = { λ _. None };

    ghost grows = { λ _ _. Unit {0} };

    ghost grows_self = { λ p. tt };

    ghost grows_through = { λ p q r a b. tt };

    fn turn<R: Wait>(&self, rt: &R, pass: &mut LockedPass<M, L>, event: &M::Event) -> M::Answer {
        self.under.lock(rt).turn(pass, event)
    }

    fn stand_back(&self) {}
}
