// A machine that counts its steps.
use fsl_text::Steps;
use fsl_turn::Machine;
use std::sync::ledger::Ledger;

// What a step works, so that others wait for it.
const ROUNDS: u64 = 20_000;

/// Answers how many steps it made before. An event is the least answer that is right.
#[derive(Drop)]
pub(crate) struct Toy {
    pub(crate) made: u64,
    pub(crate) right: bool,
    pub(crate) mixed: u64,
}

impl Machine for Toy {
    type Event = u64;

    type Answer = u64;

    ghost use Rattle.tests_sync.specs.Toy.{none_less};

    ghost may_step = { λ a e r b. Unit {0} };

    ghost later = { λ a b. Unit {0} };

    ghost stored_count = { λ a. 0 };

    fn step<L: Ledger>(&mut self, event: &u64, _steps: &mut Steps<L>) -> u64 {
        let made = self.made;
        for _round in 0..ROUNDS {
            self.mixed = self
                .mixed
                .wrapping_mul(6364136223846793005)
                .wrapping_add(made);
        }
        if made < *event {
            self.right = false;
        }
        self.made = made.wrapping_add(1);
        made
    }

    fn stored(&self) -> u64 {
        0
    }

    ghost later_self = { λ a. tt };

    ghost later_through = { λ a b c x y. tt };

    ghost step_later = { λ a e r b x. tt };

    ghost never_falls = { λ a b x. none_less };
}
