// Gates that hold two sessions up until both are inside at once.
use fsl_outside::{Gate, Point};
use std::alloc::Global;
use std::sync::Arc;
use std::sync::atomic::{AtomicU64, Ordering};
use std::thread;

/// What the two gates tell each other. 1 stands for true.
#[derive(Drop)]
pub struct Signals {
    pub first_arrived: AtomicU64,
    pub second_answered: AtomicU64,
    pub late: AtomicU64,
}

/// The gate of one of the two sessions.
#[derive(Drop)]
pub struct TurnGate {
    pub signals: Arc<Signals, Global>,
    pub is_first: bool,
}

/// Waits for a signal, at most ten million turns, each of which lets another thread run.
fn wait_for(flag: &AtomicU64, late: &AtomicU64) {
    for _turn in 0..10_000_000u32 {
        if flag.load(Ordering::SeqCst) != 0 {
            return;
        }
        thread::yield_now();
    }
    late.store(1, Ordering::SeqCst);
}

impl Gate for TurnGate {
    ghost use Rattle.std.specs.Prelude.{None};

    ghost passed = { λ _. None };

    fn pass(&mut self, _session: u64, point: Point) {
        let signals = &*self.signals;
        match (point, self.is_first) {
            (Point::Arrived, true) => {
                signals.first_arrived.store(1, Ordering::SeqCst);
                wait_for(&signals.second_answered, &signals.late);
            }
            (Point::Arrived, false) => wait_for(&signals.first_arrived, &signals.late),
            (Point::Answered, true) => {}
            (Point::Answered, false) => signals.second_answered.store(1, Ordering::SeqCst),
        }
    }
}
