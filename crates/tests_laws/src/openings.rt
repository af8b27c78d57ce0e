//! Openings one after the other.
use crate::crashes::{LeavesOne, stopping_after};
use fsl_journal::LoadFault;
use laws_openings::{Opening, Reopened, reopen};
use std::alloc::Global;
use std::test::Fail;

/// How many openings found one record, and how many were stopped by their disk.
#[derive(Clone, Copy, PartialEq, Eq, Debug)]
struct Told {
    one: u64,
    stopped: u64,
}

fn told_by<D>(openings: &[Opening<D>]) -> Told {
    let mut told = Told { one: 0, stopped: 0 };
    for opening in openings {
        match opening.answer {
            Ok(1) => told.one = told.one.saturating_add(1),
            Err(LoadFault::Disk) => told.stopped = told.stopped.saturating_add(1),
            _ => {}
        }
    }
    told
}

/// What three openings tell, the first of which has so many calls, and each other more than enough.
fn three(alloc: Global, calls: u64, pick: u64) -> Option<Told> {
    let Ok(disk) = stopping_after(alloc, calls) else {
        return None;
    };
    let mut outage = LeavesOne {
        alloc,
        pick,
        calls: 64,
    };
    match reopen(alloc, disk, &mut outage, 3) {
        Ok(Reopened { disk, openings }) => {
            drop(disk);
            let told = told_by(&openings);
            drop(openings);
            Some(told)
        }
        Err(_) => None,
    }
}

/// Each opening tells how many records there are, or that its disk failed.
#[test]
fn openings_tell_what_stands_there(rt: HostRuntime) -> Result<(), Fail> {
    for pick in 0..8 {
        assert!(rt; three(rt.alloc(), 64, pick) == Some(Told { one: 3, stopped: 0 }));
        assert!(rt; three(rt.alloc(), 1, pick) == Some(Told { one: 2, stopped: 1 }));
    }
    Ok(())
}
