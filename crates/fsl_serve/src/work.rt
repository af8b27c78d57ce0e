//! Runs workers.
ghost use Rattle.fsl_serve.specs.Workers.{HasWorked, HasPassed};

use crate::serving::serve_link;
use crate::shared::Serving;
use crate::turning::Calls;
use fsl_disk::Disk;
use fsl_login::Users;
use fsl_name::Name;
use fsl_outside::{Accepted, Clock, Door, Gate};
use fsl_repo::Repo;
use std::alloc::Global;

/// The things that a worker needs.
#[derive(Drop)]
pub struct Crew<A, G, C> {
    /// The door for its connections.
    pub door: A,
    /// The gate that its sessions pass.
    pub gate: G,
    /// The clock that tells its sessions the moment.
    pub clock: C,
}

/// The work of a worker.
#[derive(Clone, Copy, Debug, PartialEq, Eq)]
pub struct Work {
    /// The number of connections that it served.
    pub sessions: u64,
    /// Says whether its door failed.
    pub failed: bool,
}

/// Serves as many connections as are asked for, or until the door fails or is closed. Each connection is let go once its session
/// ended. The sessions pass the gate under numbers from 0 on. Each asks the clock at most once.
pub fn worker<T: Calls<Repo<D>>, D: Disk, A: Door, G: Gate, C: Clock>(
    alloc: Global,
    turns: &T,
    pass: &mut T::Pass,
    users: &Users,
    project: Name,
    crew: &mut Crew<A, G, C>,
    requests: u64,
) -> Work
    ensures grown { T.grows pass.old pass.new }
    ensures worked { HasWorked D.state users.now project requests (A.state, crew.old, crew.new) (T.calls, pass.old, pass.new) result }
    ensures gate { HasPassed D.state users.now project requests (A.state, G.passed, C.told, crew.old, crew.new) (T.calls, pass.old, pass.new) result }
{
    let serving = Serving {
        turns,
        alloc,
        users,
        project,
    };
    for number in 0..requests {
        match crew.door.accept() {
            Ok(Accepted::Connection) => {
                serve_link(
                    &serving,
                    pass,
                    &mut crew.door,
                    &mut crew.gate,
                    &mut crew.clock,
                    number,
                );
                crew.door.leave();
            }
            Ok(Accepted::Closed) => {
                return Work {
                    sessions: number,
                    failed: false,
                };
            }
            Err(_) => {
                return Work {
                    sessions: number,
                    failed: true,
                };
            }
        }
    }
    Work {
        sessions: requests,
        failed: false,
    }
}
