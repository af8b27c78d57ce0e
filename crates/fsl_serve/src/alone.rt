//! Runs sessions of one user alone.
ghost use Rattle.std.specs.Prelude.{◌≡◌, ◌≢◌};
ghost use Rattle.fsl_order.specs.Causes.{Rose};
ghost use Rattle.fsl_repo.specs.Onward.{MayStep};
ghost use Rattle.fsl_turn.specs.Told.{Went};
ghost use Rattle.fsl_serve.specs.declared.said.SessionEnd.TheVariants as end_as;
ghost use Rattle.fsl_serve.specs.Calls.{Adds};
ghost use Rattle.fsl_serve.specs.Points.{Serves, Passes, points_of};

use crate::said::SessionEnd;
use crate::serving::session;
use crate::turning::Waiting;
use fsl_disk::Disk;
use fsl_login::Users;
use fsl_name::Name;
use fsl_outside::{Clock, Gate, Link};
use fsl_repo::Repo;
use fsl_turn::{Solo, SoloPass};
use std::alloc::Global;
use std::sync::Wait;

/// Runs a session over a machine that has one user. The pass tells its calls. The gate, the connection and the clock are as
/// [`session`] says for these calls. One after another the calls lead from the machine before to the machine after.
pub fn session_alone<D: Disk, K: Link, G: Gate, C: Clock, R: Wait>(
    rt: &R,
    alloc: Global,
    turns: &Solo<Repo<D>>,
    pass: &mut SoloPass<Repo<D>>,
    users: &Users,
    project: Name,
    link: &mut K,
    gate: &mut G,
    clock: &mut C,
    number: u64,
) -> SessionEnd
    ensures session { Adds pass.old.told.items pass.new.told.items (Serves users.now project (K.state, link.old, link.new) (C.told, clock.old, clock.new) result) }
    ensures points { Adds pass.old.told.items pass.new.told.items (λ made. Passes (G.passed gate.old) (G.passed gate.new) number (points_of made result)) }
    ensures steps { Went (λ a e r b. MayStep (D.state a.disk) (D.state b.disk) a e r b) pass.old.machine pass.old.told.items pass.new.machine pass.new.told.items }
    ensures cause { result ≡ end_as.Link → Rose ((K.state link.old).faults) ((K.state link.new).faults) }
    ensures same { result ≢ end_as.Link → (K.state link.new).faults ≡ (K.state link.old).faults }
    ensures stands { (K.state link.new).standing ≡ (K.state link.old).standing }
{
    let waiting = Waiting::new(turns, rt);
    session(
        alloc, &waiting, pass, users, project, link, gate, clock, number,
    )
}
