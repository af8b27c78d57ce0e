//! `pull` and `push`: one sync with the repository at the other end of a dial.
ghost use Rattle.std.specs.Prelude.{◌≡◌};
ghost use Rattle.fsl_disk.specs.Disk.{Keeps};
ghost use Rattle.fsl_repo.specs.Whole.{IsWholeOn};
ghost use Rattle.fsl_pull.specs.Asking.{IsDialCounted};
ghost use Rattle.fossil.specs.Syncs.{login_of};
ghost use Rattle.fossil.specs.Syncing.{HasMade, IsMadeOver, SyncsOver};

use crate::answers::due::Due;
use crate::answers::sync_due::sync_due;
use crate::reading::load::not_loaded;
use fsl_disk::Disk;
use fsl_outside::Dial;
use fsl_pull::{Login, PullFault, Pulled};
use fsl_repo::Repo;
use fsl_text::Text;
use std::alloc::Global;

/// Which way artifacts go: from the other end, or to it.
#[derive(Clone, Copy)]
pub(crate) enum Way {
    Pull,
    Push,
}

/// A login of words: a user and a secret.
fn login_of(login: Option<(Text, Text)>) -> Option<Login>
    ensures { result ≡ login_of login }
{
    match login {
        Some((user, secret)) => Some(Login { user, secret }),
        None => None,
    }
}

/// Makes one sync that way.
fn make<D: Disk, N: Dial>(
    alloc: Global,
    way: Way,
    login: &Option<Login>,
    repo: &mut Repo<D>,
    dial: &mut N,
) -> Result<Pulled, PullFault>
    ensures made { IsMadeOver way login.now (N.state dial.old, N.state dial.new)
        (D.state repo.old.disk, D.state repo.new.disk) repo.old.seen repo.new.seen result }
    ensures counts { IsDialCounted (N.state dial.old) (N.state dial.new) result }
    ensures keeps { Keeps (D.state repo.old.disk) (D.state repo.new.disk) }
{
    match way {
        Way::Pull => fsl_pull::pull(alloc, repo, dial, login),
        Way::Push => fsl_pull::push(alloc, repo, dial, login),
    }
}

/// Makes one sync of an opened repository that way, and answers what is due of that.
fn sync_open<D: Disk, N: Dial>(
    alloc: Global,
    way: Way,
    login: &Option<Login>,
    repo: &mut Repo<D>,
    dial: &mut N,
) -> Due
    ensures made { HasMade way login.now (N.state dial.old, N.state dial.new)
        (D.state repo.old.disk, D.state repo.new.disk) repo.old.seen repo.new.seen result }
    ensures whole { IsWholeOn (D.state repo.new.disk) repo.new }
    ensures keeps { Keeps (D.state repo.old.disk) (D.state repo.new.disk) }
{
    let made = make(alloc, way, login, repo, dial);
    repo.is_whole();
    sync_due(alloc, made)
}

/// Opens the repository, and syncs it that way with the other end of the dial, under this login or under none. What is due
/// of that is answered, and the disk comes back.
pub(crate) fn sync<D: Disk, N: Dial>(
    alloc: Global,
    way: Way,
    login: Option<(Text, Text)>,
    disk: D,
    dial: &mut N,
) -> (Due, D)
    ensures { SyncsOver way login (D.state, disk, result.1) (N.state, dial.old, dial.new) result.0 }
{
    let login = login_of(login);
    match Repo::load(alloc, disk) {
        Ok(mut repo) => {
            repo.is_whole();
            let due = sync_open(alloc, way, &login, &mut repo, dial);
            (due, repo.close())
        }
        Err((disk, fault)) => (not_loaded(alloc, fault), disk),
    }
}
