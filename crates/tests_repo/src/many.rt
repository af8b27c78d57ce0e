// That tables are changed and not made anew: so many rebuilds wouldn't end within the time of a test.
ghost use Rattle.std.specs.Prelude.{◌≤◌};

use crate::repo::CONFIGURED;
use fsl_disk::MemoryDisk;
use fsl_gen::artifacts;
use fsl_repo::Repo;
use std::alloc::Global;
use std::test::Fail;
use tests_kit::{arrives, opened};

/// As many artifacts as are generated at most.
const MANY: u64 = 100_000;

/// Lets the generated artifacts arrive in their order. Whether there was memory for them.
fn arrive(alloc: Global, repo: &mut Repo<MemoryDisk>, count: u64) -> bool
    requires some { 1 ≤ count }
    requires few { count ≤ 100_000 }
{
    let Ok(texts) = artifacts(alloc, count, false) else {
        return false;
    };
    for text in texts.items() {
        arrives(repo, text.bytes());
    }
    true
}

/// Whether each of the generated artifacts is stored, none is clustered, and none refers to a name that isn't there.
fn are_stored(repo: &Repo<MemoryDisk>, count: u64) -> bool {
    let stored = repo.stored();
    let clusters = repo.tables().cluster();
    let (unclustered, missing) = (clusters.unclustered_count(), clusters.missing_count());
    (stored == count) & (unclustered == count) & (missing == 0)
}

/// The same over a repository that is loaded from its first bytes.
fn are_stored_in_new(alloc: Global, count: u64) -> bool
    requires some { 1 ≤ count }
    requires few { count ≤ 100_000 }
{
    let Some(mut repo) = opened(alloc, CONFIGURED) else {
        return false;
    };
    let arrived = arrive(alloc, &mut repo, count);
    let found = are_stored(&repo, count);
    drop(repo.close());
    arrived & found
}

/// So many arrive, one after another.
#[test]
fn many_arrive(rt: HostRuntime) -> Result<(), Fail> {
    assert!(rt; are_stored_in_new(rt.alloc(), MANY));
    Ok(())
}
