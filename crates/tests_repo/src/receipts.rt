//! Who brought an artifact and when, and a name that is taken off the list of the shunned ones: what a repository answers, and what
//! it has of them when it is loaded again.
ghost use Rattle.std.specs.Prelude.{◌≡◌, ◌<◌};

use crate::repo::ONE_BLOB;
use fsl_date::Moment;
use fsl_disk::{Disk, MemoryDisk};
use fsl_name::Name;
use fsl_record::Receipt;
use fsl_repo::{Arrival, ArriveFault, Repo, Shunning, Unshunning};
use fsl_text::Steps;
use std::alloc::Global;
use std::marker::Brand;
use std::sync::ledger::{Blank, Ledger};
use std::test::Fail;
use tests_kit::{arrives, loaded, opened};

const LOGIN: &[u8] = b"ann";

const TEXT: &[u8] = b"def";

fn receive_counted<D: Disk, L: Ledger>(
    repo: &mut Repo<D>,
    receipt: &Receipt,
    blank: Blank,
) -> Result<Arrival, ArriveFault>
    requires name { blank.name ≡ L.name }
    requires parts { blank.parts ≡ L.parts }
    requires counts { 0 < L.parts }
{
    let mut steps: Steps<L> = Steps::new(blank);
    repo.receive(Name::of(TEXT), TEXT, false, receipt, &mut steps)
}

/// The text arrives with a receipt.
fn receive<D: Disk>(repo: &mut Repo<D>, receipt: &Receipt) -> Result<Arrival, ArriveFault> {
    receive_counted::<D, Brand>(repo, receipt, Blank::new(1))
}

/// Whether the text is stored that somebody brings at this moment.
fn receives(alloc: Global, repo: &mut Repo<MemoryDisk>, moment: Moment) -> bool {
    let Ok(receipt) = Receipt::of_login(alloc, LOGIN, moment) else {
        return false;
    };
    let received = receive(repo, &receipt);
    drop(receipt);
    matches!(received, Ok(Arrival::Stored))
}

/// Whether the text was brought at this moment, and nobody is known to have brought the other one.
fn is_told(repo: &Repo<MemoryDisk>, moment: Moment) -> bool {
    let is_brought = match repo.receipt(Name::of(TEXT)) {
        Some(receipt) => (receipt.login() == LOGIN) & (receipt.moment().ms() == moment.ms()),
        None => false,
    };
    is_brought & repo.receipt(Name::of(b"abc")).is_none()
}

/// Whether the text is taken out and its name off the list again, behind which it can arrive, and nobody is known to have brought it.
fn comes_back(repo: &mut Repo<MemoryDisk>) -> bool {
    let name = Name::of(TEXT);
    let is_early = matches!(repo.unshun(name), Ok(Unshunning::NotShunned));
    let is_removed = matches!(repo.shun(name), Ok(Shunning::Removed));
    let is_gone = repo.receipt(name).is_none();
    let is_unshunned = matches!(repo.unshun(name), Ok(Unshunning::Unshunned));
    let is_again = matches!(repo.unshun(name), Ok(Unshunning::NotShunned));
    let is_back = arrives(repo, TEXT) & repo.receipt(name).is_none();
    is_early & is_removed & is_gone & is_unshunned & is_again & is_back
}

/// Whether a file of version 1 takes the text, and is one of version 2 then.
fn carries_over(alloc: Global, repo: &mut Repo<MemoryDisk>, moment: Moment) -> bool {
    let is_received = receives(alloc, repo, moment) & is_told(repo, moment);
    let is_committed = matches!(repo.commit(), Ok(3));
    is_received & is_committed & is_told(repo, moment)
}

/// Whether this disk holds a file of version 2, whose repository tells who brought the text.
fn is_kept(alloc: Global, disk: MemoryDisk, moment: Moment) -> bool {
    let is_later = disk.bytes().get(13) == Some(&b'2');
    let Some(mut repo) = loaded(alloc, disk) else {
        return false;
    };
    let told = is_told(&repo, moment);
    let back = comes_back(&mut repo);
    drop(repo.close());
    is_later & told & back
}

/// Whether all of this holds of a file of version 1.
fn is_told_of(alloc: Global, moment: Moment) -> bool {
    let Some(mut repo) = opened(alloc, ONE_BLOB) else {
        return false;
    };
    let carried = carries_over(alloc, &mut repo, moment);
    carried & is_kept(alloc, repo.close(), moment)
}

/// It does at the first and the last moment that there is, and at the first of the year 1970.
#[test]
fn receipts_are_kept(rt: HostRuntime) -> Result<(), Fail> {
    for ms in [-62_167_219_200_000, 0, 253_402_300_799_999] {
        let Some(moment) = Moment::new(ms) else {
            return Err(Fail::new("no moment"));
        };
        assert!(rt; is_told_of(rt.alloc(), moment), "at {ms}");
    }
    Ok(())
}
