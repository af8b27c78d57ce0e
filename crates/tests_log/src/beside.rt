//! A file that a writer changes while it is read.
ghost use Rattle.std.specs.Prelude.{◌≡◌, ◌+◌, ◌^◌, ◌<◌, IfOk, OnOk, length};
ghost use Rattle.fsl_order.specs.Causes.{HasCause};
ghost use Rattle.fsl_disk.specs.Shared.{ToldOf, Sees, IsLengthOf, AreOf, ReadCause, unshown};

use crate::versions::{ONE_BLOB, TWO_BLOBS};
use fsl_disk::{Disk, FrontDisk, Shared};
use fsl_journal::{Journal, LoadFault, front_of};
use fsl_outside::Failed;
use std::alloc::{AllocError, Global};
use std::test::Fail;

/// What a file holds up to a moment, and what it holds from then on. Time goes on with each byte that is read of it, and with
/// each length: so a read may see each byte at another moment.
#[derive(Drop)]
struct Film {
    before: Vec<u8>,
    after: Vec<u8>,
    turn: u64,
    moment: u64,
}

impl Film {
    fn now(&self) -> &[u8] {
        if self.moment < self.turn {
            &self.before
        } else {
            &self.after
        }
    }

    fn pass(&mut self) {
        self.moment = self.moment.saturating_add(1);
    }

    fn len(&mut self) -> u64 {
        let len = self.now().len() as u64;
        self.pass();
        len
    }

    fn byte(&mut self, at: u64) -> Option<u8> {
        let byte = self.now().get(at as usize).copied();
        self.pass();
        byte
    }

    /// Whether all of them are there.
    fn fill(&mut self, at: u64, into: &mut [u8]) -> bool {
        for k in 0..into.len() {
            match self.byte(at.saturating_add(k as u64)) {
                Some(byte) => into[k] = byte,
                None => return false,
            }
        }
        true
    }
}

/// Such a file, which tells clauses nothing.
#[derive(Drop)]
struct Played {
    film: Film,
    faults: u64,
}

fn settle<T>(faults: &mut u64, answer: Result<T, Failed>) -> Result<T, Failed>
    ensures same { result ≡ answer }
    ensures cause { HasCause faults.old faults.new result }
{
    if answer.is_err() {
        *faults = faults.saturating_add(1);
    }
    answer
}

impl Shared for Played {
    ghost state = { λ f. unshown f.faults };

    fn len(&mut self) -> Result<u64, Failed>
        ensures sees { Sees (unshown self.old.faults) (unshown self.new.faults) }
        ensures fits { IfOk result (λ len. len < 2 ^ 63) }
        ensures answer { IfOk result (λ len. ToldOf (unshown self.old.faults) (λ held. IsLengthOf (unshown self.old.faults) (unshown self.new.faults) held len)) }
        ensures cause { HasCause self.old.faults self.new.faults result }
    {
        let len = self.film.len();
        let answer = if len < 1 << 63 { Ok(len) } else { Err(Failed) };
        settle(&mut self.faults, answer)
    }

    fn read_at(&mut self, at: u64, into: &mut [u8]) -> Result<(), Failed>
        ensures sees { Sees (unshown self.old.faults) (unshown self.new.faults) }
        ensures answer { OnOk result (ToldOf (unshown self.old.faults) (λ held. AreOf (unshown self.old.faults) (unshown self.new.faults) held at into.new)) }
        ensures cause { ReadCause (unshown self.old.faults) (unshown self.new.faults) (at + length into.old) result }
    {
        let answer = if self.film.fill(at, into) {
            Ok(())
        } else {
            Err(Failed)
        };
        settle(&mut self.faults, answer)
    }
}

fn file_of(alloc: Global, before: &[u8], after: &[u8], turn: u64) -> Result<Played, AllocError> {
    Ok(Played {
        film: Film {
            before: before.to_vec(alloc)?,
            after: after.to_vec(alloc)?,
            turn,
            moment: 0,
        },
        faults: 0,
    })
}

/// How many records an opening finds that stays beside the writer, or why it was refused.
fn counted(
    alloc: Global,
    before: &[u8],
    after: &[u8],
    turn: u64,
) -> Result<Result<u64, LoadFault>, AllocError> {
    let mut file = file_of(alloc, before, after, turn)?;
    let Ok(front) = front_of(&mut file) else {
        return Ok(Err(LoadFault::Disk));
    };
    let mut disk = FrontDisk::over(file, front);
    match Journal::load(alloc, &mut disk) {
        Ok((journal, _, _)) => Ok(Ok(journal.count())),
        Err(fault) => Ok(Err(fault)),
    }
}

/// A moment of the commit that carries a file over and adds the third record: the mark, so many of the bytes, and the gate
/// at 109 behind which the group stands.
#[derive(Clone, Copy)]
struct Stage(u8, usize, u8);

// Before it; the mark; the length, half the record, all of it and a closed gate, one after the other; the open gate.
const STAGES: [Stage; 7] = [
    Stage(b'1', 110, b'C'),
    Stage(b'2', 110, b'C'),
    Stage(b'2', 118, b'C'),
    Stage(b'2', 139, b'C'),
    Stage(b'2', 160, b'C'),
    Stage(b'2', 161, b'C'),
    Stage(b'2', 161, b'O'),
];

fn at_stage(alloc: Global, stage: Stage) -> Result<Vec<u8>, AllocError> {
    let mut bytes = TWO_BLOBS.to_vec(alloc)?;
    bytes[13] = stage.0;
    bytes[109] = stage.2;
    bytes.truncate(stage.1);
    Ok(bytes)
}

// The length is asked for at moment 0, the gate at 15 is read at 1 and the number behind it from 2 on, the gate at 67 at 10
// and the number behind it from 11 on: the gate at 109 is read at this one.
const LAST_GATE: u64 = 19;

/// Whether an opening finds three records where the gate was open when it was read, and two where it wasn't, whatever
/// moment the file goes from one of these stages to the other at.
fn sees_one_moment(alloc: Global, from: Stage, to: Stage) -> Result<bool, AllocError> {
    let before = at_stage(alloc, from)?;
    let after = at_stage(alloc, to)?;
    for turn in 0..240 {
        let gate = if turn <= LAST_GATE { to.2 } else { from.2 };
        let wanted = if gate == b'O' { 3 } else { 2 };
        if counted(alloc, &before, &after, turn)? != Ok(wanted) {
            return Ok(false);
        }
    }
    Ok(true)
}

#[test]
fn reads_beside_a_commit(rt: HostRuntime) -> Result<(), Fail> {
    for k in 0..STAGES.len() {
        for n in k..STAGES.len() {
            let right = sees_one_moment(rt.alloc(), STAGES[k], STAGES[n])?;
            assert!(rt; right, "{k} {n}");
        }
    }
    Ok(())
}

/// A writer ends within a commit, and the next one cuts what it left, and writes other bytes there.
#[test]
fn reads_beside_a_cut(rt: HostRuntime) -> Result<(), Fail> {
    for left in 2..6 {
        for next in 1..4 {
            let right = sees_one_moment(rt.alloc(), STAGES[left], STAGES[next])?;
            assert!(rt; right, "{left} {next}");
        }
    }
    let mut other = ONE_BLOB.to_vec(rt.alloc())?;
    other[13] = b'2';
    other.extend_from_slice(b"xxxxxxxxxxxxxxxxxxxxxxxxxxxxxxxxxxxxxxxxxxxxxxxx")?;
    let half = at_stage(rt.alloc(), STAGES[4])?;
    for turn in 0..240 {
        let found = counted(rt.alloc(), &half, &other, turn)?;
        assert_eq!(rt; found, Ok(2));
    }
    Ok(())
}

// The header and a closed gate, 16 bytes.
const NEW_FILE: &[u8] = b"fossil-blobs-2\nC";

/// A file that is made: nothing, the header, the first group.
#[test]
fn reads_beside_a_making(rt: HostRuntime) -> Result<(), Fail> {
    let one = &at_stage(rt.alloc(), STAGES[1])?;
    for turn in 0..20 {
        let nothing = counted(rt.alloc(), b"", NEW_FILE, turn)?;
        let at = if turn == 0 { 15 } else { 0 };
        assert_eq!(rt; nothing, Err(LoadFault::NotRepository { at }));
        let header = counted(rt.alloc(), NEW_FILE, one, turn)?;
        let wanted = if turn <= 1 {
            Ok(2)
        } else {
            Err(LoadFault::NotRepository { at: 15 })
        };
        assert_eq!(rt; header, wanted);
    }
    Ok(())
}

/// Open gates over groups that are none: the first is refused, and so is one that ends within the file.
#[test]
fn walks_over_no_groups(rt: HostRuntime) -> Result<(), Fail> {
    let chain = b"fossil-blobs-2\nO\0\0\0\0\0\0\0\0O\0\0\0\0\0\0\0\x01xO\0\0\0\0\0\0\0\x02xxC";
    let found = counted(rt.alloc(), chain, chain, 0)?;
    assert_eq!(rt; found, Err(LoadFault::NotRepository { at: 15 }));
    let short = b"fossil-blobs-2\nO\xFF\xFF\xFF\xFF\xFF\xFF\xFF\xFFxxxxxxxxxx";
    let cut_off = counted(rt.alloc(), short, short, 0)?;
    assert_eq!(rt; cut_off, Err(LoadFault::NotRepository { at: 15 }));
    Ok(())
}

/// A front that was found can't be written to, and a file that fails is no front.
#[test]
fn only_reads(rt: HostRuntime) -> Result<(), Fail> {
    let mut file = file_of(rt.alloc(), ONE_BLOB, ONE_BLOB, 0)?;
    let front = front_of(&mut file).map_err(|_| AllocError)?;
    assert_eq!(rt; front.len, 110);
    let mut disk = FrontDisk::over(file, front);
    assert!(rt; disk.write_at(0, b"x").is_err());
    assert_eq!(rt; disk.faults(), 1);
    let mut none = fsl_disk::SharedFile::none();
    assert!(rt; front_of(&mut none).is_err());
    Ok(())
}
