//! Manifests and checksums of trees. All are what Fossil 2.21 wrote for the same files at the same moment.
use fsl_checkin::{manifest, read_tree, sum};
use fsl_date::Moment;
use fsl_name::Name;
use fsl_text::{Memory, Text};
use std::alloc::Global;
use std::test::Fail;

/// A tree, its parent, the moment in milliseconds, and the check-in by `ann` with the comment `first`.
pub(crate) const CHECKINS: [(&[u8], &[u8], i64, &[u8]); 4] = [
    (
        b"add a.txt - 3\nabc\n",
        b"f51124d84700ffaa021e62be5f28614ddc43fe19",
        1796081651274,
        b"C first\nD 2026-11-30T23:34:11.274\nF a.txt a9993e364706816aba3e25717850c26c9cd0d89d\nP f51124d84700ffaa021e62be5f28614ddc43fe19\nR 6bee3e4d66f0e718f92afb7a3c77d92f\nU ann\nZ 4fe619f2bd3969d17565426cb7620818\n",
    ),
    (
        b"add a.txt - 4\nabc\n\nadd empty - 0\n\nadd link l 5\na.txt\nadd run x 10\n#!/bin/sh\n\n",
        b"a21a08f7b469184f6ac9ccdc52757e5003240610",
        1796081653894,
        b"C first\nD 2026-11-30T23:34:13.894\nF a.txt 03cfd743661f07975fa2f1220c5194cbaff48451\nF empty da39a3ee5e6b4b0d3255bfef95601890afd80709\nF link cfc7b4885384957ae445bc14914d4588f607651c l\nF run bd971bec88149956458a10fc9c5ecb3eb99dd452 x\nP a21a08f7b469184f6ac9ccdc52757e5003240610\nR 7082b3fe8a1a6808fced237976af5604\nU ann\nZ 74ea8aa2ff589f249c22aed8a802ba25\n",
    ),
    (
        b"add B - 12\nadd a - 1\nx\n\nadd a\\sb - 4\nfour\nadd a-b - 4\ntwo\n\nadd a.b - 6\nthree\n\nadd a/b - 4\none\n\n",
        b"c8928d4506b18739da2ca46842a6b02e4456107e",
        1796081656014,
        b"C first\nD 2026-11-30T23:34:16.014\nF B f47be02f141f389b6fd4b2cd2de05b5830913344\nF a\\sb 9f8f7eec5dea5ac43738721939c120318cbff1df\nF a-b 7bbef45b3bc70855010e02460717643125c3beca\nF a.b 1e7720a3460b8a84ac4ba27880d64526a3872f1c\nF a/b c7059bb19433cc3cabaa6236c83d56668a843dd2\nP c8928d4506b18739da2ca46842a6b02e4456107e\nR eaf6daf79a5cc82169c5fb4a9666974c\nU ann\nZ e1b0c41cfdf55f6e6738e970558955c3\n",
    ),
    (
        b"add deep/er/still x 3\n\0\x01\x02\nadd z - 10\n9999999999\nadd \xc3\xa4 - 2\n\xc3\xa4\n",
        b"fc8cbd59e23aec13a64eee75cbd2e114fde9568f",
        1796081658270,
        b"C first\nD 2026-11-30T23:34:18.270\nF deep/er/still 0c7a623fd2bbc05b06423be359e4021d36e721ad x\nF z 8bb0b97698f489d41b6955a46383fa1f2d9001c5\nF \xc3\xa4 961fa22f61a56e19f3f5f8867901ac8cf5e6d11f\nP fc8cbd59e23aec13a64eee75cbd2e114fde9568f\nR eb0524d8659faee43777087a34a1c534\nU ann\nZ cc25bcc4e393016445faa469e32536f0\n",
    ),
];

/// A check-in without a parent, one without a file too, and one that took all files away; with the checksums of Python's hashlib.
const FIRST: &[u8] =
    b"C first\nD 1970-01-01T00:00:00.000\nF a.txt a9993e364706816aba3e25717850c26c9cd0d89d\nR 6bee3e4d66f0e718f92afb7a3c77d92f\nU ann\nZ 0097365ae02228957f4ffa9e1a281475\n";

const FIRST_EMPTY: &[u8] =
    b"C first\nD 1970-01-01T00:00:00.000\nR d41d8cd98f00b204e9800998ecf8427e\nU ann\nZ 5df716ffa5f8073e108691fa581f4d3b\n";

const PARENT: &[u8] = b"f51124d84700ffaa021e62be5f28614ddc43fe19";

const EMPTIED: &[u8] =
    b"C first\nD 1970-01-01T00:00:00.000\nP f51124d84700ffaa021e62be5f28614ddc43fe19\nR d41d8cd98f00b204e9800998ecf8427e\nU ann\nZ 7cb320968eb5d92ca878dcde76826129\n";

/// The checksum of a tree without files.
const OF_NONE: [u8; 16] = *b"\xd4\x1d\x8c\xd9\x8f\x00\xb2\x04\xe9\x80\x09\x98\xec\xf8\x42\x7e";

/// Whether this was written.
fn is_text(written: Result<Text, Memory>, wanted: &[u8]) -> bool {
    match written {
        Ok(written) => written.bytes() == wanted,
        Err(_) => false,
    }
}

/// Whether the tree becomes this check-in at a moment.
fn becomes_at(
    alloc: Global,
    tree: &[u8],
    parent: Option<Name>,
    moment: Moment,
    wanted: &[u8],
) -> bool {
    match read_tree(alloc, tree) {
        Ok(items) => {
            let written = manifest(alloc, &items, parent, b"ann", b"first", moment);
            drop(items);
            is_text(written, wanted)
        }
        Err(_) => false,
    }
}

/// Whether it does at the moment of so many milliseconds.
fn becomes(alloc: Global, tree: &[u8], parent: Option<Name>, moment: i64, wanted: &[u8]) -> bool {
    match Moment::new(moment) {
        Some(moment) => becomes_at(alloc, tree, parent, moment, wanted),
        None => false,
    }
}

/// Whether it becomes this check-in over a parent.
fn becomes_over(alloc: Global, tree: &[u8], parent: &[u8], moment: i64, wanted: &[u8]) -> bool {
    match Name::read(parent) {
        Ok(parent) => becomes(alloc, tree, Some(parent), moment, wanted),
        Err(_) => false,
    }
}

#[test]
fn a_tree_becomes_the_manifest_that_fossil_writes(rt: HostRuntime) -> Result<(), Fail> {
    for (tree, parent, moment, wanted) in CHECKINS {
        assert!(rt; becomes_over(rt.alloc(), tree, parent, moment, wanted));
    }
    Ok(())
}

#[test]
fn a_first_check_in_has_no_parent(rt: HostRuntime) -> Result<(), Fail> {
    let alloc = rt.alloc();
    assert!(rt; becomes(alloc, b"add a.txt - 3\nabc\n", None, 0, FIRST));
    assert!(rt; becomes(alloc, b"", None, 0, FIRST_EMPTY));
    assert!(rt; becomes_over(alloc, b"", PARENT, 0, EMPTIED));
    Ok(())
}

#[test]
fn a_tree_without_files_has_a_sum(rt: HostRuntime) -> Result<(), Fail> {
    assert!(rt; sum(&[]) == OF_NONE);
    Ok(())
}
