//! A text of each kind in a lenient form, and the one text of its value. The digits are those of Python's `hashlib`.
use crate::artifact::parsed;
use fsl_artifact::Artifact;
use fsl_text::{Memory, Text};
use std::alloc::Global;

/// A manifest with every card, one text of each kind, and then the kinds whose cards may have names of 64 digits, each beside how it is
/// written.
const TEXTS: [(&[u8], &[u8]); 15] = [
    (EVERY_CARD, EVERY_CARD),
    (
        b"C c\nD 2024-02-29T12:00:00\nP\nU\nZ 82589cc5aa11c95de78fccc297e50120\n",
        b"C c\nD 2024-02-29T12:00:00.000\nU anonymous\nZ b9c84467d645846909c5fa777e35730d\n",
    ),
    (
        b"M a9993e364706816aba3e25717850c26c9cd0d89d\nM da39a3ee5e6b4b0d3255bfef95601890afd80709\nZ e0cf20572212c897087e610a9c073ee3\n",
        b"M a9993e364706816aba3e25717850c26c9cd0d89d\nM da39a3ee5e6b4b0d3255bfef95601890afd80709\nZ e0cf20572212c897087e610a9c073ee3\n",
    ),
    (
        b"D 2024-02-29T12:00:00\nT \\+a da39a3ee5e6b4b0d3255bfef95601890afd80709 v\nU\nZ bec4de15cf6a0e17378c44b9bdd686b8\n",
        b"D 2024-02-29T12:00:00.000\nT +a da39a3ee5e6b4b0d3255bfef95601890afd80709 v\nU anonymous\nZ a6312c2d00e9929d8baec138ad163cde\n",
    ),
    (
        b"C a\\sb\nD 2024-02-29T12:00:00\nL t\nN text/plain\nP\nU\nW 03\na c\nZ 7703a6c9b5065d51ae6a389844e3b330\n",
        b"C a\\sb\nD 2024-02-29T12:00:00.000\nL t\nN text/plain\nU anonymous\nW 3\na c\nZ a14965e1eeecdbc660809608d6b62967\n",
    ),
    (
        b"D 2024-02-29T12:00:00\nJ \\+f v\nJ g\nJ h \nK da39a3ee5e6b4b0d3255bfef95601890afd80709\nU\nZ d744b502c177ab6e8f191ac95784b568\n",
        b"D 2024-02-29T12:00:00.000\nJ +f v\nJ g\nJ h \nK da39a3ee5e6b4b0d3255bfef95601890afd80709\nU anonymous\nZ 0d466a5145d53bb32374da83a2d157a2\n",
    ),
    (
        b"A f t a9993e364706816aba3e25717850c26c9cd0d89d\nC c\nD 2024-02-29T12:00:00\nN m\nU\nZ 9368150b902c518c43b7d88000352dd0\n",
        b"A f t a9993e364706816aba3e25717850c26c9cd0d89d\nC c\nD 2024-02-29T12:00:00.000\nN m\nU anonymous\nZ 29d7ebab6fb8f5edbb752ecb63a8d3f6\n",
    ),
    (
        b"C c\nD 2024-02-29T12:00:00\nE 2024-03-01T00:00:00 da39a3ee5e6b4b0d3255bfef95601890afd80709\nP\nT +a * v\nU\nW 3\na c\nZ 8f2684d8bf96ad04fde235de5b58afeb\n",
        b"C c\nD 2024-02-29T12:00:00.000\nE 2024-03-01T00:00:00.000 da39a3ee5e6b4b0d3255bfef95601890afd80709\nT +a * v\nU anonymous\nW 3\na c\nZ b4bf8eb44131bd6c0c2841af5aff84ec\n",
    ),
    (
        b"D 2024-02-29T12:00:00\nG da39a3ee5e6b4b0d3255bfef95601890afd80709\nH t\nP a9993e364706816aba3e25717850c26c9cd0d89d\nU\nW 3\na c\nZ 626a7ca051c465b3169eea13af00f393\n",
        b"D 2024-02-29T12:00:00.000\nG da39a3ee5e6b4b0d3255bfef95601890afd80709\nH t\nP a9993e364706816aba3e25717850c26c9cd0d89d\nU anonymous\nW 3\na c\nZ 774dfc6701e4ad542ef320ea9ac847eb\n",
    ),
    (
        b"C c\nD 2024-02-29T12:00:00\nF a 3333333333333333333333333333333333333333333333333333333333333333\nF b a9993e364706816aba3e25717850c26c9cd0d89d x\nF c abababababababababababababababababababababababababababababababab l d\nP a9993e364706816aba3e25717850c26c9cd0d89d 3333333333333333333333333333333333333333333333333333333333333333 abababababababababababababababababababababababababababababababab\nQ +3333333333333333333333333333333333333333333333333333333333333333\nQ -abababababababababababababababababababababababababababababababab 3333333333333333333333333333333333333333333333333333333333333333\nQ -a9993e364706816aba3e25717850c26c9cd0d89d abababababababababababababababababababababababababababababababab\nT *branch * x\nT -a 3333333333333333333333333333333333333333333333333333333333333333 v\nT +b a9993e364706816aba3e25717850c26c9cd0d89d\nU\nZ 3ddac71f00454b8e84e323d6710ed0dd\n",
        b"C c\nD 2024-02-29T12:00:00.000\nF a 3333333333333333333333333333333333333333333333333333333333333333\nF b a9993e364706816aba3e25717850c26c9cd0d89d x\nF c abababababababababababababababababababababababababababababababab l d\nP a9993e364706816aba3e25717850c26c9cd0d89d 3333333333333333333333333333333333333333333333333333333333333333 abababababababababababababababababababababababababababababababab\nQ +3333333333333333333333333333333333333333333333333333333333333333\nQ -abababababababababababababababababababababababababababababababab 3333333333333333333333333333333333333333333333333333333333333333\nQ -a9993e364706816aba3e25717850c26c9cd0d89d abababababababababababababababababababababababababababababababab\nT *branch * x\nT -a 3333333333333333333333333333333333333333333333333333333333333333 v\nT +b a9993e364706816aba3e25717850c26c9cd0d89d\nU anonymous\nZ 33fff399b1629bfcead71e728fd974bd\n",
    ),
    (
        b"M 3333333333333333333333333333333333333333\nM 3333333333333333333333333333333333333333333333333333333333333333\nM a9993e364706816aba3e25717850c26c9cd0d89d\nM abababababababababababababababababababababababababababababababab\nZ 212806f87b9ed6995960e1cbde9585c0\n",
        b"M 3333333333333333333333333333333333333333\nM 3333333333333333333333333333333333333333333333333333333333333333\nM a9993e364706816aba3e25717850c26c9cd0d89d\nM abababababababababababababababababababababababababababababababab\nZ 212806f87b9ed6995960e1cbde9585c0\n",
    ),
    (
        b"D 2024-02-29T12:00:00\nT \\+a 3333333333333333333333333333333333333333333333333333333333333333 v\nT +a a9993e364706816aba3e25717850c26c9cd0d89d\nU\nZ c6be06ff2d5614e8411866dcf44bca86\n",
        b"D 2024-02-29T12:00:00.000\nT +a 3333333333333333333333333333333333333333333333333333333333333333 v\nT +a a9993e364706816aba3e25717850c26c9cd0d89d\nU anonymous\nZ 77290012f65d27ec8739a29a51ddf493\n",
    ),
    (
        b"D 2024-02-29T12:00:00\nL t\nP 3333333333333333333333333333333333333333333333333333333333333333 a9993e364706816aba3e25717850c26c9cd0d89d abababababababababababababababababababababababababababababababab\nU\nW 03\na c\nZ 1fbc7e0992efc1f0aa23288bb8494272\n",
        b"D 2024-02-29T12:00:00.000\nL t\nP 3333333333333333333333333333333333333333333333333333333333333333 a9993e364706816aba3e25717850c26c9cd0d89d abababababababababababababababababababababababababababababababab\nU anonymous\nW 3\na c\nZ 102b7c68fbc147ed957ad8a78373f905\n",
    ),
    (
        b"A f t 3333333333333333333333333333333333333333333333333333333333333333\nD 2024-02-29T12:00:00\nU\nZ 864050a0d4b96adab457751c3f07f185\n",
        b"A f t 3333333333333333333333333333333333333333333333333333333333333333\nD 2024-02-29T12:00:00.000\nU anonymous\nZ 8ace2a8f09c0cf99ea09ebf140ca2506\n",
    ),
    (
        b"D 2024-02-29T12:00:00\nE 2024-03-01T00:00:00 da39a3ee5e6b4b0d3255bfef95601890afd80709\nP 3333333333333333333333333333333333333333333333333333333333333333\nU\nW 3\na c\nZ 6b21a05497d79ff302755a68590f3fb7\n",
        b"D 2024-02-29T12:00:00.000\nE 2024-03-01T00:00:00.000 da39a3ee5e6b4b0d3255bfef95601890afd80709\nP 3333333333333333333333333333333333333333333333333333333333333333\nU anonymous\nW 3\na c\nZ 43997a93423c21a66dd44b2d05946049\n",
    ),
];

/// A manifest that is written as it reads.
const EVERY_CARD: &[u8] =
    b"B da39a3ee5e6b4b0d3255bfef95601890afd80709\nC a\\sb\nD 2024-02-29T12:00:00.000\nF a da39a3ee5e6b4b0d3255bfef95601890afd80709\nF b a9993e364706816aba3e25717850c26c9cd0d89d x\nF c da39a3ee5e6b4b0d3255bfef95601890afd80709 l d\\se\nF d a9993e364706816aba3e25717850c26c9cd0d89d w\nF e\nN text/plain\nP a9993e364706816aba3e25717850c26c9cd0d89d da39a3ee5e6b4b0d3255bfef95601890afd80709\nQ +da39a3ee5e6b4b0d3255bfef95601890afd80709\nQ -a9993e364706816aba3e25717850c26c9cd0d89d da39a3ee5e6b4b0d3255bfef95601890afd80709\nR d41d8cd98f00b204e9800998ecf8427e\nT *branch * trunk\nT +sym-trunk *\nT -a da39a3ee5e6b4b0d3255bfef95601890afd80709 v\nU a\\nb\nZ 151bc5f717682e5de5c1a746a16895bd\n";

/// They stand behind a call without a contract, which keeps them out of the proofs of the tests.
fn texts() -> &'static [(&'static [u8], &'static [u8])] {
    &TEXTS
}

/// The text of a value of a kind that has one, and no bytes for plain content.
fn written(alloc: Global, artifact: &Artifact) -> Result<Text, Memory> {
    match artifact {
        Artifact::Manifest(value) if value.well_formed() => value.write(alloc),
        Artifact::Cluster(value) if value.well_formed() => value.write(alloc),
        Artifact::Control(value) if value.well_formed() => value.write(alloc),
        Artifact::Wiki(value) if value.well_formed() => value.write(alloc),
        Artifact::Ticket(value) if value.well_formed() => value.write(alloc),
        Artifact::Attachment(value) if value.well_formed() => value.write(alloc),
        Artifact::Technote(value) if value.well_formed() => value.write(alloc),
        Artifact::Forum(value) if value.well_formed() => value.write(alloc),
        _ => Ok(Text::empty(alloc)),
    }
}

/// How what a text stands for is written.
fn rewritten(alloc: Global, text: &[u8]) -> Result<Text, Memory> {
    let artifact = parsed(alloc, text)?;
    written(alloc, &artifact)
}

#[test]
fn writes_each_kind_in_one_form(rt: HostRuntime) -> Result<(), Memory> {
    for (row, (text, want)) in texts().iter().enumerate() {
        let found = rewritten(rt.alloc(), *text)?;
        assert_eq!(rt; found.bytes(), *want, "row {row}");
    }
    Ok(())
}
