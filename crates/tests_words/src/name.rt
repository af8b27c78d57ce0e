use fsl_name::{Name, NameFault, Ref};
use std::alloc::AllocError;

const ABC: &[u8] = b"a9993e364706816aba3e25717850c26c9cd0d89d";

/// The longest message that the standard of SHA-1 names, with its digest.
#[test]
fn names_a_million_letters(rt: HostRuntime) -> Result<(), AllocError> {
    let many = vec![in rt.alloc(); b'a'; 1_000_000]?;
    let name = Name::of(many.as_slice());
    assert_eq!(rt; &name.text(), b"34aa973cd4c4daa4f61eeb2bdbad27316534016f");
    Ok(())
}

/// A name is read from its digits, and gives them and its bytes back.
#[test]
fn gives_back_its_digits_and_bytes(rt: HostRuntime) {
    let name = Name::of(b"abc");
    assert_eq!(rt; Name::read(ABC), Ok(name));
    assert_eq!(rt; Name::from_bytes(name.bytes()), name);
    assert_eq!(rt;
        &Name::from_bytes([0x0f; 20]).text(),
        b"0f0f0f0f0f0f0f0f0f0f0f0f0f0f0f0f0f0f0f0f"
    );
}

/// What is wrong first, and names in the order of their bytes.
#[test]
fn tells_faults_and_order(rt: HostRuntime) {
    assert_eq!(rt;
        Name::read(&ABC[..39]),
        Err(NameFault::Length { found: 39 })
    );
    let upper = b"a9993e364706816aba3e25717850c26c9Cd0d89D";
    assert_eq!(rt; Name::read(upper), Err(NameFault::Digit { at: 33 }));
    assert!(rt; Name::from_bytes([0x7f; 20]) < Name::from_bytes([0x80; 20]));
}

/// References of both lengths are read, written and told to be foreign; what stands behind the digits stays.
#[test]
fn reads_and_writes_references(rt: HostRuntime) {
    let own = Ref::Own(Name::of(b"abc"));
    let foreign = Ref::Foreign([0x33; 32]);
    let digits = [b'3'; 64];
    assert_eq!(rt; Ref::read(ABC), Ok(own));
    assert_eq!(rt; Ref::read(&digits), Ok(foreign));
    assert_eq!(rt; own.own(), Some(Name::of(b"abc")));
    assert_eq!(rt; foreign.own(), None);
    let mut room = [b'x'; 64];
    assert_eq!(rt; own.write(&mut room), 40);
    assert_eq!(rt; &room[..40], ABC);
    assert_eq!(rt; &room[40..], [b'x'; 24].as_slice());
    assert_eq!(rt; foreign.write(&mut room), 64);
    assert_eq!(rt; &room, &digits);
}

/// What is wrong first with a text that is no reference, and references in the order of their digits.
#[test]
fn tells_faults_and_order_of_references(rt: HostRuntime) {
    let digits = [b'3'; 64];
    assert_eq!(rt;
        Ref::read(&digits[..63]),
        Err(NameFault::Length { found: 63 })
    );
    let mut upper = digits;
    upper[50] = b'A';
    assert_eq!(rt; Ref::read(&upper), Err(NameFault::Digit { at: 50 }));
    let own = Ref::Own(Name::from_bytes([0x33; 20]));
    let foreign = Ref::Foreign([0x33; 32]);
    let later = Ref::Own(Name::from_bytes([0x34; 20]));
    assert!(rt; own.is_written_before(&foreign));
    assert!(rt; foreign.is_written_before(&later));
    assert!(rt; !later.is_written_before(&foreign));
}
