//! Logins: what no answer of a server shows. Digits are those of `sha1sum`.
use fsl_login::{LoginFault, Users, granted, granted_by};
use fsl_text::{Memory, Text};
use fsl_wire::{Caps, Draft, read};
use std::alloc::Global;

/// What the logins of a message allow, by a file of one user.
fn granted_whole(alloc: Global, bytes: &[u8]) -> Option<Result<Caps, LoginFault>> {
    let Ok(users) = Users::read(alloc, b"alice oigx s3cret\n# bob\n") else {
        return None;
    };
    match read(alloc, bytes) {
        Ok(message) => Some(granted(&users, &message)),
        Err(_) => None,
    }
}

/// The same, settled one after another.
fn granted_in_turn(alloc: Global, bytes: &[u8]) -> Option<Result<Caps, LoginFault>> {
    let Ok(users) = Users::read(alloc, b"alice oigx s3cret\n# bob\n") else {
        return None;
    };
    match Draft::read(alloc, bytes) {
        Ok(mut draft) => Some(granted_by(&users, &mut draft)),
        Err(_) => None,
    }
}

/// A login of alice for the line behind it.
const ALICE: &[u8] =
    b"login alice 057a7bfbd78975f1bc6dde15b95e3af7a16ca86c 48452617329d0fbea98d82658220c4b531bc240f\nclone\n";

/// What alice may do.
const ALL: Caps = Caps {
    pull: true,
    push: true,
    clone: true,
    private: true,
};

/// What a login proves is the same whether all are settled first or one after another.
#[test]
fn grants_what_a_login_proves(rt: HostRuntime) {
    assert!(rt; granted_whole(rt.alloc(), ALICE) == Some(Ok(ALL)));
    assert!(rt; granted_in_turn(rt.alloc(), ALICE) == Some(Ok(ALL)));
}

/// As many login lines of somebody.
fn logins(alloc: Global, count: u64) -> Result<Text, Memory> {
    let mut text = Text::empty(alloc);
    for _ in 0..count {
        text.append(b"login bob 057a7bfbd78975f1bc6dde15b95e3af7a16ca86c x\n")?;
    }
    Ok(text)
}

#[test]
fn ends_at_the_first_of_many_logins(rt: HostRuntime) {
    let text = logins(rt.alloc(), 2_000).expect(&rt, "memory");
    assert!(rt;
        granted_in_turn(rt.alloc(), text.bytes()) == Some(Err(LoginFault::Nonce { line: 1 }))
    );
}
