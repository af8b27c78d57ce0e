//! Messages, read and written: what no answer of a server shows. Digits are those of `sha1sum`.
use fsl_name::Name;
use fsl_text::{List, Memory, Text};
use fsl_wire::{Draft, Message, WireCard, line_of, read, read_bare, write};
use std::alloc::Global;

/// The tail of the login that is the first of two cards, once it is settled; the message has the same.
fn tail_of_first(alloc: Global, bytes: &[u8]) -> Option<Name> {
    let Ok(mut draft) = Draft::read(alloc, bytes) else {
        return None;
    };
    if draft.len() != 2 {
        return None;
    }
    draft.settle(0);
    let tail = login_tail(draft.card(0));
    let message = draft.into_message();
    if login_tail(&message.cards()[0]) == tail {
        tail
    } else {
        None
    }
}

fn login_tail(card: &WireCard) -> Option<Name> {
    match card {
        WireCard::Login { tail, .. } => Some(*tail.get()),
        _ => None,
    }
}

#[test]
fn settles_a_login(rt: HostRuntime) {
    let want = Name::read(b"057a7bfbd78975f1bc6dde15b95e3af7a16ca86c");
    assert!(rt; tail_of_first(rt.alloc(), b"login u n s\nclone\n") == want.ok());
    assert!(rt; tail_of_first(rt.alloc(), b"clone\nlogin u n s\n") == None);
}

/// The tail of the first card of a bare message.
fn bare_tail(alloc: Global, bytes: &[u8]) -> Option<Name> {
    match read_bare(alloc, bytes) {
        Ok(message) => match message.cards().first() {
            Some(card) => login_tail(card),
            None => None,
        },
        Err(_) => None,
    }
}

/// So many lines of a login.
fn login_lines(alloc: Global, count: u64) -> Result<Text, Memory> {
    let mut text = Text::empty(alloc);
    for _ in 0..count {
        text.append(b"login u n s\n")?;
    }
    Ok(text)
}

/// How many cards that many logins are, read bare. With a hash behind each line this would take their square.
fn bare_logins(alloc: Global, count: u64) -> Option<usize> {
    let Ok(text) = login_lines(alloc, count) else {
        return None;
    };
    match read_bare(alloc, text.bytes()) {
        Ok(message) => Some(message.cards().len()),
        Err(_) => None,
    }
}

#[test]
fn reads_bare_logins(rt: HostRuntime) {
    let none = Name::read(b"da39a3ee5e6b4b0d3255bfef95601890afd80709");
    assert!(rt; bare_tail(rt.alloc(), b"login u n s\nclone\n") == none.ok());
    assert!(rt; bare_tail(rt.alloc(), b"clone\nlogin u n s\n") == None);
    assert!(rt; bare_logins(rt.alloc(), 20_000) == Some(20_000));
}

/// The line of the second card, where there is one.
fn second_line(alloc: Global, bytes: &[u8]) -> Option<u64> {
    let Ok(message) = read(alloc, bytes) else {
        return None;
    };
    if message.cards().len() < 2 {
        return None;
    }
    Some(line_of(bytes, 1))
}

#[test]
fn tells_the_line_of_a_card(rt: HostRuntime) {
    let bytes =
        b"file a9993e364706816aba3e25717850c26c9cd0d89d 3\nabc\nigot 86f7e437faa5a7fce15d1ddcb9eaeaea377667b8\n";
    assert_eq!(rt; second_line(rt.alloc(), bytes), Some(3));
}

/// The text of a message of one file.
fn written(alloc: Global, bytes: &[u8]) -> Result<Text, Memory> {
    let mut cards = List::new(alloc);
    let card = WireCard::File {
        name: Name::of(bytes),
        bytes: Text::of(alloc, bytes)?,
    };
    match cards.push(card) {
        Ok(()) => write(alloc, &Message::of(cards)),
        Err(_) => Err(Memory),
    }
}

#[test]
fn writes_a_file(rt: HostRuntime) {
    let text = written(rt.alloc(), b"abc").expect(&rt, "memory");
    assert_eq!(rt;
        text.bytes(),
        b"file a9993e364706816aba3e25717850c26c9cd0d89d 3\nabc\n".as_slice()
    );
}
