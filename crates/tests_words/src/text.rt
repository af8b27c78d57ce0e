ghost use Rattle.std.specs.Prelude.{◌≡◌, ◌<◌};

use fsl_text::*;
use std::alloc::Global;
use std::cmp::Ordering;
use std::marker::Brand;
use std::sync::ledger::{Blank, Ledger};

#[test]
fn writes_and_reads_escapes(rt: HostRuntime) -> Result<(), Memory> {
    let bytes = b" \n\\\t\r\x0B\x0C\0";
    let text = escape(rt.alloc(), bytes)?;
    assert_eq!(rt; text.bytes(), b"\\s\\n\\\\\\t\\r\\v\\f\\0".as_slice());
    let again = unescape(rt.alloc(), text.bytes())?;
    assert_eq!(rt; again.bytes(), bytes.as_slice());
    Ok(())
}

#[test]
fn reads_decimals_and_paths(rt: HostRuntime) {
    assert_eq!(rt; decimal(b"0018446744073709551615"), Ok(u64::MAX));
    assert_eq!(rt; decimal(b"18446744073709551616"), Err(DecimalFault::Range));
    assert_eq!(rt;
        decimal(b"99999999999999999999a"),
        Err(DecimalFault::Digit { at: 20 })
    );
    assert_eq!(rt; decimal(b""), Err(DecimalFault::Empty));
    assert_eq!(rt; (path_ok(b"a/..b/.c"), path_ok(b"a/../b")), (true, false));
}

/// Where the tokens of a line begin and end.
fn spans(alloc: Global, line: &[u8]) -> Result<Vec<u64>, Memory> {
    let mut spans = Vec::new(alloc);
    for span in tokens(alloc, line)?.items() {
        spans.push(span.from)?;
        spans.push(span.to)?;
    }
    Ok(spans)
}

#[test]
fn finds_tokens(rt: HostRuntime) -> Result<(), Memory> {
    let found = spans(rt.alloc(), b" file \t a  3\r")?;
    assert_eq!(rt; found.as_slice(), [1, 5, 8, 9, 11, 12].as_slice());
    Ok(())
}

/// Appends to a text, and appends an escape.
fn grow(text: &mut Text) -> Result<(), Memory> {
    text.append(b"ab")?;
    text.append(b"c")?;
    escape_into(text, b" d")
}

#[test]
fn keeps_texts(rt: HostRuntime) -> Result<(), Memory> {
    let copy = Text::of(rt.alloc(), b"abc")?;
    let longer = Text::of(rt.alloc(), b"abcd")?;
    let mut text = Text::empty(rt.alloc());
    grow(&mut text)?;
    assert_eq!(rt; text.bytes(), b"abc\\sd".as_slice());
    text.truncate(3);
    let order = (text == copy, text.cmp(&copy), text < longer);
    assert_eq!(rt; order, (true, Ordering::Equal, true));
    Ok(())
}

#[test]
fn keeps_lists(rt: HostRuntime) {
    let mut list: List<u32> = List::new(rt.alloc());
    let pushed = (list.push(7), list.push(8));
    let list = List::from_vec(list.into_vec());
    assert_eq!(rt;
        (pushed, list.items()),
        ((Ok(()), Ok(())), [7, 8].as_slice())
    );
}

fn counted<L: Ledger>(blank: Blank) -> bool
    requires name { blank.name ≡ L.name }
    requires parts { blank.parts ≡ L.parts }
    requires counts { 0 < L.parts }
{
    let mut steps: Steps<L> = Steps::new(blank);
    steps.tick();
    steps.tick();
    true
}

#[test]
fn counts_steps(rt: HostRuntime) {
    assert!(rt; counted::<Brand>(Blank::new(1)));
    unescapes_escaped();
    tokens_at_spans();
}
