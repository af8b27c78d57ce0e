//! The messages and digests of the standard of MD5.
use fsl_card::finish;
use fsl_text::{Memory, Text};
use std::alloc::Global;

/// The messages of RFC 1321 and what `finish` leaves of them.
const FINISHED: [(&[u8], &[u8]); 7] = [
    (b"", b"Z d41d8cd98f00b204e9800998ecf8427e\n"),
    (b"a", b"aZ 0cc175b9c0f1b6a831c399e269772661\n"),
    (b"abc", b"abcZ 900150983cd24fb0d6963f7d28e17f72\n"),
    (
        b"message digest",
        b"message digestZ f96b697d7cb7938d525a2f31aaf161d0\n",
    ),
    (
        b"abcdefghijklmnopqrstuvwxyz",
        b"abcdefghijklmnopqrstuvwxyzZ c3fcd3d76192e4007dfb496cca67e13b\n",
    ),
    (
        b"ABCDEFGHIJKLMNOPQRSTUVWXYZabcdefghijklmnopqrstuvwxyz0123456789",
        b"ABCDEFGHIJKLMNOPQRSTUVWXYZabcdefghijklmnopqrstuvwxyz0123456789Z d174ab98d277d9f5a5611c2c9f419d9f\n",
    ),
    (
        b"12345678901234567890123456789012345678901234567890123456789012345678901234567890",
        b"12345678901234567890123456789012345678901234567890123456789012345678901234567890Z 57edf4a22be3c955ac49da2e2107b67a\n",
    ),
];

/// They stand behind a call without a contract, which keeps them out of the proofs of the tests.
fn finished() -> &'static [(&'static [u8], &'static [u8])] {
    &FINISHED
}

/// Lines with the Z card behind them.
fn finish_lines(alloc: Global, lines: &[u8]) -> Result<Text, Memory> {
    let mut text = Text::of(alloc, lines)?;
    finish(&mut text)?;
    Ok(text)
}

#[test]
fn finishes_lines(rt: HostRuntime) -> Result<(), Memory> {
    for (row, (lines, sealed)) in finished().iter().enumerate() {
        let text = finish_lines(rt.alloc(), *lines)?;
        assert_eq!(rt; text.bytes(), *sealed, "row {row}");
    }
    Ok(())
}
