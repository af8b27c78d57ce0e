//! Files, byte for byte as the format has them, made by hand outside.

/// A file of version 2. `gone` is shunned; `third` is private and was brought by `ann` in 1970; `abc` came twice; `second` was private and
/// is published, brought by a login that is empty; `back` was shunned, taken off the list and brought again by `bob` in 2020; and a name
/// is shunned that was never held.
pub(crate) const OLD: &[u8] =
    b"fossil-blobs-2\nO\0\0\0\0\0\0\x01\x01CabcdefghijklmnopqrstABCDEFGHIJKLMNOPQRST\0\0B\0\xA6\xDF\xDE\xAA:D\xA4\xC5-D(HG\xD7\x16\x08\x92\xB4\x01~\0\0\0\0\0\0\0\x04goneR\x014\xFB3\0\xB9\xA7{\xEB\xDC\x98\x8E\xC3\xED\xD0\xD4\xA6\xA4*&\xF9\0\08\x8Ao\x04`\0\0\0\0\x03ann\0\0\0\0\0\0\0\x05thirdB\0\xA9\x99>6G\x06\x81j\xBA>%qxP\xC2l\x9C\xD0\xD8\x9D\0\0\0\0\0\0\0\x03abcR\x015/x)\xA28K\0\x1C\xC1+\x0C&\x13\xC7VEJ\x1Fj\0\08\x8Ao\x04c\xE8\0\0\0\0\0\0\0\0\0\0\0\x06secondR\0a\xBB\x8D)\xB5\xBE}\xB3\x07\xCB)\0[\xFF\x08~\xBE0\x04T\0\08\x8Ao\x04`\x05\0\0\0\x03ann\0\0\0\0\0\0\0\x04backO\0\0\0\0\0\0\0TP5/x)\xA28K\0\x1C\xC1+\x0C&\x13\xC7VEJ\x1FjS\xA6\xDF\xDE\xAA:D\xA4\xC5-D(HG\xD7\x16\x08\x92\xB4\x01~S\0\0\0\0\0\0\0\0\0\0\0\0\0\0\0\0\0\0\0\0Sa\xBB\x8D)\xB5\xBE}\xB3\x07\xCB)\0[\xFF\x08~\xBE0\x04TO\0\0\0\0\0\0\0wUa\xBB\x8D)\xB5\xBE}\xB3\x07\xCB)\0[\xFF\x08~\xBE0\x04TR\0a\xBB\x8D)\xB5\xBE}\xB3\x07\xCB)\0[\xFF\x08~\xBE0\x04T\0\09\xF9\xCDkH\0\0\0\0\x03bob\0\0\0\0\0\0\0\x04backR\0\xA9\x99>6G\x06\x81j\xBA>%qxP\xC2l\x9C\xD0\xD8\x9D\0\08\x8Ao\x04`\x07\0\0\0\x04late\0\0\0\0\0\0\0\x03abcC";

/// The same without what is shunned.
pub(crate) const NEW: &[u8] =
    b"fossil-blobs-2\nO\0\0\0\0\0\0\x01\x09CabcdefghijklmnopqrstABCDEFGHIJKLMNOPQRST\0\0R\x014\xFB3\0\xB9\xA7{\xEB\xDC\x98\x8E\xC3\xED\xD0\xD4\xA6\xA4*&\xF9\0\08\x8Ao\x04`\0\0\0\0\x03ann\0\0\0\0\0\0\0\x05thirdB\0\xA9\x99>6G\x06\x81j\xBA>%qxP\xC2l\x9C\xD0\xD8\x9D\0\0\0\0\0\0\0\x03abcR\05/x)\xA28K\0\x1C\xC1+\x0C&\x13\xC7VEJ\x1Fj\0\08\x8Ao\x04c\xE8\0\0\0\0\0\0\0\0\0\0\0\x06secondR\0a\xBB\x8D)\xB5\xBE}\xB3\x07\xCB)\0[\xFF\x08~\xBE0\x04T\0\09\xF9\xCDkH\0\0\0\0\x03bob\0\0\0\0\0\0\0\x04backS\0\0\0\0\0\0\0\0\0\0\0\0\0\0\0\0\0\0\0\0S\xA6\xDF\xDE\xAA:D\xA4\xC5-D(HG\xD7\x16\x08\x92\xB4\x01~C";

/// A file of version 1 with the same artifacts but `back`, and no receipts.
pub(crate) const OLD_1: &[u8] =
    b"fossil-blobs-1\nO\0\0\0\0\0\0\0\xB5CabcdefghijklmnopqrstABCDEFGHIJKLMNOPQRST\0\0B\0\xA6\xDF\xDE\xAA:D\xA4\xC5-D(HG\xD7\x16\x08\x92\xB4\x01~\0\0\0\0\0\0\0\x04goneB\x014\xFB3\0\xB9\xA7{\xEB\xDC\x98\x8E\xC3\xED\xD0\xD4\xA6\xA4*&\xF9\0\0\0\0\0\0\0\x05thirdB\0\xA9\x99>6G\x06\x81j\xBA>%qxP\xC2l\x9C\xD0\xD8\x9D\0\0\0\0\0\0\0\x03abcB\x015/x)\xA28K\0\x1C\xC1+\x0C&\x13\xC7VEJ\x1Fj\0\0\0\0\0\0\0\x06secondO\0\0\0\0\0\0\0`P5/x)\xA28K\0\x1C\xC1+\x0C&\x13\xC7VEJ\x1FjS\xA6\xDF\xDE\xAA:D\xA4\xC5-D(HG\xD7\x16\x08\x92\xB4\x01~S\0\0\0\0\0\0\0\0\0\0\0\0\0\0\0\0\0\0\0\0B\0\xA9\x99>6G\x06\x81j\xBA>%qxP\xC2l\x9C\xD0\xD8\x9D\0\0\0\0\0\0\0\x03abcC";

/// The same without what is shunned, of version 2.
pub(crate) const NEW_1: &[u8] =
    b"fossil-blobs-2\nO\0\0\0\0\0\0\0\xBDCabcdefghijklmnopqrstABCDEFGHIJKLMNOPQRST\0\0B\x014\xFB3\0\xB9\xA7{\xEB\xDC\x98\x8E\xC3\xED\xD0\xD4\xA6\xA4*&\xF9\0\0\0\0\0\0\0\x05thirdB\0\xA9\x99>6G\x06\x81j\xBA>%qxP\xC2l\x9C\xD0\xD8\x9D\0\0\0\0\0\0\0\x03abcB\05/x)\xA28K\0\x1C\xC1+\x0C&\x13\xC7VEJ\x1Fj\0\0\0\0\0\0\0\x06secondS\0\0\0\0\0\0\0\0\0\0\0\0\0\0\0\0\0\0\0\0S\xA6\xDF\xDE\xAA:D\xA4\xC5-D(HG\xD7\x16\x08\x92\xB4\x01~C";

/// A Config, and `abc` in a group of its own, brought in 1970 by a login that is empty: 122 bytes.
pub(crate) const ROW: &[u8] =
    b"fossil-blobs-2\nO\0\0\0\0\0\0\0+C\x11\x11\x11\x11\x11\x11\x11\x11\x11\x11\x11\x11\x11\x11\x11\x11\x11\x11\x11\x11\"\"\"\"\"\"\"\"\"\"\"\"\"\"\"\"\"\"\"\"\0\0O\0\0\0\0\0\0\0-R\0\xA9\x99>6G\x06\x81j\xBA>%qxP\xC2l\x9C\xD0\xD8\x9D\0\08\x8Ao\x04`\0\0\0\0\0\0\0\0\0\0\0\0\x03abcC";

/// The same with `abc` shunned: 152 bytes.
pub(crate) const ROW_SHUNNED: &[u8] =
    b"fossil-blobs-2\nO\0\0\0\0\0\0\0+C\x11\x11\x11\x11\x11\x11\x11\x11\x11\x11\x11\x11\x11\x11\x11\x11\x11\x11\x11\x11\"\"\"\"\"\"\"\"\"\"\"\"\"\"\"\"\"\"\"\"\0\0O\0\0\0\0\0\0\0-R\0\xA9\x99>6G\x06\x81j\xBA>%qxP\xC2l\x9C\xD0\xD8\x9D\0\08\x8Ao\x04`\0\0\0\0\0\0\0\0\0\0\0\0\x03abcO\0\0\0\0\0\0\0\x15S\xA9\x99>6G\x06\x81j\xBA>%qxP\xC2l\x9C\xD0\xD8\x9DC";

/// That file scrubbed: 89 bytes.
pub(crate) const ROW_NEW: &[u8] =
    b"fossil-blobs-2\nO\0\0\0\0\0\0\0@C\x11\x11\x11\x11\x11\x11\x11\x11\x11\x11\x11\x11\x11\x11\x11\x11\x11\x11\x11\x11\"\"\"\"\"\"\"\"\"\"\"\"\"\"\"\"\"\"\"\"\0\0S\xA9\x99>6G\x06\x81j\xBA>%qxP\xC2l\x9C\xD0\xD8\x9DC";
