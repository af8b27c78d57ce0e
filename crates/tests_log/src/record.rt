//! Records that are read. How they are written is shown by the files of transcripts.
use fsl_name::Name;
use fsl_record::*;
use std::alloc::Global;

/// A Config with two fields.
const CONFIG: &[u8] = b"CabcdefghijklmnopqrstABCDEFGHIJKLMNOPQRST\x00\x02\x06status\x03a_1";

fn are_four(records: &[Record]) -> bool {
    let abc = Name::of(b"abc");
    match records {
        [
            Record::Blob {
                private: true,
                name: first,
                receipt: None,
                bytes,
            },
            Record::Publish { name: second },
            Record::Blob { private: false, .. },
            Record::Shun { name: last },
        ] => {
            *first == abc && bytes.bytes() == b"abc".as_slice() && *second == abc && *last == abc
        }
        _ => false,
    }
}

/// A private blob, its publication, a blob and a shunning.
const LATER: &[u8] =
    b"B\x01\xA9\x99>6G\x06\x81j\xBA>%qxP\xC2l\x9C\xD0\xD8\x9D\x00\x00\x00\x00\x00\x00\x00\x03abcP\xA9\x99>6G\x06\x81j\xBA>%qxP\xC2l\x9C\xD0\xD8\x9DB\x00\xA9\x99>6G\x06\x81j\xBA>%qxP\xC2l\x9C\xD0\xD8\x9D\x00\x00\x00\x00\x00\x00\x00\x03abcS\xA9\x99>6G\x06\x81j\xBA>%qxP\xC2l\x9C\xD0\xD8\x9D";

/// Whether a Config has the two fields, and its copy all that it has.
fn has_fields(config: &Config, copy: &Config) -> bool {
    copy.project == config.project
        && copy.server == config.server
        && copy.fields.items() == config.fields.items()
        && config.fields.items().len() == 2
}

fn is_config_of_two(alloc: Global, records: &[Record]) -> bool {
    match records {
        [Record::Config(config)] => {
            config
                .copied(alloc)
                .is_ok_and(|copy| has_fields(config, &copy))
        }
        _ => false,
    }
}

/// A blob with the receipt of `ann` at the last moment of the year 9999, and an Unshun.
const RECEIVED: &[u8] =
    b"R\x00\xA9\x99>6G\x06\x81j\xBA>%qxP\xC2l\x9C\xD0\xD8\x9D\x00\x01\x1F\x02A$;\xFF\x00\x00\x00\x03ann\x00\x00\x00\x00\x00\x00\x00\x03abcU\xA9\x99>6G\x06\x81j\xBA>%qxP\xC2l\x9C\xD0\xD8\x9D";

fn are_received(alloc: Global, records: &[Record]) -> bool {
    match records {
        [
            Record::Blob {
                private: false,
                receipt: Some(receipt),
                bytes,
                ..
            },
            Record::Unshun { name },
        ] => {
            *name == Name::of(b"abc")
                && bytes.bytes() == b"abc".as_slice()
                && receipt.login() == b"ann".as_slice()
                && receipt.moment().ms() == 253_402_300_799_999
                && receipt
                    .copied(alloc)
                    .is_ok_and(|copy| copy.login() == receipt.login())
        }
        _ => false,
    }
}

/// Version 2 has receipts and Unshun, and version 1 doesn't.
#[test]
fn reads_receipts(rt: HostRuntime) {
    let read = group(rt.alloc(), RECEIVED, false, 2);
    assert!(rt; read.is_ok_and(|records| are_received(rt.alloc(), records.items())));
    let old = group(rt.alloc(), RECEIVED, false, 1);
    assert!(rt; old.is_err_and(|fault| fault == RecordFault::Kind { found: b'R' }));
}

/// The records of a later group, and those of a first one. What a file is refused for is shown by transcripts.
#[test]
fn reads_groups(rt: HostRuntime) {
    written_reads_back();
    is_one_group();
    has_no_fault();
    has_one_fault();
    let later = group(rt.alloc(), LATER, false, 1);
    assert!(rt; later.is_ok_and(|records| are_four(records.items())));
    let first = group(rt.alloc(), CONFIG, true, 1);
    assert!(rt; first.is_ok_and(|records| is_config_of_two(rt.alloc(), records.items())));
}
