//! Tells proofs how long the names of a record are.
ghost use Rattle.fsl_record.specs.Receipts.{IsReceiptOr};
ghost use Rattle.fsl_record.specs.Records.{HasNames, HasReceipt};
ghost use Rattle.fsl_record.specs.declared.Record.TheVariants.{Config as ConfigRecord};

use fsl_record::{Config, Receipt, Record};

/// The codes of a repository have 20 bytes, which their type keeps.
pub(crate) fn know_codes(config: &Config)
    ensures { HasNames (ConfigRecord config.now) }
{
    let _ = config.project.bytes();
    let _ = config.server.bytes();
}

/// A receipt's login has at most 2^20 bytes and its moment is one, which its type keeps.
fn know_receipt(receipt: &Option<Receipt>)
    ensures { IsReceiptOr receipt.now }
{
    if let Some(receipt) = receipt {
        let _ = receipt.login();
        let _ = receipt.moment();
    }
}

/// Names and codes have 20 bytes, which their type keeps, and so does a receipt's.
pub(crate) fn know_names(entry: &Record)
    ensures names { HasNames entry.now }
    ensures receipt { HasReceipt entry.now }
{
    match entry {
        Record::Config(config) => know_codes(config),
        Record::Blob { name, receipt, .. } => {
            let _ = name.bytes();
            know_receipt(receipt);
        }
        Record::Publish { name } | Record::Shun { name } | Record::Unshun { name } => {
            let _ = name.bytes();
        }
    }
}
