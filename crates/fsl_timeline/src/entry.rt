//! Holds a row without its name.
use crate::RowKind;
use fsl_date::Moment;
use fsl_text::Text;

/// The time, the kind, the user and the text of a row.
#[derive(Drop)]
pub struct Entry {
    pub time: Moment,
    pub kind: RowKind,
    pub user: Text,
    pub text: Text,
}
