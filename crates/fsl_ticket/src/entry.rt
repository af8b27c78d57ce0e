//! Holds a ticket change without its name.
use crate::FieldChange;
use fsl_date::Moment;
use fsl_name::Name;
use fsl_text::List;

/// The date of a change, the id of its ticket, and its J cards.
#[derive(Drop)]
pub struct Entry {
    pub date: Moment,
    pub id: Name,
    pub changes: List<FieldChange>,
}
