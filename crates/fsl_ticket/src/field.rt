//! Names a field of a ticket.
ghost use Rattle.std.specs.Prelude.{◌≡◌};
ghost use Rattle.fsl_ticket.specs.FieldOrder.{exact_field};

use fsl_name::Name;
use fsl_table::Key;
use fsl_text::Text;

/// The id of a ticket, and the name of a field. Fields are ordered by both.
#[derive(Drop, PartialEq, Eq, PartialOrd, Ord)]
pub struct TicketField {
    pub id: Name,
    pub field: Text,
}

impl Key for TicketField {
    ghost exact = { exact_field };
}
