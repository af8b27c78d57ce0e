//! A machine in the slot of a table, before any pass is made.
ghost use Rattle.std.specs.Prelude.{◌≡◌, ℕ, [], ◌∷◌, map, length, IfOk, IfErr};
ghost use Rattle.fsl_history.specs.declared.view.View.TheVariants as view;
ghost use Rattle.fsl_history.specs.Entries.{IsClosed};
ghost use Rattle.fsl_history.specs.Rule.{back_in};

use crate::rule::{Chair, Law};
use crate::view::View;
use atomic_table::{Refused, Table};
use fsl_turn::Machine;
use http_server::Log;
use std::alloc::Global;

/// The table of a machine.
pub(crate) type Desk<M, E, A> = Table<Option<M>, View<M, E, A>, Log<M, u64>, Law<M>, Global>;

/// A machine in its slot, with no pass yet. Its table has a name, and its passes will have the same.
pub struct Housed<M: Machine> {
    pub(crate) table: Desk<M, M::Event, M::Answer>,
    pub(crate) seat: Chair<M, M::Event, M::Answer>,
    /// The machine's count.
    pub(crate) began: u64,
    ghost sized: { (table.shared.table_id.words ≡ 2) × (table.shared.table_id.slots ≡ 1) },
    ghost tied: { seat.table_id ≡ table.shared.table_id },
    ghost counted: { map (λ b. b.1) table.shared.key.items ≡ began ∷ [] },
    ghost fresh: { (seat.id ≡ 0) × (seat.me ≡ (view.Keeper 0 [], [])) },
}

impl<M: Machine> Housed<M> {
    /// Puts the machine in the slot of a new table. Fails only if out of memory, and then gives the machine back as it was.
    pub fn new(alloc: Global, machine: M) -> Result<Housed<M>, M>
        ensures born { IfOk result (λ h. map (λ b. b.0) h.table.shared.key.items ≡ machine ∷ []) }
        ensures refused { IfErr result (λ m. m ≡ machine) }
    {
        let began = machine.stored();
        let key = Log::new().and(&machine, &began);
        let Ok(mut slots) = Vec::with_capacity(alloc, 1) else {
            return Err(machine);
        };
        slots.push_reserved(Some(machine));
        match Table::new(alloc, &[0, 0], slots, &key) {
            Ok((table, seat)) => Ok(Housed { table, seat, began }),
            Err(Refused { mut slots }) => {
                let machine = slots.pop();
                slots.destroy_empty();
                Err(machine.unwrap().unwrap())
            }
        }
    }

    /// Takes the machine out again, as it came.
    pub fn into_machine(self) -> M
        ensures { map (λ b. b.0) self.table.shared.key.items ≡ result ∷ [] }
    {
        let Housed {
            table,
            seat,
            began: _,
        } = self;
        emptied::<M>(table, seat)
    }
}

/// Takes the machine out, once all passes came back.
pub(crate) fn emptied<M: Machine>(
    table: Desk<M, M::Event, M::Answer>,
    seat: Chair<M, M::Event, M::Answer>,
) -> M
    requires table { (seat.table_id ≡ table.shared.table_id) × (table.shared.table_id.slots ≡ 1) }
    requires all { (made : ℕ) × (back : _) × (length back ≡ made) × (seat.id ≡ 0) × (seat.me ≡ (view.Keeper made back, [])) }
    ensures { IsClosed M.may_step M.stored_count table.shared.key.items (back_in seat.me.0) result }
{
    let mut closed = table.close_with(seat);
    let slot = closed.take(0);
    closed.free();
    slot.unwrap()
}
