//! The views of the seats at the table. No value of these types is made.
use std::collections::LinkedList;

/// A pass's view of the history, and its own calls in it.
pub struct Tale<E, A> {
    /// The number of the pass.
    pub number: u64,
    /// The beginning of the history as the pass has seen it: the pass, the event and the answer of each turn.
    pub seen: LinkedList<(u64, E, A)>,
    /// Its own calls.
    pub mine: LinkedList<(E, A)>,
    /// The rise of the machine's count in its turns.
    pub share: u64,
}

/// The stage of a pass.
pub enum Stage<M, E, A> {
    /// It has no ticket.
    Idle,
    /// It has this ticket.
    Waits(u64),
    /// It has this ticket, and as many turns were made.
    Serves(u64),
    /// The pass took the machine out in this state.
    Holds(u64, M),
    /// It gave the machine back after this step, which has no entry yet.
    Ahead(u64, E, A),
}

/// The view of a seat.
pub enum View<M, E, A> {
    /// The seat that makes the passes and takes them back: the number of passes made, and the views of those that came back.
    Keeper(u64, LinkedList<Tale<E, A>>),
    /// A pass, with the number of turns that it may still make.
    Pass(Tale<E, A>, u64, Stage<M, E, A>),
    /// A seat that was joined.
    Spent,
}
