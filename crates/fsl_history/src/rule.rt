//! The rule of the table, and the view of each step. These types are for the proofs alone.
ghost use Rattle.std.specs.Prelude.{[]};

use crate::chronicle::Chronicle;
use crate::view::View;
use atomic_table::{Join, Play, Seat, Shared, Split, TableRule};
use fsl_turn::Machine;
use http_server::Log;
use std::marker::{Brand, PhantomData};

/// The words are the number of turns made and the number of tickets drawn; the slot has the machine.
pub struct Law<M> {
    of: PhantomData<M>,
}

/// The table as threads see it.
pub(crate) type Words<M, E, A> = Shared<Option<M>, View<M, E, A>, Log<M, u64>, Law<M>>;

/// The view of one user.
pub(crate) type Chair<M, E, A> = Seat<Option<M>, View<M, E, A>>;

impl<M: Machine> TableRule<Option<M>, View<M, M::Event, M::Answer>, Log<M, u64>> for Law<M> {
    ghost use Rattle.std.specs.Prelude.{[]};
    ghost use Rattle.fsl_history.specs.Rule.{Ruled, keeper};

    ghost holds = { λ key. Ruled M.may_step M.stored_count key.items };

    ghost first = { λ _. keeper 0 [] };
}

/// A pass draws a ticket.
pub(crate) struct Draws;

impl<M, E, A> Play<Option<M>, View<M, E, A>> for Draws {
    ghost use Rattle.fsl_history.specs.Plays.{drawn};

    ghost then = { drawn };
}

/// A pass that waits for a turn reads the number of turns.
pub(crate) struct Awaits;

impl<M, E, A> Play<Option<M>, View<M, E, A>> for Awaits {
    ghost use Rattle.fsl_history.specs.Plays.{awaited};

    ghost then = { awaited };
}

/// A pass takes the machine out of its slot.
pub(crate) struct Takes;

impl<M, E, A> Play<Option<M>, View<M, E, A>> for Takes {
    ghost use Rattle.fsl_history.specs.Plays.{taken};

    ghost then = { taken };
}

/// The call of a turn, by the name that its code gives it. A step at a word carries only numbers.
pub(crate) trait Call<E, A> {
    ghost use Rattle.std.specs.Prelude.{Option};

    ghost call: { Option (E × A) };
}

impl<E, A> Call<E, A> for Brand {
    ghost use Rattle.std.specs.Prelude.{None};

    ghost call = { None };
}

/// A pass gives the machine back to its slot, after the step of this call.
pub(crate) struct Gives<N> {
    of: PhantomData<N>,
}

impl<M, E, A, N: Call<E, A>> Play<Option<M>, View<M, E, A>> for Gives<N> {
    ghost use Rattle.fsl_history.specs.Plays.{given};

    ghost then = { given N.call };
}

/// A pass ends the turn, which has its entry now.
pub(crate) struct Releases<M, B> {
    of: PhantomData<(M, B)>,
}

impl<M: Machine, B: Chronicle<M>> Play<Option<M>, View<M, M::Event, M::Answer>> for Releases<M, B> {
    ghost use Rattle.fsl_history.specs.Plays.{released};

    ghost then = { released M.may_step M.stored_count B.first };
}

/// A pass without a ticket reads the number of turns.
pub(crate) struct Looks<M, B> {
    of: PhantomData<(M, B)>,
}

impl<M: Machine, B: Chronicle<M>> Play<Option<M>, View<M, M::Event, M::Answer>> for Looks<M, B> {
    ghost use Rattle.fsl_history.specs.Plays.{looked};

    ghost then = { looked M.may_step B.first };
}

/// The keeper makes one more pass.
pub(crate) struct Issues;

impl<M, E, A> Split<View<M, E, A>> for Issues {
    ghost use Rattle.fsl_history.specs.Plays.{after_issue, issued};

    ghost left = { after_issue };

    ghost right = { issued };
}

/// The keeper takes a pass back.
pub(crate) struct Gathers;

impl<M, E, A> Join<View<M, E, A>> for Gathers {
    ghost use Rattle.fsl_history.specs.declared.view.View.TheVariants.{Spent};
    ghost use Rattle.fsl_history.specs.Plays.{gathered};

    ghost both = { gathered };

    ghost spent = { Spent };
}
