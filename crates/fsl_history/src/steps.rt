//! Makes the steps of a turn.
ghost use Rattle.std.specs.Prelude.{◌≡◌, ℕ, ◌-◌, ◌<◌, Some};
ghost use Rattle.fsl_history.specs.declared.view.Stage.TheVariants as at;
ghost use Rattle.fsl_history.specs.Plays.{sat, HasOut, HasStepped, GoesAhead, EndsTurn, MakesTurn, HasLooked};

use crate::chronicle::Chronicle;
use crate::rule::{Awaits, Call, Chair, Draws, Gives, Looks, Releases, Takes};
use crate::ticketed::Ticketed;
use fsl_turn::{Machine, step_uncounted};
use std::hint::spin_loop;
use std::marker::Brand;
use std::sync::Wait;

/// The word that counts the turns made.
const TURN: usize = 0;

/// The word that counts the tickets drawn.
const TICKET: usize = 1;

impl<M: Machine, B: Chronicle<M>> Ticketed<M, B> {
    /// Draws a ticket.
    fn draw(&self, chair: &mut Chair<M, M::Event, M::Answer>) -> u64
        requires table { chair.old.table_id ≡ self.now.table.shared.table_id }
        requires idle { (t : _) × (left : ℕ) × (0 < left) × (chair.old.me ≡ sat t left at.Idle) }
        ensures table { (chair.new.table_id ≡ chair.old.table_id) × (chair.new.id ≡ chair.old.id) }
        ensures waits { (t : _) (left : ℕ) → chair.old.me ≡ sat t left at.Idle → chair.new.me ≡ sat t (left - 1) (at.Waits result) }
    {
        self.table.shared.fetch_add::<Draws>(chair, TICKET, 1)
    }

    /// Waits until as many turns were made as the ticket says. They were when it was drawn, since no other pass had a ticket
    /// then. No clause says so, and so it looks.
    fn wait<R: Wait>(&self, rt: &R, chair: &mut Chair<M, M::Event, M::Answer>, ticket: u64)
        requires table { chair.old.table_id ≡ self.now.table.shared.table_id }
        requires waits { (t : _) × (left : ℕ) × (chair.old.me ≡ sat t left (at.Waits ticket)) }
        ensures table { (chair.new.table_id ≡ chair.old.table_id) × (chair.new.id ≡ chair.old.id) }
        ensures serves { (t : _) (left : ℕ) → chair.old.me ≡ sat t left (at.Waits ticket) → chair.new.me ≡ sat t left (at.Serves ticket) }
    {
        for _round in rt.forever() {
            let turn = self.table.shared.load::<Awaits>(chair, TURN);
            if turn == ticket {
                return;
            }
            spin_loop();
        }
        unreachable!()
    }

    /// Takes the machine, which stays in its place.
    fn take(&self, chair: &mut Chair<M, M::Event, M::Answer>, ticket: u64)
        requires table { chair.old.table_id ≡ self.now.table.shared.table_id }
        requires serves { (t : _) × (left : ℕ) × (chair.old.me ≡ sat t left (at.Serves ticket)) }
        ensures table { (chair.new.table_id ≡ chair.old.table_id) × (chair.new.id ≡ chair.old.id) }
        ensures out { (t : _) (left : ℕ) → chair.old.me ≡ sat t left (at.Serves ticket) → HasOut ticket t left chair.new.me }
    {
        self.table.shared.load::<Takes>(chair, TURN);
    }

    /// Makes the step of an event, on the machine in its place.
    fn work(
        &self,
        chair: &mut Chair<M, M::Event, M::Answer>,
        ticket: u64,
        event: &M::Event,
    ) -> M::Answer
        requires table { chair.old.table_id ≡ self.now.table.shared.table_id }
        requires out { (t : _) × (left : ℕ) × HasOut ticket t left chair.old.me }
        ensures table { (chair.new.table_id ≡ chair.old.table_id) × (chair.new.id ≡ chair.old.id) }
        ensures stepped { (t : _) (left : ℕ) → HasOut ticket t left chair.old.me → HasStepped M.may_step ticket t left event.now result chair.new.me }
    {
        match chair.slot_mut(&self.table.shared, 0) {
            Some(machine) => step_uncounted(machine, event),
            None => unreachable!(),
        }
    }

    /// Gives the machine back, after its step.
    fn give<N: Call<M::Event, M::Answer>>(
        &self,
        chair: &mut Chair<M, M::Event, M::Answer>,
        ticket: u64,
    )
        requires table { chair.old.table_id ≡ self.now.table.shared.table_id }
        requires stepped { (t : _) × (left : ℕ) × (e : _) × (a : _) × (N.call ≡ Some (e, a)) × HasStepped M.may_step ticket t left e a chair.old.me }
        ensures table { (chair.new.table_id ≡ chair.old.table_id) × (chair.new.id ≡ chair.old.id) }
        ensures ahead { (t : _) (left : ℕ) (e : _) (a : _) → N.call ≡ Some (e, a) → GoesAhead M.may_step ticket t left e a chair.old.me chair.new.me }
    {
        self.table.shared.load::<Gives<N>>(chair, TURN);
    }

    /// Ends the turn.
    fn release(&self, chair: &mut Chair<M, M::Event, M::Answer>, ticket: u64)
        requires table { chair.old.table_id ≡ self.now.table.shared.table_id }
        requires ahead { (t : _) × (left : ℕ) × (e : M.Event) × (a : M.Answer) × (chair.old.me ≡ sat t left (at.Ahead ticket e a)) }
        ensures table { (chair.new.table_id ≡ chair.old.table_id) × (chair.new.id ≡ chair.old.id) }
        ensures called { (t : _) (left : ℕ) (e : _) (a : _) → EndsTurn M.may_step M.stored_count B.first t left ticket e a chair.old.me chair.new.me }
    {
        self.table
            .shared
            .fetch_add::<Releases<M, B>>(chair, TURN, 1);
    }

    /// Makes the whole turn.
    pub(crate) fn step<R: Wait>(
        &self,
        rt: &R,
        chair: &mut Chair<M, M::Event, M::Answer>,
        event: &M::Event,
    ) -> M::Answer
        requires table { chair.old.table_id ≡ self.now.table.shared.table_id }
        requires idle { (t : _) × (left : ℕ) × (0 < left) × (chair.old.me ≡ sat t left at.Idle) }
        ensures table { (chair.new.table_id ≡ chair.old.table_id) × (chair.new.id ≡ chair.old.id) }
        ensures called { (t : _) (left : ℕ) → MakesTurn M.may_step M.stored_count B.first t left event.now result chair.old.me chair.new.me }
    {
        let lane = self.lane.enter(rt);
        let ticket = self.draw(chair);
        self.wait(rt, chair, ticket);
        self.take(chair, ticket);
        let answer = self.work(chair, ticket, event);
        self.give_after(chair, ticket, event, &answer);
        self.release(chair, ticket);
        drop(lane);
        answer
    }

    /// Gives the machine back after the step of this event, which had this answer.
    fn give_after(
        &self,
        chair: &mut Chair<M, M::Event, M::Answer>,
        ticket: u64,
        event: &M::Event,
        answer: &M::Answer,
    )
        requires table { chair.old.table_id ≡ self.now.table.shared.table_id }
        requires stepped { (t : _) × (left : ℕ) × HasStepped M.may_step ticket t left event.now answer.now chair.old.me }
        ensures table { (chair.new.table_id ≡ chair.old.table_id) × (chair.new.id ≡ chair.old.id) }
        ensures ahead { (t : _) (left : ℕ) → GoesAhead M.may_step ticket t left event.now answer.now chair.old.me chair.new.me }
    {
        self.give_as::<Brand>(chair, ticket, event, answer);
    }

    /// Gives the machine back after the step of a call with a name.
    fn give_as<N: Call<M::Event, M::Answer>>(
        &self,
        chair: &mut Chair<M, M::Event, M::Answer>,
        ticket: u64,
        event: &M::Event,
        answer: &M::Answer,
    )
        requires call { N.call ≡ Some (event.now, answer.now) }
        requires table { chair.old.table_id ≡ self.now.table.shared.table_id }
        requires stepped { (t : _) × (left : ℕ) × HasStepped M.may_step ticket t left event.now answer.now chair.old.me }
        ensures table { (chair.new.table_id ≡ chair.old.table_id) × (chair.new.id ≡ chair.old.id) }
        ensures ahead { (t : _) (left : ℕ) → GoesAhead M.may_step ticket t left event.now answer.now chair.old.me chair.new.me }
    {
        self.give::<N>(chair, ticket);
    }

    /// Reads how many turns were made.
    pub(crate) fn count(&self, chair: &mut Chair<M, M::Event, M::Answer>) -> u64
        requires table { chair.old.table_id ≡ self.now.table.shared.table_id }
        requires idle { (t : _) × (left : ℕ) × (chair.old.me ≡ sat t left at.Idle) }
        ensures table { (chair.new.table_id ≡ chair.old.table_id) × (chair.new.id ≡ chair.old.id) }
        ensures shown { (t : _) (left : ℕ) → chair.old.me ≡ sat t left at.Idle → HasLooked M.may_step B.first t left result chair.new.me }
    {
        self.table.shared.load::<Looks<M, B>>(chair, TURN)
    }
}
