//! Messages whose logins wait for their tails.
ghost use Rattle.std.specs.Prelude.{◌≡◌, ◌<◌, ◌≤◌, ◌+◌, max, length, drop, slice_index_or};
ghost use Rattle.fsl_wire.specs.declared.WireCard.{WireCard as Card};
ghost use Rattle.fsl_wire.specs.Drafts.{with_tail, with_tails, is_login, first_bytes};

use crate::{Message, WireCard};
use fsl_name::Name;
use fsl_text::List;
use std::marker::Model;

/// A message that was read, whose logins wait for their tails. Contracts see the complete message, and the number of its first
/// cards that are settled. A settled login has its tail. To settle a login costs one hash of all bytes behind its line.
#[derive(Drop)]
pub struct Draft<'a> {
    cards: Vec<WireCard>,
    // The bytes behind the line of each login, in order.
    behind: Vec<&'a [u8]>,
    settled: usize,
    // The number of logins among the settled cards.
    logins: usize,
}

impl<'a> Model for Draft<'a> {
    ghost use Rattle.std.specs.Prelude.{◌≤◌, length};
    ghost use Rattle.fsl_wire.specs.Drafts.{Drafted, drafted};

    ghost Value = { Drafted };

    ghost view = { λ d. record { message = drafted d.cards.items d.behind.items d.settled d.logins; settled = d.settled } };

    ghost invariant = { λ d. (d.settled ≤ length d.cards.items) × (d.logins ≤ d.settled) };
}

/// Returns whether a card is a login.
pub(crate) fn is_login(card: &WireCard) -> bool
    ensures { result ≡ is_login card.now }
{
    matches!(card, WireCard::Login { .. })
}

/// Gives a login its tail, and returns whether the card is a login.
fn settle_card(card: &mut WireCard, behind: &[u8]) -> bool
    ensures card { card.new ≡ with_tail behind.now card.old }
    ensures login { result ≡ is_login card.old }
{
    match card {
        WireCard::Login { tail, .. } => {
            tail.set(Name::of(behind));
            true
        }
        _ => false,
    }
}

/// Returns the bytes behind the login that comes after so many, or none if no login does.
fn behind_next<'a>(behind: &[&'a [u8]], logins: usize) -> &'a [u8]
    ensures { result.now ≡ first_bytes (drop logins behind.now) }
{
    match behind.get(logins) {
        Some(bytes) => bytes,
        None => &[],
    }
}

impl<'a> Draft<'a> {
    /// Makes the draft of cards and of the bytes behind the line of each login. Nothing is settled.
    pub(crate) fn of(cards: Vec<WireCard>, behind: Vec<&'a [u8]>) -> Draft<'a>
        ensures message { result.message ≡ with_tails cards.items behind.entry.items }
        ensures none { result.settled ≡ 0 }
    {
        Draft {
            cards,
            behind,
            settled: 0,
            logins: 0,
        }
    }

    /// Returns the number of cards of the message. No more are settled.
    pub fn len(&self) -> usize
        ensures count { result ≡ length self.now.message }
        ensures within { self.now.settled ≤ length self.now.message }
    {
        self.cards.len()
    }

    /// Settles the card at a place, counted from 0, unless it is settled. The cards before it must be settled.
    pub fn settle(&mut self, place: usize)
        requires next { place ≤ self.old.settled }
        requires within { place < length self.old.message }
        ensures message { self.new.message ≡ self.old.message }
        ensures settled { self.new.settled ≡ max self.old.settled (place + 1) }
    {
        if place == self.settled {
            let behind = behind_next(&self.behind, self.logins);
            let login = settle_card(&mut self.cards[place], behind);
            self.logins += usize::from(login);
            self.settled += 1;
        }
    }

    /// Returns the settled card at a place, counted from 0.
    pub fn card(&self, place: usize) -> &WireCard
        requires { place < self.now.settled }
        ensures { (d : Card) → result.now ≡ slice_index_or self.now.message place d }
    {
        &self.cards[place]
    }

    /// Returns the message. It settles the cards that aren't settled yet, and takes no memory.
    pub fn into_message(mut self) -> Message
        ensures { result ≡ self.entry.message }
    {
        for place in 0..self.len() {
            self.settle(place);
        }
        let cards = self.cards;
        Message::of(List::from_vec(cards))
    }
}
