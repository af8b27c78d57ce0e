//! Makes the events of a message, and reads their answers.
ghost use Rattle.std.specs.Prelude.{◌≡◌, [], ◌∷◌, ◌++◌, true, false, IfOk, OnOk, OnErr, IsTrue, filter_map, option_to_list, option_map};
ghost use Rattle.std.specs.Result.{result_err};
ghost use Rattle.std.specs.List.{list_any};
ghost use Rattle.fsl_answer.specs.Refusals.{is_push};
ghost use Rattle.fsl_answer.specs.Contents.{is_pull};
ghost use Rattle.fsl_repo.specs.declared.Event.TheVariants as event;
ghost use Rattle.fsl_serve.specs.Calls.{Gains, Phase, asked, told};
ghost use Rattle.fsl_serve.specs.Session.{announcement, first_events, notices, where_so, arrivals};
ghost use Rattle.fsl_serve.specs.Points.{Passes, arrived, reached, is_late};
ghost use Rattle.fsl_serve.specs.Sessions.{IsRun, IsConcluded, sent_of, concluded};

use crate::arrivals::arrive_all;
use crate::calls::{call, heed};
use crate::said::{Halt, Said};
use crate::shared::Serving;
use crate::turning::Calls;
use fsl_disk::Disk;
use fsl_name::Name;
use fsl_outside::{Gate, Point};
use fsl_record::Receipt;
use fsl_repo::{Answer, Ask, BuildFault, Event, Repo};
use fsl_text::{List, Text};
use fsl_wire::{Caps, Message, WireCard};

/// One announcement.
fn announce<T: Calls<Repo<D>>, D: Disk>(
    serving: &Serving<T>,
    pass: &mut T::Pass,
    name: Name,
) -> Result<(), Halt>
    ensures grown { T.grows pass.old pass.new }
    ensures made { Gains D.state (T.calls pass.old) (T.calls pass.new) (λ made. Phase (event.Announce name ∷ []) made (result_err result)) }
{
    heed(&call(serving, pass, &Event::Announce { name }))
}

/// The announcement of a card, where it has one.
fn announce_card<T: Calls<Repo<D>>, D: Disk>(
    serving: &Serving<T>,
    pass: &mut T::Pass,
    card: &WireCard,
    caps: Caps,
) -> Result<(), Halt>
    ensures grown { T.grows pass.old pass.new }
    ensures made { Gains D.state (T.calls pass.old) (T.calls pass.new) (λ made. Phase (option_to_list (announcement caps card.now)) made (result_err result)) }
{
    match announced(card, caps) {
        Some(name) => announce(serving, pass, name),
        None => Ok(()),
    }
}

/// The name that a card announces.
fn announced(card: &WireCard, caps: Caps) -> Option<Name>
    ensures { announcement caps card.now ≡ option_map event.Announce result }
{
    match card {
        WireCard::Igot { name, private } if !*private || caps.private => Some(*name),
        _ => None,
    }
}

/// An announcement for each card that may have one.
fn announce_all<T: Calls<Repo<D>>, D: Disk>(
    serving: &Serving<T>,
    pass: &mut T::Pass,
    cards: &[WireCard],
    caps: Caps,
) -> Result<(), Halt>
    ensures grown { T.grows pass.old pass.new }
    ensures made { Gains D.state (T.calls pass.old) (T.calls pass.new) (λ made. Phase (filter_map (announcement caps) cards.now) made (result_err result)) }
{
    for card in cards {
        match announce_card(serving, pass, card, caps) {
            Ok(()) => {}
            Err(halt) => return Err(halt),
        }
    }
    Ok(())
}

/// A cluster.
fn cluster<T: Calls<Repo<D>>, D: Disk>(serving: &Serving<T>, pass: &mut T::Pass) -> Result<(), Halt>
    ensures grown { T.grows pass.old pass.new }
    ensures made { Gains D.state (T.calls pass.old) (T.calls pass.new) (λ made. Phase (event.Cluster ∷ []) made (result_err result) × IsTrue (list_any is_late (asked made))) }
{
    heed(&call(serving, pass, &Event::Cluster))
}

/// Whether a push card stands.
fn has_push(cards: &[WireCard]) -> bool
    ensures { result ≡ list_any is_push cards.now }
{
    cards
        .iter()
        .any(|card| matches!(card, WireCard::Push { .. }))
}

/// Whether a pull card stands.
fn has_pull(cards: &[WireCard]) -> bool
    ensures { result ≡ list_any is_pull cards.now }
{
    cards
        .iter()
        .any(|card| matches!(card, WireCard::Pull { .. }))
}

/// The announcements, where a push card stands.
fn announce_where_pushed<T: Calls<Repo<D>>, D: Disk>(
    serving: &Serving<T>,
    pass: &mut T::Pass,
    cards: &[WireCard],
    caps: Caps,
) -> Result<(), Halt>
    ensures grown { T.grows pass.old pass.new }
    ensures made { Gains D.state (T.calls pass.old) (T.calls pass.new) (λ made. Phase (where_so (list_any is_push cards.now) (filter_map (announcement caps) cards.now)) made (result_err result)) }
{
    if has_push(cards) {
        announce_all(serving, pass, cards, caps)
    } else {
        Ok(())
    }
}

/// The cluster, where a pull card stands.
fn cluster_where_pulled<T: Calls<Repo<D>>, D: Disk>(
    serving: &Serving<T>,
    pass: &mut T::Pass,
    cards: &[WireCard],
) -> Result<(), Halt>
    ensures grown { T.grows pass.old pass.new }
    ensures made { Gains D.state (T.calls pass.old) (T.calls pass.new) (λ made. Phase (where_so (list_any is_pull cards.now) (event.Cluster ∷ [])) made (result_err result) × OnErr result (IsTrue (list_any is_late (asked made)))) }
{
    if has_pull(cards) {
        cluster(serving, pass)
    } else {
        Ok(())
    }
}

/// All events before the build, and the notices for the reply. Passes the gate behind the arrivals and announcements.
fn before_build<T: Calls<Repo<D>>, D: Disk, G: Gate>(
    serving: &Serving<T>,
    pass: &mut T::Pass,
    gate: &mut G,
    number: u64,
    receipt: &mut Receipt,
    cards: &mut [WireCard],
    caps: Caps,
) -> Result<List<Text>, Halt>
    ensures grown { T.grows pass.old pass.new }
    ensures made { Gains D.state (T.calls pass.old) (T.calls pass.new) (λ made. (Phase (first_events cards.old caps receipt.old) made (result_err result) × IfOk result (λ texts. texts ≡ notices (arrivals receipt.old false cards.old) (told made))) × Passes (G.passed gate.old) (G.passed gate.new) number (reached result made)) }
    ensures kept { OnOk result (cards.new ≡ cards.old) }
{
    let notices = match arrive_all(serving, pass, receipt, cards) {
        Ok(notices) => notices,
        Err(halt) => return Err(halt),
    };
    match announce_where_pushed(serving, pass, cards, caps) {
        Ok(()) => {}
        Err(halt) => return Err(halt),
    }
    gate.pass(number, Point::Arrived);
    match cluster_where_pulled(serving, pass, cards) {
        Ok(()) => {}
        Err(halt) => return Err(halt),
    }
    Ok(notices)
}

/// What is said after the answers of the build and of the commit: a content that couldn't be read, or is damaged, is told as a
/// repository that is stopped.
fn conclusion(built: Answer, committed: Answer) -> Said
    ensures { sent_of result ≡ concluded built committed }
{
    match (built, committed) {
        (_, Answer::Commit(Err(_))) => Said::Halted(Halt::Stopped),
        (Answer::Build(Err(BuildFault::Disk)), _) => Said::Halted(Halt::Stopped),
        (Answer::Build(Err(BuildFault::Damaged { .. })), _) => Said::Halted(Halt::Stopped),
        (Answer::Build(Ok(reply)), Answer::Commit(Ok(_))) => Said::Built(reply),
        _ => Said::Halted(Halt::Memory),
    }
}

/// The build and the commit. A message that pushes stands back before its commit, so that the commit may serve the arrivals of those
/// who wait too, and theirs find nothing left to do.
fn conclude<T: Calls<Repo<D>>, D: Disk>(serving: &Serving<T>, pass: &mut T::Pass, ask: Ask) -> Said
    ensures grown { T.grows pass.old pass.new }
    ensures made { Gains D.state (T.calls pass.old) (T.calls pass.new) (λ made. IsConcluded ask made (sent_of result)) }
{
    let pushes = has_push(ask.message.cards());
    let built = call(serving, pass, &Event::Build { ask });
    if pushes {
        serving.turns.stand_back();
    }
    let committed = call(serving, pass, &Event::Commit);
    conclusion(built, committed)
}

/// The events of a message that nothing refuses, whose arrivals have this receipt, and what they say.
pub(crate) fn run<T: Calls<Repo<D>>, D: Disk, G: Gate>(
    serving: &Serving<T>,
    pass: &mut T::Pass,
    gate: &mut G,
    number: u64,
    message: Message,
    caps: Caps,
    receipt: &mut Receipt,
) -> Said
    ensures grown { T.grows pass.old pass.new }
    ensures made { Gains D.state (T.calls pass.old) (T.calls pass.new) (λ made. IsRun message caps receipt.old made (sent_of result) × Passes (G.passed gate.old) (G.passed gate.new) number (arrived made)) }
{
    let mut cards = message.into_cards().into_vec();
    let before = before_build(
        serving,
        pass,
        gate,
        number,
        receipt,
        cards.as_mut_slice(),
        caps,
    );
    match before {
        Ok(notices) => conclude(
            serving,
            pass,
            Ask {
                caps,
                message: Message::of(List::from_vec(cards)),
                notices,
            },
        ),
        Err(halt) => Said::Halted(halt),
    }
}
