//! Makes the arrivals of a message.
ghost use Rattle.std.specs.Prelude.{◌≡◌, ℕ, List as Items, [], ◌∷◌, ◌++◌, Bool, false, IfOk, OnOk, option_to_list};
ghost use Rattle.std.specs.Result.{result_err};
ghost use Rattle.fsl_name.specs.Name.{name_text};
ghost use Rattle.fsl_record.specs.Receipts.{Brought};
ghost use Rattle.fsl_repo.specs.declared.Event.TheVariants as event;
ghost use Rattle.fsl_serve.specs.Calls.{Gains, Phase, asked, told};
ghost use Rattle.fsl_serve.specs.Session.{arrival_of, arrivals, mark_after, notice, notices};

use crate::calls::{call, heed};
use crate::said::Halt;
use crate::shared::Serving;
use crate::turning::Calls;
use fsl_disk::Disk;
use fsl_name::Name;
use fsl_record::Receipt;
use fsl_repo::{Answer, ArriveFault, Event, Repo};
use fsl_text::{List, Memory, Text};
use fsl_wire::WireCard;
use std::alloc::Global;
use std::mem;

/// These words, and a name.
fn words_and_name(alloc: Global, words: &[u8], name: Name) -> Result<Text, Memory>
    ensures { IfOk result (λ text. text ≡ words.now ++ name_text name) }
{
    let mut text = Text::of(alloc, words)?;
    text.append(&name.text())?;
    Ok(text)
}

/// What the answer of an arrival adds to the reply.
fn noticed(alloc: Global, name: Name, answer: &Answer) -> Result<Option<Text>, Memory>
    ensures { IfOk result (λ n. (bytes : Items ℕ) (private : Bool) (receipt : Brought) → n ≡ notice (event.Receive name bytes private receipt) answer.now) }
{
    match answer {
        Answer::Receive(Err(ArriveFault::TooLarge { .. })) => Ok(Some(words_and_name(
            alloc,
            b"too large ",
            name,
        )?)),
        Answer::Receive(Err(ArriveFault::NameWrong { .. })) => Ok(Some(words_and_name(
            alloc,
            b"wrong name ",
            name,
        )?)),
        Answer::Receive(Err(ArriveFault::Full { .. })) => Ok(Some(words_and_name(
            alloc, b"full ", name,
        )?)),
        _ => Ok(None),
    }
}

/// Puts the notice of an arrival, where it has one, behind the others.
fn note(alloc: Global, name: Name, answer: &Answer, notices: &mut List<Text>) -> Result<(), Memory>
    ensures { OnOk result ((bytes : Items ℕ) (private : Bool) (receipt : Brought) → notices.new ≡ notices.old ++ option_to_list (notice (event.Receive name bytes private receipt) answer.now)) }
{
    match noticed(alloc, name, answer) {
        Ok(Some(text)) => match notices.push(text) {
            Ok(()) => Ok(()),
            Err(_) => Err(Memory),
        },
        Ok(None) => Ok(()),
        Err(memory) => Err(memory),
    }
}

/// Takes a receipt away, and leaves one without a login. It takes no memory.
fn taken(alloc: Global, receipt: &mut Receipt) -> Receipt
    ensures { result ≡ receipt.old }
{
    let bare = Receipt::new(Text::empty(alloc), receipt.moment()).unwrap();
    mem::replace(receipt, bare)
}

/// The event of an arrival, whose bytes and receipt are moved into it.
fn arrival(
    alloc: Global,
    name: Name,
    bytes: &mut Text,
    private: bool,
    receipt: &mut Receipt,
) -> Event
    ensures { result ≡ event.Receive name bytes.old private receipt.old }
{
    Event::Receive {
        name,
        bytes: mem::replace(bytes, Text::empty(alloc)),
        private,
        receipt: taken(alloc, receipt),
    }
}

/// Moves the bytes and the receipt of an arrival back to where they came from.
fn give_back(made: Event, bytes: &mut Text, receipt: &mut Receipt)
    ensures bytes { (name : Items ℕ) (held : Items ℕ) (private : Bool) (brought : Brought) → made ≡ event.Receive name held private brought → bytes.new ≡ held }
    ensures receipt { (name : Items ℕ) (held : Items ℕ) (private : Bool) (brought : Brought) → made ≡ event.Receive name held private brought → receipt.new ≡ brought }
{
    if let Event::Receive {
        bytes: held,
        receipt: brought,
        ..
    } = made
    {
        *bytes = held;
        *receipt = brought;
    }
}

/// One arrival. The bytes and the receipt are moved into its event and back out of it.
fn arrive<T: Calls<Repo<D>>, D: Disk>(
    serving: &Serving<T>,
    pass: &mut T::Pass,
    receipt: &mut Receipt,
    name: Name,
    bytes: &mut Text,
    private: bool,
    texts: &mut List<Text>,
) -> Result<(), Halt>
    ensures grown { T.grows pass.old pass.new }
    ensures made { Gains D.state (T.calls pass.old) (T.calls pass.new) (λ made. Phase (event.Receive name bytes.old private receipt.old ∷ []) made (result_err result) × OnOk result (texts.new ≡ texts.old ++ notices (asked made) (told made))) }
    ensures kept { bytes.new ≡ bytes.old }
    ensures same { receipt.new ≡ receipt.old }
{
    let made = arrival(serving.alloc, name, bytes, private, receipt);
    let answer = call(serving, pass, &made);
    give_back(made, bytes, receipt);
    match heed(&answer) {
        Ok(()) => {}
        Err(halt) => return Err(halt),
    }
    match note(serving.alloc, name, &answer, texts) {
        Ok(()) => Ok(()),
        Err(_) => Err(Halt::Memory),
    }
}

/// The arrival of a card, where it has one.
fn arrive_card<T: Calls<Repo<D>>, D: Disk>(
    serving: &Serving<T>,
    pass: &mut T::Pass,
    receipt: &mut Receipt,
    card: &mut WireCard,
    marked: bool,
    texts: &mut List<Text>,
) -> Result<(), Halt>
    ensures grown { T.grows pass.old pass.new }
    ensures made { Gains D.state (T.calls pass.old) (T.calls pass.new) (λ made. Phase (option_to_list (arrival_of receipt.old marked card.old)) made (result_err result) × OnOk result (texts.new ≡ texts.old ++ notices (asked made) (told made))) }
    ensures kept { card.new ≡ card.old }
    ensures same { receipt.new ≡ receipt.old }
{
    match card {
        WireCard::File { name, bytes } => {
            arrive(serving, pass, receipt, *name, bytes, marked, texts)
        }
        _ => Ok(()),
    }
}

/// Whether the next file card is marked as private, after this card.
fn marks(card: &WireCard, marked: bool) -> bool
    ensures { result ≡ mark_after marked card.now }
{
    match card {
        WireCard::File { .. } => false,
        WireCard::Private => true,
        _ => marked,
    }
}

/// The arrivals of a message, all with this receipt, and the notices that they add to its reply. The message is as before.
pub(crate) fn arrive_all<T: Calls<Repo<D>>, D: Disk>(
    serving: &Serving<T>,
    pass: &mut T::Pass,
    receipt: &mut Receipt,
    cards: &mut [WireCard],
) -> Result<List<Text>, Halt>
    ensures grown { T.grows pass.old pass.new }
    ensures made { Gains D.state (T.calls pass.old) (T.calls pass.new) (λ made. Phase (arrivals receipt.old false cards.old) made (result_err result) × IfOk result (λ texts. texts ≡ notices (asked made) (told made))) }
    ensures kept { OnOk result (cards.new ≡ cards.old) }
{
    let mut marked = false;
    let mut texts = List::new(serving.alloc);
    let mut at = 0;
    while at < cards.len() {
        let next = marks(&cards[at], marked);
        match arrive_card(serving, pass, receipt, &mut cards[at], marked, &mut texts) {
            Ok(()) => {}
            Err(halt) => return Err(halt),
        }
        marked = next;
        at += 1;
    }
    Ok(texts)
}
