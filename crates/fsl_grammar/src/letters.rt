//! Checks the letters of the cards of each kind.
ghost use Rattle.std.specs.Prelude.{◌≡◌, ◌==◌, ◌++◌, nat_le};
ghost use Rattle.std.specs.List.{list_all, list_any};
ghost use Rattle.fsl_grammar.specs.Letters.{attachment_letters, cluster_letters, control_letters, forum_letters, has_letters, letter_count, manifest_letters, technote_letters, ticket_letters, wiki_letters};

use fsl_card::Card;

/// Counts the cards with a letter.
fn letter_count(cards: &[Card], letter: u8) -> usize
    ensures { result ≡ letter_count cards.now letter }
{
    cards.iter().filter(|card| card.letter == letter).count()
}

/// Returns whether the cards have the letters of a kind: some once, some at most once, some any number of times, some one time or
/// more, and no others.
fn has_letters(cards: &[Card], once: &[u8], optional: &[u8], repeated: &[u8], some: &[u8]) -> bool
    ensures { result ≡ has_letters (record { once = once.now; optional = optional.now; repeated = repeated.now; some = some.now }) cards.now }
{
    each_once(cards, once)
        && each_at_most_once(cards, optional)
        && each_there(cards, some)
        && have_letters(cards, once, optional, repeated, some)
}

/// Returns whether there is one card of each letter.
fn each_once(cards: &[Card], letters: &[u8]) -> bool
    ensures { result ≡ list_all (λ letter. letter_count cards.now letter == 1) letters.now }
{
    letters
        .iter()
        .all(|letter| letter_count(cards, *letter) == 1)
}

/// Returns whether there is at most one card of each letter.
fn each_at_most_once(cards: &[Card], letters: &[u8]) -> bool
    ensures { result ≡ list_all (λ letter. nat_le (letter_count cards.now letter) 1) letters.now }
{
    letters
        .iter()
        .all(|letter| letter_count(cards, *letter) <= 1)
}

/// Returns whether there is a card of each letter.
fn each_there(cards: &[Card], letters: &[u8]) -> bool
    ensures { result ≡ list_all (λ letter. nat_le 1 (letter_count cards.now letter)) letters.now }
{
    letters
        .iter()
        .all(|letter| 1 <= letter_count(cards, *letter))
}

/// Returns whether each card has one of the letters.
fn have_letters(cards: &[Card], once: &[u8], optional: &[u8], repeated: &[u8], some: &[u8]) -> bool
    ensures { result ≡ list_all (λ card. list_any (λ letter. card.letter == letter) (once.now ++ optional.now ++ repeated.now ++ some.now)) cards.now }
{
    cards.iter().all(|card| is_one_of(card.letter, once, optional, repeated, some))
}

/// Returns whether the letter is one of the others.
fn is_one_of(letter: u8, once: &[u8], optional: &[u8], repeated: &[u8], some: &[u8]) -> bool
    ensures { result ≡ list_any (λ other. letter == other) (once.now ++ optional.now ++ repeated.now ++ some.now) }
{
    stands_in(once, letter)
        || stands_in(optional, letter)
        || stands_in(repeated, letter)
        || stands_in(some, letter)
}

fn stands_in(letters: &[u8], letter: u8) -> bool
    ensures { result ≡ list_any (λ other. letter == other) letters.now }
{
    letters.contains(&letter)
}

/// Returns whether the cards have the letters of a manifest.
pub fn has_manifest_letters(cards: &[Card]) -> bool
    ensures { result ≡ has_letters manifest_letters cards.now }
{
    has_letters(cards, b"CDUZ", b"BNPR", b"FQT", b"")
}

/// Returns whether the cards have the letters of a cluster.
pub fn has_cluster_letters(cards: &[Card]) -> bool
    ensures { result ≡ has_letters cluster_letters cards.now }
{
    has_letters(cards, b"Z", b"", b"", b"M")
}

/// Returns whether the cards have the letters of a control artifact.
pub fn has_control_letters(cards: &[Card]) -> bool
    ensures { result ≡ has_letters control_letters cards.now }
{
    has_letters(cards, b"DUZ", b"", b"", b"T")
}

/// Returns whether the cards have the letters of a wiki page.
pub fn has_wiki_letters(cards: &[Card]) -> bool
    ensures { result ≡ has_letters wiki_letters cards.now }
{
    has_letters(cards, b"DLUWZ", b"CNP", b"", b"")
}

/// Returns whether the cards have the letters of a ticket change.
pub fn has_ticket_letters(cards: &[Card]) -> bool
    ensures { result ≡ has_letters ticket_letters cards.now }
{
    has_letters(cards, b"DKUZ", b"", b"", b"J")
}

/// Returns whether the cards have the letters of an attachment.
pub fn has_attachment_letters(cards: &[Card]) -> bool
    ensures { result ≡ has_letters attachment_letters cards.now }
{
    has_letters(cards, b"ADZ", b"CNU", b"", b"")
}

/// Returns whether the cards have the letters of a technote.
pub fn has_technote_letters(cards: &[Card]) -> bool
    ensures { result ≡ has_letters technote_letters cards.now }
{
    has_letters(cards, b"DEWZ", b"CNPU", b"T", b"")
}

/// Returns whether the cards have the letters of a forum post.
pub fn has_forum_letters(cards: &[Card]) -> bool
    ensures { result ≡ has_letters forum_letters cards.now }
{
    has_letters(cards, b"DUWZ", b"GHINP", b"", b"")
}
