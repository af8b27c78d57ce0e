//! Reads and writes cards, of which structural artifacts are made.
//!
//! A structural text is one card after another and nothing else. A card is a letter, its arguments, a newline, and behind a `W`
//! card a counted body. The letters don't fall, and the last card is `Z` with the MD5 of all bytes before it. `cards` reads a
//! text exactly if it has this form, and `finish` puts the `Z` card behind lines.
#![tactic(auto)]

mod arguments;
mod body;
mod decoded;
mod front;
mod laws;
mod order;
mod reading;
mod seal;
mod types;

pub use laws::{sealed_text_reads_back, text_is_finished, text_is_unambiguous};
pub use reading::cards;
pub use seal::finish;
pub use types::{Card, Cards};
