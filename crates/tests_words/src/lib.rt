//! Tests of the words: names, texts, dates and rows, by their public calls alone. They stand apart, so that no crate is proved once more for its tests.
#![tactic(auto)]

#[cfg(test)]
mod date;
#[cfg(test)]
mod name;
#[cfg(test)]
mod rows;
#[cfg(test)]
mod text;
