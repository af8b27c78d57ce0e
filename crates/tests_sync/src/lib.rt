//! Tests of messages, logins and turns by ticket, by public calls alone. They are a crate of their own, so that no crate is proved once
//! more for its tests.
#![tactic(auto)]

#[cfg(test)]
mod history;
#[cfg(test)]
mod login;
#[cfg(test)]
mod wire;
