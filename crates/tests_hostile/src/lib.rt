//! Tests of hostile use: commits and openings that stop at any call with crashes behind them, and facts in a circle that come in each
//! order. They stand apart, so that no crate is proved once more for them. Where a large value is held, a function has one exit.
#![tactic(auto)]

#[cfg(test)]
mod circles;
#[cfg(test)]
mod crashing;
#[cfg(test)]
mod stops;
#[cfg(test)]
mod wanting;
