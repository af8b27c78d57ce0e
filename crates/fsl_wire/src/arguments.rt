//! Finds the arguments of a line: up to three tokens, or that there are more.
ghost use Rattle.fsl_text.specs.Tokens.{tokens_of};
ghost use Rattle.fsl_wire.specs.Meanings.{AreArguments};

use super::tokens::first_token;

/// The arguments of a line, without a copy. No card has more than three.
#[derive(Clone, Copy)]
pub enum Arguments<'a> {
    None,
    One(&'a [u8]),
    Two(&'a [u8], &'a [u8]),
    Three(&'a [u8], &'a [u8], &'a [u8]),
    Many,
}

/// Finds the arguments in the rest of a line. It looks for four at most.
pub fn arguments_of(rest: &[u8]) -> Arguments<'_>
    ensures { AreArguments result (tokens_of rest.now) }
{
    let Some((first, rest)) = first_token(rest) else {
        return Arguments::None;
    };
    let Some((second, rest)) = first_token(rest) else {
        return Arguments::One(first);
    };
    let Some((third, rest)) = first_token(rest) else {
        return Arguments::Two(first, second);
    };
    match first_token(rest) {
        None => Arguments::Three(first, second, third),
        Some(_) => Arguments::Many,
    }
}
