//! Reads the lines of a users file.
ghost use Rattle.std.specs.Prelude.{◌≡◌, ◌==◌, ◌≤◌, ◌^◌, length, ◌++◌, ◌∷◌, [], IfOk, OnOk, IsTrue, option_to_list, position, slice_index};
ghost use Rattle.std.specs.List.{list_any};
ghost use Rattle.fsl_text.specs.Bytes.{is_newline};
ghost use Rattle.fsl_login.specs.UserFiles.{caps_of, user_in, AreUsers};
ghost use Rattle.fsl_login.specs.Reading.{IsUserLine, IsCut, IsSeen, is_new_name, is_good_among};

use crate::User;
use fsl_text::{List, Memory, Text};
use fsl_wire::{Arguments, Caps, arguments_of, first_token};
use std::alloc::Global;
use std::collections::BTreeSet;

/// The meaning of a line of a users file.
#[derive(Clone, Copy)]
enum UserLine<'a> {
    /// The line has no meaning: it has no token, or begins with `#`.
    Blank,
    /// The line is a user: three tokens.
    User {
        name: &'a [u8],
        letters: &'a [u8],
        secret: &'a [u8],
    },
    /// The line has another number of tokens.
    Bad,
}

fn is_comment(token: &[u8]) -> bool
    ensures { result ≡ (slice_index token.now 0 == 35) }
{
    token.first() == Some(&b'#')
}

/// Reads a line.
fn user_line(line: &[u8]) -> UserLine<'_>
    ensures { IsUserLine result line.now }
{
    let Some((name, rest)) = first_token(line) else {
        return UserLine::Blank;
    };
    if is_comment(name) {
        return UserLine::Blank;
    }
    match arguments_of(rest) {
        Arguments::Two(letters, secret) => UserLine::User {
            name,
            letters,
            secret,
        },
        _ => UserLine::Bad,
    }
}

/// Returns whether a letter is among letters.
fn has_letter(letters: &[u8], letter: u8) -> bool
    ensures { result ≡ list_any (λ b. b == letter) letters.now }
{
    letters.iter().any(|found| *found == letter)
}

/// Returns the rights of letters: `o` pull, `i` push, `g` clone and `x` private. Others are ignored.
fn caps_of(letters: &[u8]) -> Caps
    ensures { result ≡ caps_of letters.now }
{
    Caps {
        pull: has_letter(letters, b'o'),
        push: has_letter(letters, b'i'),
        clone: has_letter(letters, b'g'),
        private: has_letter(letters, b'x'),
    }
}

/// Makes the user of a line.
fn user_of(alloc: Global, name: &[u8], letters: &[u8], secret: &[u8]) -> Result<User, Memory>
    ensures { IfOk result (λ user. user ≡ record { name = name.now; caps = caps_of letters.now; secret = secret.now }) }
{
    Ok(User {
        name: Text::of(alloc, name)?,
        caps: caps_of(letters),
        secret: Text::of(alloc, secret)?,
    })
}

/// Adds a user at the end.
fn push_user(users: &mut List<User>, user: User) -> Result<(), Memory>
    ensures { OnOk result (users.new ≡ users.old ++ user ∷ []) }
{
    match users.push(user) {
        Ok(()) => Ok(()),
        Err(_) => Err(Memory),
    }
}

/// Adds the user of a line at the end, unless its name was seen before: then it returns false. In that case no clause covers the
/// users and the names after it.
fn add_user<'a>(
    alloc: Global,
    users: &mut List<User>,
    seen: &mut BTreeSet<&'a [u8]>,
    name: &'a [u8],
    letters: &[u8],
    secret: &[u8],
) -> Result<bool, Memory>
    requires seen { IsSeen seen.old users.old }
    ensures new { IfOk result (λ new. new ≡ is_new_name name.now users.old) }
    ensures users { IfOk result (λ new. IsTrue new → users.new ≡ users.old ++ (record { name = name.now; caps = caps_of letters.now; secret = secret.now }) ∷ []) }
    ensures seen { IfOk result (λ new. IsTrue new → IsSeen seen.new users.new) }
{
    if !seen.insert(name)? {
        return Ok(false);
    }
    push_user(users, user_of(alloc, name, letters, secret)?)?;
    Ok(true)
}

/// Adds the user of a line at the end, if it has one. Returns whether the line is good: without meaning, or a user whose name
/// wasn't seen before. `Memory` is the only error.
pub fn add_line<'a>(
    alloc: Global,
    users: &mut List<User>,
    seen: &mut BTreeSet<&'a [u8]>,
    line: &'a [u8],
) -> Result<bool, Memory>
    requires seen { IsSeen seen.old users.old }
    ensures good { IfOk result (λ good. good ≡ is_good_among line.now users.old) }
    ensures users { IfOk result (λ good. IsTrue good → users.new ≡ users.old ++ option_to_list (user_in line.now)) }
    ensures seen { IfOk result (λ good. IsTrue good → IsSeen seen.new users.new) }
    ensures kept { IfOk result (λ good. IsTrue good → length line.now ≤ 2 ^ 20 → AreUsers users.old → AreUsers users.new) }
{
    match user_line(line) {
        UserLine::Blank => Ok(true),
        UserLine::User {
            name,
            letters,
            secret,
        } => add_user(alloc, users, seen, name, letters, secret),
        UserLine::Bad => Ok(false),
    }
}

fn newline(bytes: &[u8]) -> Option<usize>
    ensures { result ≡ position is_newline bytes.now }
{
    bytes.iter().position(|byte| *byte == b'\n')
}

/// A line of a file without its newline, and the place of its end, its newline included.
#[derive(Clone, Copy)]
pub struct Cut<'a> {
    pub line: &'a [u8],
    pub end: usize,
    /// Says whether this is the last line, which has no newline.
    pub last: bool,
}

/// Returns the line of a file that begins at a place.
pub fn line_at(bytes: &[u8], at: usize) -> Cut<'_>
    requires { at ≤ length bytes.now }
    ensures { IsCut bytes.now at result.line.now result.end result.last }
{
    let rest = &bytes[at..];
    match newline(rest) {
        Some(place) => Cut {
            line: &rest[..place],
            end: at + place + 1,
            last: false,
        },
        None => Cut {
            line: rest,
            end: bytes.len(),
            last: true,
        },
    }
}
