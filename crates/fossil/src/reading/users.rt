//! Reads the users file of a serve.
ghost use Rattle.std.specs.Prelude.{◌≡◌, ◌<◌, ◌≤◌, ◌⊎◌, ◌+◌, ◌^◌, length, IfOk, IfErr, OnOk};
ghost use Rattle.std.specs.Io.KnownBytes.{Consumes, IsAtEnd};
ghost use Rattle.fsl_outside.specs.Whole.{FailsBy};
ghost use Rattle.fsl_login.specs.UserFiles.{IsUsersFile};
ghost use Rattle.fossil.specs.Acts.{input_of};
ghost use Rattle.fossil.specs.Served.{IsUsers, AreNoUsers};
ghost use Rattle.fossil.specs.Due.{printed};
ghost use Rattle.fossil.specs.Serving.{IsNoUserFile};

use crate::answers::answer::numbered_refusal;
use crate::answers::due::{Due, answered};
use crate::answers::fault::Fault;
use fsl_login::{Users, UsersFault};
use fsl_outside::{ReadFault, Source};
use fsl_text::{MOST_OF_USERS, Text};
use std::alloc::Global;

// How many bytes are asked for at a time.
const PIECE: usize = 65536;

/// Reads a source to its end, or more than 2^20 bytes of it, and at most one piece more.
fn read_front<S: Source>(alloc: Global, source: &mut S) -> Result<Text, ReadFault>
    ensures read { IfOk result (λ text. Consumes (S.state source.old).left (S.state source.new).left text) }
    ensures far { IfOk result (λ text. IsAtEnd (S.state source.new).left ⊎ (2 ^ 20 < length text)) }
    ensures few { IfOk result (λ text. length text ≤ 2 ^ 20 + 65536) }
    ensures cause { IfErr result (FailsBy (S.state source.old).faults (S.state source.new).faults) }
    ensures same { OnOk result ((S.state source.new).faults ≡ (S.state source.old).faults) }
{
    let mut text = Vec::new(alloc);
    let mut piece = [0u8; PIECE];
    for _ in 0..=MOST_OF_USERS {
        match source.read(&mut piece) {
            Ok(0) => return Ok(Text::from_vec(text)),
            Ok(count) => {
                if text.extend_from_slice(&piece[..count]).is_err() {
                    return Err(ReadFault::Memory);
                }
                if text.len() > MOST_OF_USERS {
                    return Ok(Text::from_vec(text));
                }
            }
            Err(_) => return Err(ReadFault::Failed),
        }
    }
    Ok(Text::from_vec(text))
}

/// The users of a file, by its bytes.
fn users_of(alloc: Global, bytes: &[u8]) -> Result<Users, Due>
    ensures users { IfOk result (IsUsersFile bytes.now) }
    ensures fault { IfErr result (IsNoUserFile bytes.now) }
{
    match Users::read(alloc, bytes) {
        Ok(users) => Ok(users),
        Err(UsersFault::Line { line }) => Err(answered(numbered_refusal(
            alloc,
            b"users line ",
            line,
        ))),
        Err(UsersFault::Memory) => Err(Err(Fault::Memory)),
    }
}

/// Reads the users of a users file, or what is due where there are none: a read failed, or a line is bad, or there was no memory.
pub(crate) fn read_users<S: Source>(alloc: Global, users: &mut S) -> Result<Users, Due>
    ensures users { IfOk result (IsUsers (input_of (S.state users.old, S.state users.new))) }
    ensures none { IfErr result (λ due. AreNoUsers (input_of (S.state users.old, S.state users.new)) (printed due)) }
{
    match read_front(alloc, users) {
        Ok(text) => users_of(alloc, text.bytes()),
        Err(ReadFault::Failed) => Err(Err(Fault::Input)),
        Err(ReadFault::Memory) => Err(Err(Fault::Memory)),
    }
}
