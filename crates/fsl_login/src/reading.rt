//! Reads users files.
ghost use Rattle.std.specs.Prelude.{◌≡◌, [], IfOk, IfErr, OnOk};
ghost use Rattle.fsl_login.specs.declared.UsersFault.TheVariants as users_fault;
ghost use Rattle.fsl_login.specs.UserFiles.{AreUsers, IsUsersFile, IsUsersFault};

use super::lines::{add_line, line_at};
use crate::{User, Users, UsersFault};
use fsl_text::{List, MOST_OF_USERS, Memory};
use std::alloc::Global;
use std::collections::BTreeSet;

impl From<Memory> for UsersFault {
    ghost from_gives = { λ _ fault. fault ≡ users_fault.Memory };

    fn from(_: Memory) -> Self {
        UsersFault::Memory
    }
}

/// Reads the users of a file into a list that is empty.
fn read_users(alloc: Global, bytes: &[u8], users: &mut List<User>) -> Result<(), UsersFault>
    requires { users.old ≡ [] }
    ensures users { OnOk result (IsUsersFile bytes.now users.new) }
    ensures kept { OnOk result (AreUsers users.new) }
    ensures fault { IfErr result (IsUsersFault bytes.now) }
{
    let mut seen = BTreeSet::new(alloc);
    let mut at = 0usize;
    let mut number = 1u64;
    'lines: loop {
        let cut = line_at(bytes, at);
        if cut.end > MOST_OF_USERS {
            return Err(UsersFault::Line { line: number });
        }
        if !add_line(alloc, users, &mut seen, cut.line)? {
            return Err(UsersFault::Line { line: number });
        }
        if cut.last {
            return Ok(());
        }
        at = cut.end;
        number += 1;
    }
}

impl Users {
    /// Reads the users of a file: lines `USER CAPS SECRET` of three tokens. Lines without a token and lines that begin with `#`
    /// have no meaning. The letters `o`, `i`, `g` and `x` in CAPS grant pull, push, clone and private, and others are ignored.
    /// The work is that of a sort of the names.
    ///
    /// Errors: `Line` with the first line that has another number of tokens, names a user a second time, or reaches past 2^20
    /// bytes with its newline; or `Memory`.
    /// FORMATS: Users, logins and replies
    pub fn read(alloc: Global, bytes: &[u8]) -> Result<Users, UsersFault>
        ensures users { IfOk result (IsUsersFile bytes.now) }
        ensures fault { IfErr result (IsUsersFault bytes.now) }
    {
        let mut users = List::new(alloc);
        read_users(alloc, bytes, &mut users)?;
        Ok(Users { items: users })
    }
}
