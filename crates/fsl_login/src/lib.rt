//! Reads the users of a repository, and checks their logins.
//!
//! A users file has a line for each user. `Users::read` reads it. `granted` gives the rights that the logins of a message have
//! together, or the first login that isn't accepted, and why. `granted_by` does so for a message whose logins wait for their
//! tails, and makes none behind the first login that isn't accepted.
#![tactic(auto)]

ghost use Rattle.std.specs.Prelude.{◌≡◌};
ghost use Rattle.fsl_login.specs.UserFiles.{AreUsers};

mod laws;
mod lines;
mod logins;
mod reading;

use fsl_text::{List, Text};
use fsl_wire::Caps;
pub use laws::{fronts_tell, users_read_one_way};
pub use logins::{granted, granted_by};
use std::marker::Model;

/// A user: a name, the rights of the user, and the secret that signs logins.
#[derive(Drop)]
pub struct User {
    pub name: Text,
    pub caps: Caps,
    pub secret: Text,
}

/// The users of a file, in its order. Their names differ, and each has at most 2^20 bytes.
#[derive(Drop)]
pub struct Users {
    items: List<User>,
}

impl Model for Users {
    ghost use Rattle.std.specs.Prelude.{List};
    ghost use Rattle.fsl_login.specs.declared.User.{User};

    ghost Value = { List User };

    ghost use Rattle.fsl_login.specs.UserFiles.{AreUsers};

    ghost view = { λ u. u.items };

    ghost invariant = { λ u. AreUsers u.items };
}

impl Users {
    /// Returns the users, in order.
    pub fn items(&self) -> &[User]
        ensures value { result.now ≡ self.now }
        ensures users { AreUsers self.now }
    {
        self.items.items()
    }
}

/// Says why a users file doesn't read.
#[derive(Clone, Copy, Debug, PartialEq, Eq)]
pub enum UsersFault {
    /// The first line, counted from 1, that is out of form, names a user a second time, or reaches past 2^20 bytes.
    Line { line: u64 },
    /// The users don't fit in memory.
    Memory,
}

/// Says why a login isn't accepted, with the line of its message.
#[derive(Clone, Copy, Debug, PartialEq, Eq)]
pub enum LoginFault {
    /// The nonce isn't that of the message.
    Nonce { line: u64 },
    /// No such user may log in.
    NoUser { line: u64 },
    /// The signature isn't that of the nonce and the user's secret.
    Signature { line: u64 },
}
