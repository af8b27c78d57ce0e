//! Receipts say who brought an artifact, and when.
ghost use Rattle.std.specs.Prelude.{◌≡◌, ◌↔◌, ◌<◌, ◌≤◌, ◌^◌, length, IfSome, IsNone, IfOk};
ghost use Rattle.fsl_date.specs.Moment.{IsMoment};

use fsl_date::Moment;
use fsl_text::{Memory, Text};
use std::alloc::Global;
use std::marker::Model;

/// The greatest number of bytes of a login.
pub(crate) const MOST_OF_LOGIN: usize = 1 << 20;

/// The milliseconds from the beginning of the year 0 to that of 1970.
pub(crate) const MS_BEFORE_1970: i64 = 62_167_219_200_000;

/// The number of the last moment of the year 9999, in milliseconds since the year 0 began.
pub(crate) const LAST_MOMENT: u64 = 315_569_519_999_999;

/// The receipt of an artifact. It has the login of the person who brought it, at most 2^20 bytes, and the moment.
#[derive(Drop)]
pub struct Receipt {
    login: Text,
    moment: Moment,
}

impl Model for Receipt {
    ghost use Rattle.fsl_record.specs.Receipts.{Brought};

    ghost Value = { Brought };

    ghost use Rattle.fsl_record.specs.Receipts.{IsReceipt};

    ghost view = { λ r. record { login = r.login; moment = r.moment } };

    ghost invariant = { λ r. IsReceipt (record { login = r.login; moment = r.moment }) };
}

impl Receipt {
    /// Makes a receipt with this login and moment. Returns `None` if the login has more than 2^20 bytes.
    pub fn new(login: Text, moment: Moment) -> Option<Receipt>
        ensures some { IfSome result (λ receipt. receipt ≡ record { login = login; moment = moment }) }
        ensures none { IsNone result ↔ (2 ^ 20 < length login) }
    {
        // A moment's milliseconds lie in the years 0 to 9999, which its type keeps.
        let _ = moment.ms();
        if login.bytes().len() > MOST_OF_LOGIN {
            return None;
        }
        Some(Receipt { login, moment })
    }

    /// Makes a receipt with a copy of this login, which isn't too long. `Memory` is the only error.
    pub fn of_login(alloc: Global, login: &[u8], moment: Moment) -> Result<Receipt, Memory>
        requires short { length login.now ≤ 2 ^ 20 }
        ensures { IfOk result (λ receipt. receipt ≡ record { login = login.now; moment = moment }) }
    {
        let _ = moment.ms();
        Ok(Receipt {
            login: Text::of(alloc, login)?,
            moment,
        })
    }

    /// Returns the login.
    pub fn login(&self) -> &[u8]
        ensures value { result.now ≡ self.now.login }
        ensures few { length result.now ≤ 2 ^ 20 }
    {
        self.login.bytes()
    }

    /// Returns the moment.
    pub fn moment(&self) -> Moment
        ensures value { result ≡ self.now.moment }
        ensures moment { IsMoment result }
    {
        self.moment
    }

    /// Returns the moment as its milliseconds since the year 0 began.
    pub(crate) fn moment_number(&self) -> u64
        ensures value { result ≡ self.now.moment }
    {
        (self.moment.ms() + MS_BEFORE_1970) as u64
    }

    /// Copies the receipt into memory of its own. `Memory` is the only error.
    pub fn copied(&self, alloc: Global) -> Result<Receipt, Memory>
        ensures { IfOk result (λ copy. copy ≡ self.now) }
    {
        Ok(Receipt {
            login: Text::of(alloc, self.login.bytes())?,
            moment: self.moment,
        })
    }
}
