// Opening and closing the accounts of a table.
ghost use Rattle.std.specs.Prelude.{◌≡◌, []};
ghost use Rattle.ends.specs.Tables.{Closes, Opens, listed};

use super::AccountTable;
use crate::account::Account;
use arrayvec::ArrayVec;
use measures::{AccountNumber, Answer, Ranged, Refusal};

impl AccountTable {
    /// A table that lists no account.
    pub fn new() -> Self
        ensures { listed result ≡ [] }
    {
        AccountTable {
            accounts: ArrayVec::new(),
        }
    }

    /// Opens an account. One that is listed, open or closed, keeps its credit.
    pub fn open(&mut self, number: AccountNumber) -> Answer
        ensures { Opens self.old number.0 result self.new }
    {
        if !number.is_in_range() {
            return Err(Refusal::OutOfRange);
        }
        if let Some(i) = self.find(number) {
            self.accounts[i].open = true;
            return Ok(());
        }
        if self.accounts.is_full() {
            return Err(Refusal::TableFull);
        }
        self.accounts.push(Account::fresh(number));
        Ok(())
    }

    /// Closes an account, which stays listed and keeps its credit.
    pub fn close(&mut self, number: AccountNumber) -> Answer
        ensures { Closes self.old number.0 result self.new }
    {
        if !number.is_in_range() {
            return Err(Refusal::OutOfRange);
        }
        let i = self.find(number).ok_or(Refusal::Unlisted)?;
        self.accounts[i].open = false;
        Ok(())
    }
}
