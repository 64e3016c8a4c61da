// The account table as a billing end.
ghost use Rattle.ends.specs.Accounts.{credit_of, reach_of};
ghost use Rattle.ends.specs.Tables.{Posts, listed};
ghost use Rattle.ends.specs.Meaning.{none_outside, posts_mean};

use super::AccountTable;
use crate::billing_end::BillingEnd;
use measures::{AccountNumber, Cents};

impl BillingEnd for AccountTable {
    ghost credits = { λ t. credit_of (listed t) };

    ghost reaches = { λ t. reach_of (listed t) };

    ghost posts = { Posts };

    ghost outside = { λ t n. none_outside (listed t) n t.bounded };

    ghost meaning = { posts_mean };

    fn credit(&self, account: AccountNumber) -> Cents {
        self.find(account)
            .map_or(Cents(0), |i| self.accounts[i].credit)
    }

    fn post(&mut self, account: AccountNumber, cents: Cents) -> bool {
        let Some(i) = self.find(account) else {
            return false;
        };
        let reach = self.accounts[i].reach();
        if !(Cents(1)..=reach).contains(&cents) {
            return false;
        }
        self.accounts[i].credit.0 += cents.0;
        true
    }
}
