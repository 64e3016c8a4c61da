// The accounts that are credited, by their numbers.
ghost use Rattle.std.specs.Prelude.{◌≡◌, ◌≤◌};
ghost use Rattle.ends.specs.Accounts.{fresh, reach};
ghost use Rattle.ends.specs.Limits.{most_credit};

use measures::{AccountNumber, Cents};

/// The most credit that an account has, in cents.
const MOST_CREDIT: u64 = 1_000_000_000_000;

/// The most that an account takes in one posting, in cents.
const MOST_IN_ONE_POSTING: u64 = 10_000_000_000;

/// An account of the table: its credit, and whether it takes postings.
#[derive(Clone, Copy, Default)]
pub(crate) struct Account {
    pub(crate) number: AccountNumber,
    pub(crate) credit: Cents,
    /// Whether it takes postings; a closed account keeps its credit, so this is no Option of the credit.
    pub(crate) open: bool,
}

impl Account {
    /// An account at its first opening.
    pub(crate) fn fresh(number: AccountNumber) -> Self
        ensures { result ≡ fresh number.0 }
    {
        Account {
            number,
            credit: Cents(0),
            open: true,
        }
    }

    /// The most that this account takes in one posting.
    pub(crate) fn reach(self) -> Cents
        requires { self.credit.0 ≤ most_credit }
        ensures { result.0 ≡ reach self }
    {
        if self.open {
            Cents(MOST_IN_ONE_POSTING.min(MOST_CREDIT - self.credit.0))
        } else {
            Cents(0)
        }
    }
}
