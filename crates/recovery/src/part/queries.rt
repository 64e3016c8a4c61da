// What the book asks of costs and market revenue.
ghost use Rattle.std.specs.Prelude.{◌≡◌};
ghost use Rattle.recovery.specs.Entering.{balance_of};

use super::Recovery;
use measures::{Cents, SignedCents};

impl Recovery {
    /// All costs ever entered.
    pub fn costs_entered(&self) -> Cents
        ensures { result ≡ self.now.costs.cents }
    {
        self.costs.cents
    }

    /// The costs that are not yet in the balance.
    pub fn costs_waiting(&self) -> Cents
        ensures { result ≡ self.now.waiting }
    {
        self.waiting
    }

    /// All market revenue ever entered.
    pub fn market_revenue(&self) -> Cents
        ensures { result ≡ self.now.revenue.cents }
    {
        self.revenue.cents
    }

    /// What the rate classes still owe, or are owed where it is negative.
    pub fn balance(&self) -> SignedCents
        ensures { result.0 ≡ balance_of self.now }
    {
        let joined = self.costs.cents.0 - self.waiting.0;
        SignedCents(joined as i64 - self.revenue.cents.0 as i64)
    }
}
