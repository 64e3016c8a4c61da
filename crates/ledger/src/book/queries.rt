// The queries. None alters the book.
ghost use Rattle.std.specs.Prelude.{◌≡◌};
ghost use Rattle.ledger.specs.Queries.{balance, costs_entered, costs_not_in_balance, market_revenue, Waits};

use super::Book;
use measures::{Cents, Refusal, SignedCents, UnitNumber};
use units::WaitingForm;

impl Book {
    /// All costs ever entered.
    pub fn costs_entered(&self) -> Cents
        ensures { result.0 ≡ costs_entered self.now }
    {
        self.recovery.costs_entered()
    }

    /// The costs that are not yet in the balance.
    pub fn costs_not_in_balance(&self) -> Cents
        ensures { result.0 ≡ costs_not_in_balance self.now }
    {
        self.recovery.costs_waiting()
    }

    /// All market revenue ever entered.
    pub fn market_revenue(&self) -> Cents
        ensures { result.0 ≡ market_revenue self.now }
    {
        self.recovery.market_revenue()
    }

    /// What the rate classes still owe, or are owed where it is negative.
    pub fn balance(&self) -> SignedCents
        ensures { result.0 ≡ balance self.now }
    {
        self.recovery.balance()
    }

    /// The form that waits at a unit, if one does; refused if the unit is not enrolled.
    pub fn waiting_form(&self, unit: UnitNumber) -> Result<Option<WaitingForm>, Refusal>
        ensures { Waits self.now unit.0 result }
    {
        self.units.waiting_form(unit)
    }
}
