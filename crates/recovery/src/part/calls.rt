// Entering costs and market revenue.
ghost use Rattle.recovery.specs.Entering.{Enters, Unentered};

use super::Recovery;
use crate::entry::Entry;
use crate::total::Total;
use measures::{Cents, Refusal};

/// The most cents that are entered at once.
const MOST_AT_ONCE: Cents = Cents(100_000_000_000);

impl Recovery {
    /// Nothing entered yet.
    pub fn new() -> Recovery
        ensures { Unentered result }
    {
        Recovery {
            costs: Total { cents: Cents(0) },
            waiting: Cents(0),
            revenue: Total { cents: Cents(0) },
        }
    }

    /// Enters cents of a kind: 1 adds costs, which wait to join the balance, and 2 adds market revenue.
    // Any number is taken as a kind, since each call answers whatever it is given.
    pub fn enter(&mut self, kind: u64, amount: Cents) -> Result<(), Refusal>
        ensures { Enters self.old kind amount.0 result self.new }
    {
        let entry = Entry::try_from(kind)?;
        if amount > MOST_AT_ONCE {
            return Err(Refusal::OutOfRange);
        }
        match entry {
            Entry::Costs => {
                self.costs.add(amount)?;
                self.waiting = Cents(self.waiting.0 + amount.0);
            }
            Entry::MarketRevenue => self.revenue.add(amount)?,
        }
        Ok(())
    }
}
