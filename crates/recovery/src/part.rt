// The sums that the recovery of costs keeps.
ghost use Rattle.std.specs.Prelude.{◌≤◌};

use crate::total::Total;
use measures::Cents;

mod calls;
mod queries;

/// The costs and the market revenue of a book.
#[derive(Drop)]
pub struct Recovery {
    // all costs ever entered
    costs: Total,
    // the costs that are not yet in the balance
    waiting: Cents,
    // all market revenue ever entered
    revenue: Total,
    ghost waiting_among_costs: { waiting.0 ≤ costs.cents.0 },
}
