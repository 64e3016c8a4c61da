// Splits an amount of cents into whole-cent shares by weights, so that no cent is lost and none is made.
#![tactic(auto)]

ghost use Rattle.std.specs.Prelude.{map, OnOk};
ghost use Rattle.split.specs.Fairness.{Close, NoneForNone, Whole};
ghost use Rattle.split.specs.Shares.{amounts};
ghost use Rattle.split.specs.Splitting.{Splits};

use measures::SignedCents;

mod division;
mod fill;
mod reason;
mod weighted;

use division::Division;
pub use reason::{Unsplit, total_weight};
pub use weighted::Weighted;

#[cfg(test)]
mod tests;

/// Splits an amount over entries by their weights, and fills in the share of each.
/// The shares add up to the amount, each is less than a cent from its exact part, and an entry of no weight gets nothing.
pub fn split<T: Weighted>(
    amount: SignedCents,
    entries: &[T],
    shares: &mut [SignedCents],
) -> Result<(), Unsplit>
    ensures split { Splits amount.0 (map T.weighs entries.now) result shares.old shares.new }
    ensures whole { OnOk result (Whole amount.0 (amounts shares.new)) }
    ensures close { OnOk result (Close amount.0 (map T.weighs entries.now) (amounts shares.new)) }
    ensures none { OnOk result (NoneForNone (map T.weighs entries.now) (amounts shares.new)) }
{
    let division = Division::of(amount, entries, shares.len())?;
    division.fill(entries, shares);
    Ok(())
}
