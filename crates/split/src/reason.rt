// Why an amount cannot be split, and the total of the weights if it can.
ghost use Rattle.std.specs.Prelude.{◌≡◌, ◌+◌, ◌<◌, map, MatchOption};
ghost use Rattle.split.specs.Divisions.{Allows};
ghost use Rattle.split.specs.Splitting.{allowed_total, highest_total};

use crate::division::Division;
use crate::weighted::Weighted;
use measures::SignedCents;

/// The largest size of an amount that is split, in cents.
const LARGEST_AMOUNT: u64 = 100_000_000_000_000;

/// The highest total of weights.
const HIGHEST_TOTAL: u64 = 1_000_000;

/// Why an amount cannot be split.
#[derive(Clone, Copy, PartialEq, Eq, Debug)]
pub enum Unsplit {
    /// The amount is larger than 10^14 cents, above or below zero.
    AmountTooLarge,
    /// The weights add up to nothing or to more than 1,000,000.
    TotalOutOfRange,
    /// There are not as many places for shares as there are entries.
    WrongLength,
}

impl Division {
    /// The amount and the total of the weights of the entries, if it can be split over them into so many places, or the first reason against it.
    pub(crate) fn of<T: Weighted>(
        amount: SignedCents,
        entries: &[T],
        places: usize,
    ) -> Result<Division, Unsplit>
        ensures { Allows amount (map T.weighs entries.now) places result }
    {
        if amount.0.unsigned_abs() > LARGEST_AMOUNT {
            return Err(Unsplit::AmountTooLarge);
        }
        let total = total_weight(entries).ok_or(Unsplit::TotalOutOfRange)?;
        if places != entries.len() {
            return Err(Unsplit::WrongLength);
        }
        Ok(Division { amount, total })
    }
}

/// The total of the weights of some entries, if it is one that a split may have. The sum stops where it would pass the highest.
pub fn total_weight<T: Weighted>(entries: &[T]) -> Option<u64>
    ensures { result ≡ allowed_total (map T.weighs entries.now) }
{
    entries
        .iter()
        .try_fold(0, |total, entry| with_weight(total, entry.weight()))
        .filter(|total| (1..=HIGHEST_TOTAL).contains(total))
}

// The total with one weight more, unless that passes the highest.
fn with_weight(total: u64, weight: u64) -> Option<u64>
    ensures { MatchOption result (highest_total < total + weight) (λ reached. reached ≡ total + weight) }
{
    total
        .checked_add(weight)
        .filter(|reached| *reached <= HIGHEST_TOTAL)
}
