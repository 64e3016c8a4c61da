// All that was ever entered of a kind.
ghost use Rattle.std.specs.Prelude.{◌≡◌, ◌+◌, ◌≤◌};
ghost use Rattle.measures.specs.Answers.{Answered};
ghost use Rattle.recovery.specs.Limits.{against_adding, most_in_all};

use measures::{Cents, Refusal};

/// The most cents that are ever entered of a kind.
const MOST_IN_ALL: u64 = 1_000_000_000_000;

/// All cents ever entered of a kind, which never pass their limit.
#[derive(Clone, Copy)]
pub(crate) struct Total {
    pub(crate) cents: Cents,
    ghost bounded: { cents.0 ≤ most_in_all },
}

impl Total {
    /// Adds cents, unless the total would pass its limit.
    pub(crate) fn add(&mut self, amount: Cents) -> Result<(), Refusal>
        ensures { Answered (against_adding self.old.cents.0 amount.0) result self.old self.new
            (λ _. self.new.cents.0 ≡ self.old.cents.0 + amount.0) }
    {
        if amount.0 > MOST_IN_ALL - self.cents.0 {
            return Err(Refusal::LimitPassed);
        }
        self.cents = Cents(self.cents.0 + amount.0);
        Ok(())
    }
}
