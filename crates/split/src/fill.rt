// Filling in the shares of all entries.
ghost use Rattle.std.specs.Prelude.{◌≡◌, map, length, sum};
ghost use Rattle.split.specs.Fairness.{Close, NoneForNone, Whole};
ghost use Rattle.split.specs.Shares.{amounts, shares_of};

use crate::division::Division;
use crate::weighted::Weighted;
use measures::SignedCents;

impl Division {
    /// Fills in the share of each entry.
    pub(crate) fn fill<T: Weighted>(self, entries: &[T], shares: &mut [SignedCents])
        requires totalled { self.total ≡ sum (map T.weighs entries.now) }
        requires each { length shares.old ≡ length entries.now }
        ensures split { amounts shares.new ≡ shares_of self.amount.0 (map T.weighs entries.now) }
        ensures whole { Whole self.amount.0 (amounts shares.new) }
        ensures close { Close self.amount.0 (map T.weighs entries.now) (amounts shares.new) }
        ensures none { NoneForNone (map T.weighs entries.now) (amounts shares.new) }
    {
        let mut before = 0;
        // A place is written by its index: with `zip(shares.iter_mut())` it did not prove what the places hold in the end.
        for (i, entry) in entries.iter().enumerate() {
            let reached = before + entry.weight();
            shares[i] = self.share(before, reached);
            before = reached;
        }
    }
}
