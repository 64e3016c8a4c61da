// An amount divided by a total of weights.
ghost use Rattle.std.specs.Prelude.{◌≡◌, ◌<◌, ◌≤◌, unsigned_abs};
ghost use Rattle.split.specs.Shares.{part, share};
ghost use Rattle.split.specs.Splitting.{highest_total, largest_amount};

use measures::SignedCents;

/// An amount and the total of weights that it is divided by, each such as a split may have.
#[derive(Clone, Copy)]
pub(crate) struct Division {
    pub(crate) amount: SignedCents,
    pub(crate) total: u64,
    ghost size: { unsigned_abs amount.0 ≤ largest_amount },
    ghost some: { 0 < total },
    ghost bounded: { total ≤ highest_total },
}

impl Division {
    /// The share of one entry: what falls to the weights up to it, less what falls to those before it.
    /// `before` is the total of the weights before it, and `reached` that total with its own weight.
    #[tactic(auto, using(crate::proofs::Parts::part_rises, crate::proofs::Parts::part_within))]
    pub(crate) fn share(self, before: u64, reached: u64) -> SignedCents
        requires onward { before ≤ reached }
        requires within { reached ≤ self.total }
        ensures { result.0 ≡ share self.amount.0 self.total before reached }
    {
        let cents = self.part(reached) - self.part(before);
        // The sign by hand: `measures` keeps its own to itself, since that asks for a size that fits, and no public function asks anything.
        if self.amount.0 < 0 {
            SignedCents(-(cents as i64))
        } else {
            SignedCents(cents as i64)
        }
    }

    // The part of the size of the amount that falls to the first `reached` of the total, rounded down.
    // The size is divided by the total first, so that no product is too large.
    #[tactic(auto, using(crate::proofs::Parts::divided_first, crate::proofs::Parts::part_within))]
    fn part(self, reached: u64) -> u64
        requires { reached ≤ self.total }
        ensures { result ≡ part (unsigned_abs self.amount.0) self.total reached }
    {
        let size = self.amount.0.unsigned_abs();
        let whole = size / self.total;
        let left = size % self.total;
        whole * reached + left * reached / self.total
    }
}
