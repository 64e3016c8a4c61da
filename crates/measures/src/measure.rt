// The four measures. Each is a type of its own, so that none is taken for another.
// A measure carries no range: a call takes any number and tests it.
// An amount that is never negative has the unsigned type of its measure; one that may be has the signed type beside it.
// The two are no generic struct over the number: an alias makes no value, so `SignedCents(5)` would be `Cents::<i64>(5)`.
ghost use Rattle.std.specs.Prelude.{◌≡◌};
ghost use Rattle.measures.specs.Measures.{highest_rate};
ghost use Rattle.measures.specs.Rounding.{down, whole_cents, fraction};

use crate::number::Ranged;
use crate::rounding::rounded_down;

/// The millicents of a cent.
const MILLICENTS_OF_A_CENT: u64 = 1000;

/// Energy, in whole kilowatt-hours.
#[derive(Clone, Copy, PartialEq, Eq, Debug)]
pub struct Kwh(pub u64);

/// A price of energy, in thousandths of a cent per kilowatt-hour.
#[derive(Clone, Copy, PartialEq, Eq, Debug)]
pub struct Rate(pub u64);

/// A rate that may be negative: a unit's net rate, or a class factor.
#[derive(Clone, Copy, PartialEq, Eq, Debug)]
pub struct SignedRate(pub i64);

/// Money, in whole cents.
#[derive(Clone, Copy, PartialEq, Eq, PartialOrd, Ord, Default, Debug)]
pub struct Cents(pub u64);

/// Cents that may be negative: a balance, or a share of one.
#[derive(Clone, Copy, PartialEq, Eq, Debug)]
pub struct SignedCents(pub i64);

/// Money, in thousandths of a cent ($0.00001).
#[derive(Clone, Copy, PartialEq, Eq, Debug)]
pub struct Millicents(pub u64);

/// Millicents that may be negative: what a class was billed.
#[derive(Clone, Copy, PartialEq, Eq, Debug)]
pub struct SignedMillicents(pub i64);

// The range of a rate that an operator gives.
impl Ranged for Rate {
    ghost FIRST = { 0 };

    ghost LAST = { highest_rate };

    ghost number = { λ rate. rate.0 };

    const FIRST: u64 = 0;

    const LAST: u64 = 100_000;

    fn number(self) -> u64 {
        self.0
    }
}

impl Millicents {
    /// The whole cents of this amount.
    pub fn whole_cents(self) -> Cents
        ensures { result.0 ≡ whole_cents self.0 }
    {
        Cents(self.0 / MILLICENTS_OF_A_CENT)
    }

    /// What is left of this amount without its whole cents.
    pub fn fraction(self) -> Millicents
        ensures { result.0 ≡ fraction self.0 }
    {
        Millicents(self.0 % MILLICENTS_OF_A_CENT)
    }
}

impl SignedMillicents {
    /// The whole cents of this amount, rounded down, also below zero.
    pub fn whole_cents(self) -> SignedCents
        ensures { result.0 ≡ down self.0 1000 }
    {
        SignedCents(rounded_down(self.0, MILLICENTS_OF_A_CENT).unwrap())
    }
}
