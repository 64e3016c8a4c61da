// The numbers that name a thing or a day, each a type of its own, so that none is taken for another; and what has a range.
// None carries its range: a call takes any number and tests it.
ghost use Rattle.std.specs.Prelude.{◌≡◌, ℕ};
ghost use Rattle.std.specs.Int.{is_in_range};
ghost use Rattle.measures.specs.Measures.{last_account, last_class, last_day, last_unit};

/// A number that lies in a range or not.
pub trait Ranged: Copy {
    /// The first number of the range.
    ghost FIRST: { ℕ };

    /// The last number of the range.
    ghost LAST: { ℕ };

    /// The number itself.
    ghost number: { Self → ℕ };

    const FIRST: u64;

    const LAST: u64;

    /// The number itself.
    // Each type gives it by a line of its own, since no macro of ours may write an `impl`.
    fn number(self) -> u64
        ensures { result ≡ number self };

    /// Whether this number lies in its range.
    final fn is_in_range(self) -> bool
        ensures { result ≡ is_in_range FIRST LAST (number self) }
    {
        (Self::FIRST..=Self::LAST).contains(&self.number())
    }
}

/// The number of an account at a billing end.
#[derive(Clone, Copy, PartialEq, Eq, Default, Debug)]
pub struct AccountNumber(pub u64);

/// The number of a solar unit in the book.
#[derive(Clone, Copy, PartialEq, Eq, Debug)]
pub struct UnitNumber(pub u64);

/// The number of a rate class.
#[derive(Clone, Copy, PartialEq, Eq, Debug)]
pub struct ClassNumber(pub u64);

/// A day, counted from 1 January 2018.
#[derive(Clone, Copy, PartialEq, Eq, PartialOrd, Ord, Debug)]
pub struct Day(pub u64);

impl Ranged for AccountNumber {
    ghost FIRST = { 1 };

    ghost LAST = { last_account };

    ghost number = { λ account. account.0 };

    const FIRST: u64 = 1;

    const LAST: u64 = 99_999_999_999;

    fn number(self) -> u64 {
        self.0
    }
}

// The book has places for 32 units.
impl Ranged for UnitNumber {
    ghost FIRST = { 0 };

    ghost LAST = { last_unit };

    ghost number = { λ unit. unit.0 };

    const FIRST: u64 = 0;

    const LAST: u64 = 31;

    fn number(self) -> u64 {
        self.0
    }
}

// There are eight rate classes.
impl Ranged for ClassNumber {
    ghost FIRST = { 0 };

    ghost LAST = { last_class };

    ghost number = { λ class. class.0 };

    const FIRST: u64 = 0;

    const LAST: u64 = 7;

    fn number(self) -> u64 {
        self.0
    }
}

impl Ranged for Day {
    ghost FIRST = { 0 };

    ghost LAST = { last_day };

    ghost number = { λ day. day.0 };

    const FIRST: u64 = 0;

    const LAST: u64 = 36_524;

    fn number(self) -> u64 {
        self.0
    }
}
