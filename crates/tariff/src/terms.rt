// The terms on which a unit is paid.
ghost use Rattle.std.specs.Prelude.{◌≡◌, ok_or};
ghost use Rattle.measures.specs.declared.refusal.Refusal.TheVariants.{OutOfRange};
ghost use Rattle.tariff.specs.Terms.{energy_in, in_ranges, place_in, rates_in_range, terms_in};

use measures::{ClassNumber, Day, Ranged, Rate, Refusal};

/// The most watts of a unit.
const MOST_WATTS: u64 = 5_000_000;

/// Where a unit is connected.
#[derive(Clone, Copy, PartialEq, Eq, Debug)]
pub enum Place {
    Standalone,
    BehindTheMeter,
}

/// How a unit's energy is compensated.
#[derive(Clone, Copy, PartialEq, Eq, Debug)]
pub enum Energy {
    NetMetered,
    Purchased,
    OnBillCredit,
}

/// What a unit is enrolled with besides its place and its compensation. A call takes any numbers and tests them.
#[derive(Clone, Copy, PartialEq, Eq, Debug)]
pub struct Particulars {
    pub class: ClassNumber,
    pub watts: u64,
    pub qualified: Day,
    pub base: Rate,
    pub adder: Rate,
    pub subtractor: Rate,
    /// The distribution, transmission and transition charges together.
    pub charges: Rate,
    /// The three-year average of the Basic Service rate.
    pub average: Rate,
}

/// What an operator gives to enrol a unit.
// Place and compensation are numbers here: a wrong one is refused only after the unit is looked for.
#[derive(Clone, Copy, PartialEq, Eq, Debug)]
pub struct Enrolment {
    /// 1 standalone, 2 behind the meter.
    pub place: u64,
    /// 1 net metered, 2 purchased, 3 on-bill credit.
    pub energy: u64,
    pub particulars: Particulars,
}

/// The terms of an enrolled unit.
#[derive(Clone, Copy, PartialEq, Eq, Debug)]
pub struct Terms {
    pub place: Place,
    pub energy: Energy,
    pub particulars: Particulars,
}

impl Particulars {
    // Whether class, watts, day and rates are in their ranges.
    fn is_in_ranges(self) -> bool
        ensures { result ≡ in_ranges self }
    {
        self.class.is_in_range()
            && (1..=MOST_WATTS).contains(&self.watts)
            && self.qualified.is_in_range()
            && self.are_rates_in_range()
    }

    // Whether the five rates are in range.
    fn are_rates_in_range(self) -> bool
        ensures { result ≡ rates_in_range self }
    {
        self.base.is_in_range()
            && self.adder.is_in_range()
            && self.subtractor.is_in_range()
            && self.charges.is_in_range()
            && self.average.is_in_range()
    }
}

// The terms that an enrolment gives, if each number is in its range.
impl TryFrom<Enrolment> for Terms {
    type Error = Refusal;

    ghost try_from_gives = { λ given terms. terms ≡ ok_or (terms_in given) OutOfRange };

    fn try_from(given: Enrolment) -> Result<Terms, Refusal> {
        if !given.particulars.is_in_ranges() {
            return Err(Refusal::OutOfRange);
        }
        Ok(Terms {
            place: Place::try_from(given.place)?,
            energy: Energy::try_from(given.energy)?,
            particulars: given.particulars,
        })
    }
}

// The place of a number, 1 or 2.
impl TryFrom<u64> for Place {
    type Error = Refusal;

    ghost try_from_gives = { λ number place. place ≡ ok_or (place_in number) OutOfRange };

    fn try_from(number: u64) -> Result<Place, Refusal> {
        match number {
            1 => Ok(Place::Standalone),
            2 => Ok(Place::BehindTheMeter),
            _ => Err(Refusal::OutOfRange),
        }
    }
}

// The compensation of a number, from 1 to 3.
impl TryFrom<u64> for Energy {
    type Error = Refusal;

    ghost try_from_gives = { λ number energy. energy ≡ ok_or (energy_in number) OutOfRange };

    fn try_from(number: u64) -> Result<Energy, Refusal> {
        match number {
            1 => Ok(Energy::NetMetered),
            2 => Ok(Energy::Purchased),
            3 => Ok(Energy::OnBillCredit),
            _ => Err(Refusal::OutOfRange),
        }
    }
}
