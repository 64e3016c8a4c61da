// The calls. Each is refused for the first reason in the order of its rules, and then leaves the book as it was.
// A notice and the kind of an entry come as numbers, since a call takes any number and answers it.
ghost use Rattle.ledger.specs.Calls.{Enrols, Enters, Forms, Notices, Opened, SetsBasic};

use super::Book;
use forms::FormLine;
use measures::{Cents, ClassNumber, Day, Rate, Refusal, UnitNumber};
use recovery::Recovery;
use tariff::{BasicRates, Enrolment};
use units::Units;

impl Book {
    /// An empty book, at day 0.
    pub fn new() -> Book
        ensures { Opened result }
    {
        Book {
            day: Day(0),
            units: Units::new(),
            rates: BasicRates::new(),
            recovery: Recovery::new(),
        }
    }

    /// Enrols a unit, which then waits to be authorised.
    pub fn enrol(&mut self, unit: UnitNumber, given: Enrolment) -> Result<(), Refusal>
        ensures { Enrols self.old unit.0 given result self.new }
    {
        self.units.enrol(unit, given)
    }

    /// Moves a unit's standing: 1 authorised, 2 non-compliant, 3 remedied, 4 revoked.
    // Any number is taken, and no `Notice`: a wrong one is refused only after the unit is looked for.
    pub fn notice(&mut self, unit: UnitNumber, notice: u64, day: Day) -> Result<(), Refusal>
        ensures { Notices self.old unit.0 notice day result self.new }
    {
        self.units.notice(unit, notice, day)
    }

    /// Sets the Basic Service rate of a class.
    pub fn basic(&mut self, class: ClassNumber, rate: Rate) -> Result<(), Refusal>
        ensures { SetsBasic self.old class.0 rate.0 result self.new }
    {
        self.rates.set(class, rate)
    }

    /// Files a unit's form, which then waits in place of any other, and sets the book's day.
    pub fn form(&mut self, unit: UnitNumber, day: Day, lines: &[FormLine]) -> Result<(), Refusal>
        ensures { Forms self.old unit.0 day lines.now result self.new }
    {
        self.units.file_form(unit, day, self.day, lines)?;
        self.day = day;
        Ok(())
    }

    /// Enters cents: 1 adds costs, which wait to join the balance, and 2 adds market revenue.
    // Any number is taken as a kind, since each call answers whatever it is given.
    pub fn enter(&mut self, kind: u64, amount: Cents) -> Result<(), Refusal>
        ensures { Enters self.old kind amount.0 result self.new }
    {
        self.recovery.enter(kind, amount)
    }
}
