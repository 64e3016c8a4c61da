// What the calls do to the units.
ghost use Rattle.std.specs.Prelude.{◌≡◌, replicate, None};
ghost use Rattle.units.specs.Units.{Enrols, Files, Notices, unit_of};
ghost use Rattle.units.specs.Waiting.{Shows};

use super::{PLACES, Units};
use crate::unit::Unit;
use crate::waiting::{Received, WaitingForm};
use forms::{Form, FormLine};
use measures::{Day, Ranged, Refusal, UnitNumber};
use tariff::{Enrolment, Notice, Standing, Terms};

impl Units {
    /// No unit enrolled.
    pub fn new() -> Units
        ensures { result.units ≡ replicate 32 None }
    {
        Units {
            units: [None; PLACES],
        }
    }

    /// Enrols a unit, which then waits to be authorised.
    pub fn enrol(&mut self, unit: UnitNumber, given: Enrolment) -> Result<(), Refusal>
        ensures { Enrols self.old unit.0 given result self.new }
    {
        if !unit.is_in_range() {
            return Err(Refusal::Unlisted);
        }
        if self.enrolled(unit).is_ok() {
            return Err(Refusal::AlreadyEnrolled);
        }
        let own = Unit {
            terms: Terms::try_from(given)?,
            standing: Standing::Waiting,
            waiting: None,
        };
        self.put(unit, own);
        Ok(())
    }

    /// Moves a unit's standing by a notice, given by its number.
    // Any number is taken, and no `Notice`: a wrong one is refused only after the unit is looked for.
    pub fn notice(&mut self, unit: UnitNumber, number: u64, day: Day) -> Result<(), Refusal>
        ensures { Notices self.old unit.0 number day result self.new }
    {
        let mut own = self.enrolled(unit)?;
        own.notice(Notice::try_from(number)?, day)?;
        self.put(unit, own);
        Ok(())
    }

    /// Files a form, which then waits in place of any other. `today` is the book's day.
    pub fn file_form(
        &mut self,
        unit: UnitNumber,
        day: Day,
        today: Day,
        lines: &[FormLine],
    ) -> Result<(), Refusal>
        ensures { Files self.old unit.0 day today lines.now result self.new }
    {
        let mut own = self.enrolled(unit)?;
        if !day.is_in_range() {
            return Err(Refusal::OutOfRange);
        }
        if day < today {
            return Err(Refusal::BeforeBookDay);
        }
        let form = Form::new(lines)?;
        own.waiting = Some(Received {
            day,
            form: form.row(),
        });
        self.put(unit, own);
        Ok(())
    }

    /// The form that waits at a unit, if one does.
    pub fn waiting_form(&self, unit: UnitNumber) -> Result<Option<WaitingForm>, Refusal>
        ensures { Shows (unit_of self.now unit.0) result }
    {
        let own = self.enrolled(unit)?;
        Ok(
            own.waiting.map(|received| Received {
                day: received.day,
                form: Form::try_from(received.form).unwrap(),
            }),
        )
    }
}
