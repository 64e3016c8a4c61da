// One enrolled unit, and what a notice does to it.
ghost use Rattle.units.specs.Unit.{Noted};

use crate::waiting::Received;
use forms::FormRow;
use measures::{Day, Ranged, Refusal};
use tariff::Notice::{Authorised, NonCompliant, Remedied, Revoked};
use tariff::Standing::{Active, Ended, Suspended, Waiting};
use tariff::{Notice, Standing, Terms};

/// An enrolled unit.
#[derive(Clone, Copy)]
pub struct Unit {
    pub(crate) terms: Terms,
    pub(crate) standing: Standing,
    /// The form that waits to come into force. Whatever the book files is a plain row, which it keeps lawful.
    pub(crate) waiting: Option<Received<FormRow>>,
}

impl Unit {
    /// Moves the standing by a notice.
    pub(crate) fn notice(&mut self, notice: Notice, day: Day) -> Result<(), Refusal>
        ensures { Noted self.old notice day result self.new }
    {
        if !day.is_in_range() {
            return Err(Refusal::OutOfRange);
        }
        self.standing = match (self.standing, notice) {
            (Waiting, Authorised) => Active { effective: day },
            (Active { effective }, NonCompliant) => Suspended { effective },
            (Suspended { effective }, Remedied) => Active { effective },
            (Waiting | Active { .. } | Suspended { .. }, Revoked) => Ended,
            _ => return Err(Refusal::WrongStanding),
        };
        Ok(())
    }
}
