// The unit at a place, and how one is written there.
ghost use Rattle.std.specs.Prelude.{◌≡◌, ◌<◌, true, Some, ok_or, IfOk, OnOk, slice_set};
ghost use Rattle.measures.specs.declared.refusal.Refusal.TheVariants.{Unlisted};
ghost use Rattle.units.specs.Unit.{filed};
ghost use Rattle.units.specs.Units.{unit_of};

use super::Units;
use crate::unit::Unit as Enrolled;
use measures::{Ranged, Refusal, UnitNumber};

impl Units {
    /// The unit of a number, if it is enrolled.
    pub(super) fn enrolled(&self, unit: UnitNumber) -> Result<Enrolled, Refusal>
        ensures found { result ≡ ok_or (unit_of self.now unit.0) Unlisted }
        ensures lawful { IfOk result (λ own. filed own.waiting ≡ true) }
        ensures place { OnOk result (unit.0 < 32) }
    {
        if !unit.is_in_range() {
            return Err(Refusal::Unlisted);
        }
        self.units[unit.0 as usize].ok_or(Refusal::Unlisted)
    }

    /// Puts a unit in the place of its number.
    pub(super) fn put(&mut self, unit: UnitNumber, own: Enrolled)
        requires place { unit.0 < 32 }
        requires lawful { filed own.waiting ≡ true }
        ensures { self.new.units ≡ slice_set self.old.units unit.0 (Some own) }
    {
        self.units[unit.0 as usize] = Some(own);
    }
}
