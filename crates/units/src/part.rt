// The places of the units in a book.
ghost use Rattle.std.specs.Prelude.{◌≡◌, length};
ghost use Rattle.units.specs.Unit.{AllFiled};

use crate::unit::Unit;

mod calls;
mod places;

/// How many units a book has places for.
const PLACES: usize = 32;

/// The units of a book, by their numbers. Every form on file is lawful.
#[derive(Drop)]
pub struct Units {
    units: [Option<Unit>; PLACES],
    ghost slots: { length units ≡ 32 },
    ghost filed: { AllFiled units },
}
