// The Basic Service rates, one for each rate class.
ghost use Rattle.std.specs.Prelude.{◌≡◌, length};

use measures::Rate;

mod calls;

/// The number of rate classes.
const CLASSES: usize = 8;

/// The Basic Service rate of each class.
#[derive(Drop)]
pub struct BasicRates {
    rates: [Rate; CLASSES],
    ghost slots: { length rates ≡ 8 },
}
