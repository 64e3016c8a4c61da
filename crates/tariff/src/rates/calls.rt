// Setting the Basic Service rate of a class.
ghost use Rattle.std.specs.Prelude.{◌≡◌, replicate};
ghost use Rattle.tariff.specs.Rates.{Sets, no_rate};

use super::{BasicRates, CLASSES};
use measures::{ClassNumber, Ranged, Rate, Refusal};

impl BasicRates {
    /// Rates that nobody has set yet: each is 0.
    pub fn new() -> BasicRates
        ensures { result.rates ≡ replicate 8 no_rate }
    {
        BasicRates {
            rates: [Rate(0); CLASSES],
        }
    }

    /// Sets the rate of a class.
    pub fn set(&mut self, class: ClassNumber, rate: Rate) -> Result<(), Refusal>
        ensures { Sets self.old class.0 rate.0 result self.new }
    {
        if !class.is_in_range() {
            return Err(Refusal::Unlisted);
        }
        if !rate.is_in_range() {
            return Err(Refusal::OutOfRange);
        }
        self.rates[class.0 as usize] = rate;
        Ok(())
    }
}
