// The book and its parts.
use measures::Day;
use recovery::Recovery;
use tariff::BasicRates;
use units::Units;

mod calls;
mod queries;

/// The settlement book. Each call alters one part, and the day if it is a dated call.
#[derive(Drop)]
pub struct Book {
    // the day of the last dated call that was accepted
    day: Day,
    units: Units,
    rates: BasicRates,
    recovery: Recovery,
}
