// What the tariff says of a unit: its terms, its standing, and the rates of its class.
#![tactic(auto)]

mod rates;
mod standing;
mod terms;

pub use rates::BasicRates;
pub use standing::{Notice, Standing};
pub use terms::{Energy, Enrolment, Particulars, Place, Terms};
