// What the book counts in, the numbers that name things, and how a call answers.
#![tactic(auto)]

mod answer;
mod measure;
mod number;
mod refusal;
mod rounding;

pub use answer::{Answer, Row};
pub use measure::{Cents, Kwh, Millicents, Rate, SignedCents, SignedMillicents, SignedRate};
pub use number::{AccountNumber, ClassNumber, Day, Ranged, UnitNumber};
pub use refusal::Refusal;
pub use rounding::{rounded_down, rounded_to_nearest, rounded_toward_zero};

#[cfg(test)]
mod tests;
