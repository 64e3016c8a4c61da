// The units of a book, each with its terms, its standing and its forms.
#![tactic(auto)]

mod part;
mod unit;
mod waiting;

pub use part::Units;
pub use unit::Unit;
pub use waiting::{Received, WaitingForm};
