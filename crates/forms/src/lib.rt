// The allocation form: how a whole is shared out to accounts.
#![tactic(auto)]

mod allocation;
mod line;
mod naming;
mod row;
mod weighing;

pub use allocation::{Form, Unlawful};
pub use line::FormLine;
pub use row::FormRow;
pub use weighing::WHOLE_WEIGHT;

#[cfg(test)]
mod tests;
