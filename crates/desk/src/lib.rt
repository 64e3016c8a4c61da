// From a text of records to calls, and from their answers to records.
#![tactic(auto)]

mod call;
mod carry;
mod reply;
mod service;
mod word;

pub use call::Call;
pub use reply::{Line, Reply};
pub use service::{Desk, Turn};
pub use word::Word;

#[cfg(test)]
mod tests;
