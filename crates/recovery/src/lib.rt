// What is recovered from the rate classes: costs, market revenue, and the balance between them.
#![tactic(auto)]

mod entry;
mod part;
mod total;

pub use part::Recovery;
