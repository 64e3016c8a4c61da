// Where credit is posted: what every billing end promises, and the account table, the first of them.
#![tactic(auto)]

mod account;
mod billing_end;
mod table;

pub use billing_end::BillingEnd;
pub use measures::AccountNumber;
pub use table::AccountTable;

#[cfg(test)]
mod tests;
