// Comma-separated records (RFC 4180) in fixed memory: reading, writing, and the numbers in their fields.
#![tactic(auto)]

mod action;
mod bytes;
mod draft;
mod fault;
mod field_list;
mod limits;
mod numeral;
mod reader;
#[cfg(test)]
mod tests;
mod writer;

pub use fault::Fault;
pub use field_list::FieldList;
pub use limits::{MAX_BYTES, MAX_FIELDS};
pub use numeral::{Decimal, number};
pub use reader::{Event, Progress, Reader};
pub use writer::{Unwritable, write_record};
