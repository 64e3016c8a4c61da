// What can be wrong with a text of records.

/// Why a text cannot be read on; the first that is met from the left is given, and it ends the reading.
#[derive(Clone, Copy, PartialEq, Eq, Debug)]
pub enum Fault {
    /// A byte stands where the grammar does not allow it, or the text ends inside quotes or after a bare CR.
    BadText,
    /// A record has more than 1,024 bytes or more than 40 fields.
    TooLong,
}
