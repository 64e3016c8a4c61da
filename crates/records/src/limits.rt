// The limits of a record: they fix the memory that reading one takes.

/// The most bytes that a record may have, the CRLF after it not counted.
pub const MAX_BYTES: usize = 1024;

/// The most fields that a record may have.
pub const MAX_FIELDS: usize = 40;

/// The most commas that may stand between the fields of a record.
pub(crate) const MAX_COMMAS: usize = 39;
