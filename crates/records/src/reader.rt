// A reader of records that is given its text in parts, in fixed memory.
mod read;

use crate::draft::Draft;
use crate::fault::Fault;

/// What reading came to, where the text is not faulty.
#[derive(Clone, Copy, PartialEq, Eq, Debug)]
pub enum Event {
    /// No record has ended yet: more text is wanted.
    More,
    /// A record has ended: the reader holds its fields.
    Record,
}

/// How far a part of the text was read, and what that came to.
#[derive(Clone, Copy)]
pub struct Progress {
    /// How many bytes of the part were taken in; before a fault, those before it.
    pub used: usize,
    /// What ended there, or the fault that ended the reading.
    pub event: Result<Event, Fault>,
}

/// Reads the records of a text one after the other.
#[derive(Drop)]
pub struct Reader {
    draft: Draft,
    /// What the reading came to last: a fault ended it.
    status: Result<Event, Fault>,
}
