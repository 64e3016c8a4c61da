// The fields of one record, in fixed memory.
mod methods;

ghost use Rattle.std.specs.Prelude.{◌≤◌};
ghost use Rattle.arrayvec.specs.ArrayVec.{array_vec_len};
ghost use Rattle.records.specs.Laid.{Ordered, Inside};

use crate::limits::{MAX_BYTES, MAX_COMMAS};
use arrayvec::ArrayVec;

/// The fields of one record: their bytes one after the other, and where each field but the last ends.
// One buffer and the ends in it, and no list of texts: a record is kept in 1,024 bytes, and nothing here is allocated.
// No `impl Model`: its value would be the fields and how they lie, which is the struct.
#[derive(Drop)]
pub struct FieldList {
    bytes: ArrayVec<u8, MAX_BYTES>,
    ends: ArrayVec<u16, MAX_COMMAS>,
    ghost few: { array_vec_len ends ≤ 39 },
    ghost short: { array_vec_len bytes ≤ 1024 },
    ghost ordered: { Ordered ends.items },
    ghost inside: { Inside ends.items (array_vec_len bytes) },
}
