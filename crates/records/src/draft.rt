// A record as far as it is read.
mod read;
mod take_in;

ghost use Rattle.std.specs.Prelude.{◌≤◌};
ghost use Rattle.arrayvec.specs.ArrayVec.{array_vec_len};

use crate::action::Mode;
use crate::field_list::FieldList;

/// A record as far as it is read: its fields, where the last of them stands, and how many bytes count towards the limit.
#[derive(Drop)]
pub struct Draft {
    fields: FieldList,
    mode: Mode,
    taken: usize,
    ghost room: { array_vec_len fields.bytes ≤ taken },
    ghost short: { taken ≤ 1024 },
}
