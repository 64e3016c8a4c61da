// The allocation form.
ghost use Rattle.std.specs.Prelude.{◌≡◌, true};
ghost use Rattle.forms.specs.Rows.{lawful};

use crate::row::FormRow;

mod calls;

/// An allocation form. Every form that exists is lawful.
#[derive(Clone, Copy)]
pub struct Form {
    row: FormRow,
    ghost sound: { lawful row ≡ true },
}

/// What is answered of a row that is no form.
#[derive(Clone, Copy, PartialEq, Eq, Debug)]
pub struct Unlawful;
