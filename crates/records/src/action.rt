// What one byte does to the record that is being read.
ghost use Rattle.std.specs.Prelude.{◌≡◌};
ghost use Rattle.records.specs.Actions.{action_of};

use crate::bytes::{is_plain, is_text};

/// Where the reader stands in a field.
#[derive(Clone, Copy, PartialEq, Eq, Debug)]
pub enum Mode {
    /// At the start of a field, or in one that has no quotes.
    Plain,
    /// Inside quotes.
    Quoted,
    /// After a quote inside quotes: it closes the field, or is the first of two.
    Closing,
    /// After the CR that ends a record.
    Returned,
}

/// What a byte does.
// Data, and no closure that does it: the proof runs the same table of actions over lists of bytes.
#[derive(Clone, Copy, PartialEq, Eq, Debug)]
pub enum Action {
    /// It belongs to the field's value, and the reader then stands so.
    Keep(Mode),
    /// It opens quotes.
    OpenQuotes,
    /// It closes quotes, unless another quote follows.
    CloseQuotes,
    /// It is the comma after a field.
    Separate,
    /// It is the CR after the last field.
    Return,
    /// It is the LF that ends the record.
    End,
    /// It may not stand here.
    Refuse,
}

/// What a byte does where the reader stands; `fresh` says that the field has no byte yet.
pub fn act(mode: Mode, fresh: bool, byte: u8) -> Action
    ensures { result ≡ action_of mode fresh byte }
{
    match mode {
        Mode::Plain => act_plain(fresh, byte),
        Mode::Quoted => match byte {
            b'"' => Action::CloseQuotes,
            _ if is_text(byte) => Action::Keep(Mode::Quoted),
            _ => Action::Refuse,
        },
        Mode::Closing => match byte {
            b'"' => Action::Keep(Mode::Quoted),
            b',' => Action::Separate,
            b'\r' => Action::Return,
            _ => Action::Refuse,
        },
        Mode::Returned => match byte {
            b'\n' => Action::End,
            _ => Action::Refuse,
        },
    }
}

/// What a byte does outside quotes.
fn act_plain(fresh: bool, byte: u8) -> Action
    ensures { result ≡ action_of Mode.Plain fresh byte }
{
    match byte {
        b',' => Action::Separate,
        b'\r' => Action::Return,
        b'"' if fresh => Action::OpenQuotes,
        _ if is_plain(byte) => Action::Keep(Mode::Plain),
        _ => Action::Refuse,
    }
}
