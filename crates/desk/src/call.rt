// The calls that a record can ask for.
ghost use Rattle.std.specs.Prelude.{◌≡◌, ok_or};
ghost use Rattle.measures.specs.declared.refusal.Refusal.TheVariants.{NoCall};
ghost use Rattle.records.specs.FieldLists.{fields_of};
ghost use Rattle.desk.specs.Calls.{account_in, call_in, input_in, word_of};

use crate::word::Word;
use ends::AccountNumber;
use measures::Refusal;
use records::{FieldList, number};

/// A call, with its inputs as the record gives them.
#[derive(Clone, Copy, PartialEq, Eq, Debug)]
pub enum Call {
    /// Opens an account if the flag is 1, and closes it if the flag is 0.
    // Any number is a flag here: a wrong one is refused where the call is carried out, and the record is a call all the same.
    Account { number: AccountNumber, flag: u64 },
}

impl Call {
    /// The word of this call.
    pub(crate) fn word(self) -> Word
        ensures { result ≡ word_of self }
    {
        match self {
            Call::Account { .. } => Word::Account,
        }
    }
}

// The call that a record asks for, if it asks for one.
impl TryFrom<&FieldList> for Call {
    type Error = Refusal;

    ghost try_from_gives = { λ fields call. call ≡ ok_or (call_in (fields_of fields.now)) NoCall };

    fn try_from(fields: &FieldList) -> Result<Call, Refusal> {
        let word = fields.field(0).ok_or(Refusal::NoCall)?;
        match Word::try_from(word)? {
            Word::Account => account(fields).ok_or(Refusal::NoCall),
        }
    }
}

// The number in the field at a place.
fn input(fields: &FieldList, place: usize) -> Option<u64>
    ensures { result ≡ input_in (fields_of fields.now) place }
{
    number(fields.field(place)?)
}

// The call of a record whose word is `account`.
fn account(fields: &FieldList) -> Option<Call>
    ensures { result ≡ account_in (fields_of fields.now) }
{
    if fields.count() != 3 {
        return None;
    }
    let number = AccountNumber(input(fields, 1)?);
    let flag = input(fields, 2)?;
    Some(Call::Account { number, flag })
}
