// The words that name the calls in a record.
ghost use Rattle.std.specs.Prelude.{◌≡◌, ok_or};
ghost use Rattle.measures.specs.declared.refusal.Refusal.TheVariants.{NoCall};
ghost use Rattle.desk.specs.Words.{name_of, word_in};

use measures::Refusal;

/// The word of a call.
#[derive(Clone, Copy, PartialEq, Eq, Debug)]
pub enum Word {
    Account,
}

impl Word {
    /// The word as it stands in a record.
    // Its bytes, and no `Display`: reading compares them, and the writer of records takes a field by its bytes.
    pub(crate) fn name(self) -> &'static [u8]
        ensures { result.now ≡ name_of self }
    {
        match self {
            Word::Account => b"account",
        }
    }
}

// The word that a field holds, if it holds one.
impl TryFrom<&[u8]> for Word {
    type Error = Refusal;

    ghost try_from_gives = { λ field word. word ≡ ok_or (word_in field.now) NoCall };

    fn try_from(field: &[u8]) -> Result<Word, Refusal> {
        if field == Word::Account.name() {
            Ok(Word::Account)
        } else {
            Err(Refusal::NoCall)
        }
    }
}
