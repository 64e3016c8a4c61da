// Why a call or a record is turned down.
ghost use Rattle.std.specs.Prelude.{◌≡◌};
ghost use Rattle.measures.specs.Answers.{number_of};

/// The reasons for which a call or a record is turned down.
#[derive(Clone, Copy, PartialEq, Eq, Debug)]
pub enum Refusal {
    /// the call names a thing that is not there.
    Unlisted = 1,
    /// the unit is enrolled already.
    AlreadyEnrolled = 2,
    /// an input lies outside its range.
    OutOfRange = 3,
    /// the day lies before the book's day.
    BeforeBookDay = 4,
    /// the unit's standing does not allow the call.
    WrongStanding = 5,
    /// the form has no line or too many, a line has no weight, or the weights do not make up the whole.
    BadWeights = 8,
    /// the form names a number that is no account number, or an account twice.
    BadAccounts = 9,
    /// a sum would pass its limit.
    LimitPassed = 14,
    /// the account table is full.
    TableFull = 16,
    /// a byte of the text stands where the grammar of records does not allow it.
    BadText = 19,
    /// a record has more than 1,024 bytes or more than 40 fields.
    TooLong = 20,
    /// the record is no call: an unknown word, a wrong count of fields, or a field that is no number.
    NoCall = 21,
}

impl Refusal {
    /// The number that stands for this refusal in a record.
    // A method by name: `u8::from(refusal)` would not say which number it is.
    pub fn number(self) -> u8
        ensures { result ≡ number_of self }
    {
        self as u8
    }
}
