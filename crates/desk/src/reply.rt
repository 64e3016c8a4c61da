// What a record is answered, and the record that says so.
ghost use Rattle.std.specs.Prelude.{◌≡◌, ◌≤◌};
ghost use Rattle.arrayvec.specs.ArrayVec.{array_vec_len};
ghost use Rattle.desk.specs.Replies.{Shows, unread, word_shown, refusal_of};

use crate::word::Word;
use arrayvec::ArrayVec;
use measures::{Answer, Refusal, Row};
use records::{Decimal, Fault, write_record};

/// The most bytes of an answer record with its CRLF.
const LINE_BYTES: usize = 80;

/// What a record is answered: the word of its call, or none where it asks for no call, and the call's answer.
#[derive(Clone, Copy, PartialEq, Eq, Debug)]
pub struct Reply {
    pub word: Option<Word>,
    pub answer: Answer,
}

/// An answer record with its CRLF.
#[derive(Drop)]
pub struct Line {
    bytes: ArrayVec<u8, LINE_BYTES>,
    ghost within: { array_vec_len bytes ≤ 80 },
}

impl Reply {
    /// The reply to a record that asks for no call.
    pub(crate) fn unread(refusal: Refusal) -> Reply
        ensures { result ≡ unread refusal }
    {
        Reply {
            word: None,
            answer: Err(refusal),
        }
    }

    /// The record that shows this reply: the word, the refusal's number or 0, and two values.
    // By name, and no `Display`: a record's quotes and limits are the writer's, which works on bytes.
    pub fn line(self) -> Line
        ensures { Shows self result.bytes.items }
    {
        let row = Row::from(self.answer);
        let refusal = Decimal::new(i64::from(row.refusal));
        let first = Decimal::new(row.first);
        let second = Decimal::new(row.second);
        let fields: [&[u8]; 4] = [
            self.shown(),
            refusal.as_bytes(),
            first.as_bytes(),
            second.as_bytes(),
        ];
        let mut places = [0; LINE_BYTES];
        let len = write_record(&fields, &mut places).unwrap();
        let mut bytes = ArrayVec::new();
        bytes.try_extend_from_slice(&places[..len]).unwrap();
        Line { bytes }
    }

    // The word as the record shows it.
    fn shown(self) -> &'static [u8]
        ensures { result.now ≡ word_shown self.word }
    {
        self.word.map_or(b"?".as_slice(), |word| word.name())
    }
}

// The reply at a fault of the text.
impl From<Fault> for Reply {
    ghost from_gives = { λ fault reply. reply ≡ unread (refusal_of fault) };

    fn from(fault: Fault) -> Reply {
        match fault {
            Fault::BadText => Reply::unread(Refusal::BadText),
            Fault::TooLong => Reply::unread(Refusal::TooLong),
        }
    }
}

impl Line {
    /// The bytes of the line.
    pub fn as_bytes(&self) -> &[u8]
        ensures { result.now ≡ self.now.bytes.items }
    {
        self.bytes.as_slice()
    }
}
