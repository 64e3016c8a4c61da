// What a call answers, and the three numbers that stand for it in a record.
ghost use Rattle.std.specs.Prelude.{◌≡◌};
ghost use Rattle.measures.specs.Answers.{row_of};

use crate::refusal::Refusal;

/// What a call answers: it was carried out, and there is nothing to report, or it was turned down, and nothing was changed.
pub type Answer = Result<(), Refusal>;

/// An answer as a record shows it: the refusal's number or 0, and two values, 0 where there is none.
// Plain numbers, and no `Result`: they are what stands in the record.
#[derive(Clone, Copy, PartialEq, Eq, Debug)]
pub struct Row {
    pub refusal: u8,
    pub first: i64,
    pub second: i64,
}

impl From<Answer> for Row {
    ghost from_gives = { λ answer row. row ≡ row_of answer };

    fn from(answer: Answer) -> Row {
        let refusal = match answer {
            Ok(()) => 0,
            Err(refusal) => refusal.number(),
        };
        Row {
            refusal,
            first: 0,
            second: 0,
        }
    }
}
