// A line of a form.
use measures::AccountNumber;
use split::Weighted;

/// A line of a form: an account, and its weight in the whole. The default stands in a place that has no line.
#[derive(Clone, Copy, PartialEq, Eq, Default, Debug)]
pub struct FormLine {
    pub account: AccountNumber,
    pub weight: u64,
}

impl Weighted for FormLine {
    ghost weighs = { λ line. line.weight };

    fn weight(&self) -> u64 {
        self.weight
    }
}
