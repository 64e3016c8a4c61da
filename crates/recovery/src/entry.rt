// What may be entered.
ghost use Rattle.std.specs.Prelude.{◌≡◌, ok_or};
ghost use Rattle.measures.specs.declared.refusal.Refusal.TheVariants.{OutOfRange};
ghost use Rattle.recovery.specs.Kinds.{entry_in};

use measures::Refusal;

/// What cents are entered as.
#[derive(Clone, Copy, PartialEq, Eq, Debug)]
pub(crate) enum Entry {
    Costs,
    MarketRevenue,
}

// What is entered as a kind: 1 is costs, and 2 market revenue.
impl TryFrom<u64> for Entry {
    type Error = Refusal;

    ghost try_from_gives = { λ kind entry. entry ≡ ok_or (entry_in kind) OutOfRange };

    fn try_from(kind: u64) -> Result<Entry, Refusal> {
        match kind {
            1 => Ok(Entry::Costs),
            2 => Ok(Entry::MarketRevenue),
            _ => Err(Refusal::OutOfRange),
        }
    }
}
