// Whether the weights of some lines make a form.
ghost use Rattle.std.specs.Prelude.{◌≡◌, ◌==◌};
ghost use Rattle.std.specs.List.{list_all};
ghost use Rattle.forms.specs.Limits.{whole_weight};
ghost use Rattle.forms.specs.Lines.{has_weight, is_line_count, total_weight, weights_lawful};

use crate::line::FormLine;
use split::total_weight;

/// What the weights of a form make up together.
pub const WHOLE_WEIGHT: u64 = 10_000;

/// The most lines of a form.
pub(crate) const MOST_LINES: usize = 16;

/// Whether a form may have so many lines.
pub(crate) fn is_line_count(n: usize) -> bool
    ensures { result ≡ is_line_count n }
{
    (1..=MOST_LINES).contains(&n)
}

/// Whether these are as many lines as a form may have, each has a weight, and the weights make up the whole.
pub(crate) fn are_weights_lawful(lines: &[FormLine]) -> bool
    ensures { result ≡ weights_lawful lines.now }
{
    is_line_count(lines.len()) && have_weights(lines) && make_up_whole(lines)
}

// Whether each line has a weight.
fn have_weights(lines: &[FormLine]) -> bool
    ensures { result ≡ list_all has_weight lines.now }
{
    lines.iter().all(|line| line.weight > 0)
}

// Whether the weights of the lines make up the whole.
fn make_up_whole(lines: &[FormLine]) -> bool
    ensures { result ≡ (total_weight lines.now == whole_weight) }
{
    total_weight(lines) == Some(WHOLE_WEIGHT)
}
