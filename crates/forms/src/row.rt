// A form as it lies on file.
ghost use Rattle.std.specs.Prelude.{◌≡◌, ◌≤◌, true, ◌&&◌, length};
ghost use Rattle.std.specs.List.{list_all};
ghost use Rattle.forms.specs.Limits.{most_lines};
ghost use Rattle.forms.specs.Lines.{accounts_lawful, is_line_count, weights_lawful};
ghost use Rattle.forms.specs.Rows.{is_blank, lawful, lines_of, row_of};

use crate::line::FormLine;
use crate::naming::are_accounts_lawful;
use crate::weighing::{MOST_LINES, are_weights_lawful};

/// A form as it lies on file: a plain row of lines; the places past the count are blank.
// An array and a count, and no `ArrayVec`, which is not `Copy`: what lies on file is a plain row of a fixed size, and is copied.
#[derive(Clone, Copy)]
pub struct FormRow {
    lines: [FormLine; MOST_LINES],
    count: usize,
}

impl FormRow {
    /// The row of these lines.
    // No `From`, which takes any lines: these are as many as a form may have.
    pub(crate) fn of(lines: &[FormLine]) -> FormRow
        requires { is_line_count (length lines.now) ≡ true }
        ensures holds { lines_of result ≡ lines.now }
        ensures whole { result ≡ row_of lines.now }
        ensures lawful { lawful result ≡ (weights_lawful lines.now && accounts_lawful lines.now) }
    {
        let mut places = [FormLine::default(); MOST_LINES];
        places[..lines.len()].copy_from_slice(lines);
        FormRow {
            lines: places,
            count: lines.len(),
        }
    }

    /// The lines of this row.
    pub(crate) fn listed(&self) -> &[FormLine]
        requires { self.now.count ≤ most_lines }
        ensures { result.now ≡ lines_of self.now }
    {
        &self.lines[..self.count]
    }

    /// Whether this row is a form: its lines make one, and nothing stands past them.
    #[tactic(auto, using(crate::proofs::Lawful::lawful_by), unfolding(crate::specs::Rows::lawful))]
    pub(crate) fn is_lawful(&self) -> bool
        ensures { result ≡ lawful self.now }
    {
        let Some((lines, past)) = self.lines.split_at_checked(self.count) else {
            return false;
        };
        are_weights_lawful(lines) && are_accounts_lawful(lines) && are_blank(past)
    }
}

// Whether none of these places has a line.
fn are_blank(places: &[FormLine]) -> bool
    ensures { result ≡ list_all is_blank places.now }
{
    places.iter().all(|place| *place == FormLine::default())
}
