// How a form is made and read.
ghost use Rattle.std.specs.Prelude.{◌≡◌, true, OnOk};
ghost use Rattle.split.specs.Fairness.{Whole};
ghost use Rattle.split.specs.Shares.{amounts};
ghost use Rattle.forms.specs.Forms.{Allocates, FormOfLines, FormOfRow};
ghost use Rattle.forms.specs.Rows.{lawful, lines_of};

use super::{Form, Unlawful};
use crate::line::FormLine;
use crate::naming::are_accounts_lawful;
use crate::row::FormRow;
use crate::weighing::are_weights_lawful;
use measures::{Refusal, SignedCents};
use split::{Unsplit, split};

impl Form {
    /// The form of these lines.
    pub fn new(lines: &[FormLine]) -> Result<Form, Refusal>
        ensures { FormOfLines lines.now result }
    {
        if !are_weights_lawful(lines) {
            return Err(Refusal::BadWeights);
        }
        if !are_accounts_lawful(lines) {
            return Err(Refusal::BadAccounts);
        }
        Ok(Form {
            row: FormRow::of(lines),
        })
    }

    /// This form as it lies on file.
    pub fn row(&self) -> FormRow
        ensures same { result ≡ self.now.row }
        ensures lawful { lawful result ≡ true }
    {
        self.row
    }

    /// The lines of this form.
    #[tactic(auto, using(crate::proofs::Lawful::count_within))]
    pub fn lines(&self) -> &[FormLine]
        ensures { result.now ≡ lines_of self.now.row }
    {
        self.row.listed()
    }

    /// Shares out an amount to the lines, by their weights, and fills in the share of each.
    pub fn allocate(&self, amount: SignedCents, shares: &mut [SignedCents]) -> Result<(), Unsplit>
        ensures shares { Allocates self.now.row amount.0 result shares.old shares.new }
        ensures whole { OnOk result (Whole amount.0 (amounts shares.new)) }
    {
        split(amount, self.lines(), shares)
    }
}

// The form that lies on file as a row, if the row is one.
impl TryFrom<FormRow> for Form {
    type Error = Unlawful;

    ghost try_from_gives = { FormOfRow };

    fn try_from(row: FormRow) -> Result<Form, Unlawful> {
        if row.is_lawful() {
            Ok(Form { row })
        } else {
            Err(Unlawful)
        }
    }
}
