// Whether the accounts of some lines make a form.
ghost use Rattle.std.specs.Prelude.{◌≡◌};
ghost use Rattle.std.specs.List.{list_all};
ghost use Rattle.forms.specs.Lines.{accounts_lawful, has_account_number, names, none_twice};

use crate::line::FormLine;
use measures::{AccountNumber, Ranged};

/// Whether each line names an account, and no two the same.
pub(crate) fn are_accounts_lawful(lines: &[FormLine]) -> bool
    ensures { result ≡ accounts_lawful lines.now }
{
    are_account_numbers(lines) && are_distinct(lines)
}

// Whether each line's number is an account number.
fn are_account_numbers(lines: &[FormLine]) -> bool
    ensures { result ≡ list_all has_account_number lines.now }
{
    lines.iter().all(|line| line.account.is_in_range())
}

// Whether no account is named twice.
fn are_distinct(lines: &[FormLine]) -> bool
    ensures { result ≡ none_twice lines.now }
{
    let mut rest = lines;
    while let [line, others @ ..] = rest {
        if names_account(others, line.account) {
            return false;
        }
        rest = others;
    }
    true
}

// Whether a line names the account.
fn names_account(lines: &[FormLine], account: AccountNumber) -> bool
    ensures { result ≡ names lines.now account.0 }
{
    lines.iter().any(|line| line.account == account)
}
