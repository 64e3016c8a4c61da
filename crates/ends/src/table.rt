// The account table: up to 256 accounts in the order of first opening.
ghost use Rattle.std.specs.Prelude.{◌≡◌, ◌≤◌, true};
ghost use Rattle.arrayvec.specs.ArrayVec.{array_vec_len};
ghost use Rattle.ends.specs.Accounts.{all_sound};
ghost use Rattle.ends.specs.Limits.{most_accounts};

use crate::account::Account;
use arrayvec::ArrayVec;

mod calls;
mod places;
mod postings;

/// The most accounts that a table lists.
const MAX_ACCOUNTS: usize = 256;

/// A table of accounts, open or closed. A closed account stays listed and keeps its credit.
// No `impl Model`: the laws of a billing end need every account to be sound, and a list alone would not say so.
#[derive(Drop)]
pub struct AccountTable {
    accounts: ArrayVec<Account, MAX_ACCOUNTS>,
    ghost fits: { array_vec_len accounts ≤ most_accounts },
    ghost bounded: { all_sound accounts.items ≡ true },
}
