// Where an account stands in a table.
ghost use Rattle.ends.specs.Places.{Stands};

use super::AccountTable;
use measures::AccountNumber;

impl AccountTable {
    /// Where the account of a number stands, if it is listed.
    // Its place, and no reference: of what a search by `iter_mut` leaves if it finds nothing there is no proof, and one look-up serves reading and writing.
    pub(super) fn find(&self, number: AccountNumber) -> Option<usize>
        ensures { Stands self.now number.0 result }
    {
        self.accounts.iter().position(|a| a.number == number)
    }
}
