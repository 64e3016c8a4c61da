// Carrying out a call on the account table.
ghost use Rattle.std.specs.Prelude.{◌≡◌, ok_or};
ghost use Rattle.measures.specs.declared.refusal.Refusal.TheVariants.{OutOfRange};
ghost use Rattle.desk.specs.Carrying.{Carries, Sets, setting_in};

use crate::call::Call;
use ends::{AccountNumber, AccountTable};
use measures::{Answer, Refusal};

/// What the flag of a record asks for an account.
#[derive(Clone, Copy, PartialEq, Eq, Debug)]
pub(crate) enum Setting {
    Opened,
    Closed,
}

impl TryFrom<u64> for Setting {
    type Error = Refusal;

    ghost try_from_gives = { λ flag setting. setting ≡ ok_or (setting_in flag) OutOfRange };

    fn try_from(flag: u64) -> Result<Setting, Refusal> {
        match flag {
            1 => Ok(Setting::Opened),
            0 => Ok(Setting::Closed),
            _ => Err(Refusal::OutOfRange),
        }
    }
}

impl Call {
    /// Carries out this call, and answers it. A refusal leaves the table as it was.
    pub fn carry_out(self, table: &mut AccountTable) -> Answer
        ensures { Carries self table.old result table.new }
    {
        match self {
            Call::Account { number, flag } => set_account(table, number, flag),
        }
    }
}

// Opens or closes an account by its flag.
fn set_account(table: &mut AccountTable, number: AccountNumber, flag: u64) -> Answer
    ensures { Sets number.0 flag table.old result table.new }
{
    match Setting::try_from(flag)? {
        Setting::Opened => table.open(number),
        Setting::Closed => table.close(number),
    }
}
