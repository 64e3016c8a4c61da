// Where a unit stands in the programme, and the notices that move it.
ghost use Rattle.std.specs.Prelude.{◌≡◌, ok_or};
ghost use Rattle.measures.specs.declared.refusal.Refusal.TheVariants.{OutOfRange};
ghost use Rattle.tariff.specs.Standings.{notice_in};

use measures::{Day, Refusal};

/// The standing of a unit. An active or suspended unit has its effective day, from which it is paid.
#[derive(Clone, Copy, PartialEq, Eq, Debug)]
pub enum Standing {
    /// Enrolled, and not yet authorised.
    Waiting,
    /// Authorised, from its effective day.
    Active { effective: Day },
    /// Not in compliance, until that is remedied.
    Suspended { effective: Day },
    /// Revoked.
    Ended,
}

/// What an operator is told of a unit.
#[derive(Clone, Copy, PartialEq, Eq, Debug)]
pub enum Notice {
    Authorised,
    NonCompliant,
    Remedied,
    Revoked,
}

// The notice of a number, from 1 to 4.
impl TryFrom<u64> for Notice {
    type Error = Refusal;

    ghost try_from_gives = { λ number notice. notice ≡ ok_or (notice_in number) OutOfRange };

    fn try_from(number: u64) -> Result<Notice, Refusal> {
        match number {
            1 => Ok(Notice::Authorised),
            2 => Ok(Notice::NonCompliant),
            3 => Ok(Notice::Remedied),
            4 => Ok(Notice::Revoked),
            _ => Err(Refusal::OutOfRange),
        }
    }
}
