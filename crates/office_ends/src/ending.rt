// How the command ends.
ghost use Rattle.std.specs.Prelude.{◌≡◌};
ghost use Rattle.office_ends.specs.Endings.{ending_by, ending_line, status_of};

use crate::closing_line::{begun_line, drops_line, early_line, plain_line, unfit_line};
use arrayvec::ArrayString;
use keep_office::{KeepFault, Renewal};
use road_time::SpentRow;

/// How the command ends, as its line says.
#[derive(Clone, Copy, Debug, PartialEq, Eq)]
pub enum Ending {
    /// The office began anew at this base, with so many amounts of its history. So many went that a renewal at the day
    /// after the last kept one would have kept.
    Begun { base: u32, rows: u64, dropped: u64 },
    /// The base is not above the last day, which is this one.
    Early { last: u32 },
    /// So many amounts would go, and their number was not named.
    Drops { rows: u64 },
    /// This amount is out of a history's range, or if there is none, they are too many.
    Unfit { row: Option<SpentRow> },
    /// The keeper failed.
    KeeperFault,
    /// Memory ran out.
    NoMemory,
}

impl Ending {
    /// The status of the program.
    pub fn status(&self) -> u8
        ensures { result ≡ status_of self.now }
    {
        match *self {
            Ending::Begun { .. } => 0,
            Ending::Early { .. } => 3,
            Ending::Drops { .. } => 3,
            Ending::Unfit { .. } => 3,
            Ending::KeeperFault => 6,
            Ending::NoMemory => 8,
        }
    }

    /// The closing line, with its LF.
    pub fn line(&self) -> ArrayString<128>
        ensures { result.bytes ≡ ending_line self.now }
    {
        match *self {
            Ending::Begun {
                base,
                rows,
                dropped,
            } => begun_line(base, rows, dropped),
            Ending::Early { last } => early_line(last),
            Ending::Drops { rows } => drops_line(rows),
            Ending::Unfit { row: Some(row) } => unfit_line(&row),
            Ending::Unfit { row: None } => plain_line("# renew unfit\n"),
            Ending::KeeperFault => plain_line("# keeper fault\n"),
            Ending::NoMemory => plain_line("# no memory\n"),
        }
    }
}

/// The ending of a renewal before which so many amounts went, where this one, if any, does not fit.
pub(crate) fn ended(
    done: Result<Renewal, KeepFault>,
    dropped: u64,
    unfit: Option<SpentRow>,
) -> Ending
    ensures { result ≡ ending_by dropped unfit done }
{
    match done {
        Ok(Renewal::Renewed(kept)) => Ending::Begun {
            base: kept.base,
            rows: kept.rows,
            dropped,
        },
        Ok(Renewal::Early { last }) => Ending::Early { last },
        Ok(Renewal::Unfit) => Ending::Unfit { row: unfit },
        Err(KeepFault::Failed) => Ending::KeeperFault,
        Err(KeepFault::NoMemory) => Ending::NoMemory,
    }
}
