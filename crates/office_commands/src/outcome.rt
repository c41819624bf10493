// How a day that is imported or answered ends, as a command.
ghost use Rattle.std.specs.Prelude.{◌≡◌, ◌≢◌, Some, Ok, OnErr, IsErr};
ghost use Rattle.day_import.specs.declared.outcomes.Outcome.TheVariants as outcome;
ghost use Rattle.office_commands.specs.Commands.{closing_by};
ghost use Rattle.office_commands.specs.Endings.{EndsCommand};
ghost use Rattle.office_commands.specs.declared.closing.Closing.TheVariants.{ReadFault, KeeperFault, Words};

use crate::closing::Closing;
use day_import::Outcome;
use road_io::Failed;

/// How the day with this number ends.
pub fn ended(day: u32, done: Outcome) -> Result<Option<Closing>, Failed>
    ensures ends { EndsCommand (closing_by day done) result }
    ensures said { result ≢ Ok (Some Words) }
    ensures unread { result ≡ Ok (Some ReadFault) → done ≡ outcome.ReadFault }
    ensures unkept { result ≡ Ok (Some KeeperFault) → done ≡ outcome.KeeperFault }
    ensures failed { OnErr result (done ≡ outcome.WriteFault) }
    ensures read_told { done ≡ outcome.ReadFault → result ≡ Ok (Some ReadFault) }
    ensures keeper_told { done ≡ outcome.KeeperFault → result ≡ Ok (Some KeeperFault) }
    ensures write_told { done ≡ outcome.WriteFault → IsErr result }
{
    let closing = match done {
        Outcome::Stored(kept) => Closing::Stored {
            day,
            tuples: kept.tuples,
            notices: kept.notices,
            total: kept.total,
        },
        Outcome::Already(kept) => Closing::Already {
            day,
            tuples: kept.tuples,
            notices: kept.notices,
            total: kept.total,
        },
        Outcome::Answered(kept) => Closing::Answered {
            day,
            tuples: kept.tuples,
            notices: kept.notices,
        },
        Outcome::Refused { line, cause } => Closing::Refused { line, cause },
        Outcome::DayPassed { last } => Closing::DayPassed { day, last },
        Outcome::Differs { kept, found } => Closing::DiffersDay { day, kept, found },
        Outcome::ReadFault => Closing::ReadFault,
        Outcome::WriteFault => return Err(Failed),
        Outcome::KeeperFault => Closing::KeeperFault,
        Outcome::NoMemory => Closing::NoMemory,
    };
    Ok(Some(closing))
}
