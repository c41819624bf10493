// The command `past BASE`: the amounts of the 69 days before a day, which are kept from then on.
ghost use Rattle.std.specs.Prelude.{◌≡◌, ◌≢◌, ◌≤◌, [], ℕ, List, Some};
ghost use Rattle.keep_office.specs.Office.{Office};
ghost use Rattle.day_past.specs.declared.outcomes.PastOutcome.TheVariants as outcome;
ghost use Rattle.office_commands.specs.Commands.{past_closing, history_command};
ghost use Rattle.office_commands.specs.DayCommands.{ReadsPast, KeptPast};
ghost use Rattle.office_commands.specs.Endings.{StandsBefore};
ghost use Rattle.office_commands.specs.declared.closing.Closing.TheVariants.{ReadFault, KeeperFault, Words};

use crate::closing::Closing;
use day_past::{PastOutcome, import_past};
use keep_office::Keeper;
use road_io::Source;
use road_time::Limits;
use std::alloc::Global;
use std::thread::Threads;

/// How the history with this base ends.
fn past_ended(base: u32, done: PastOutcome) -> Closing
    ensures ends { result ≡ past_closing base done }
    ensures said { result ≢ Words }
    ensures unread { result ≡ ReadFault → done ≡ outcome.ReadFault }
    ensures unkept { result ≡ KeeperFault → done ≡ outcome.KeeperFault }
{
    match done {
        PastOutcome::Stored(kept) => Closing::PastStored {
            base,
            rows: kept.rows,
        },
        PastOutcome::Already(kept) => Closing::PastAlready {
            base,
            rows: kept.rows,
        },
        PastOutcome::Row { line, cause } => Closing::PastRefused { line, cause },
        PastOutcome::PastLate { last } => Closing::PastLate { last },
        PastOutcome::OtherBase { kept } => Closing::PastKept { base: kept },
        PastOutcome::Differs { kept, found } => Closing::DiffersPast { base, kept, found },
        PastOutcome::ReadFault => Closing::ReadFault,
        PastOutcome::KeeperFault => Closing::KeeperFault,
        PastOutcome::NoMemory => Closing::NoMemory,
    }
}

/// Keeps what the source has as a history, once, its days counted back from a base.
pub fn past<S: Source, K: Keeper, R: Threads>(
    rt: &R,
    alloc: Global,
    base: u32,
    limits: &Limits,
    source: &mut S,
    keeper: &mut K,
) -> Closing
    requires low { 70 ≤ base }
    ensures exact { (bytes : List ℕ) (o : Office) → S.left source.old ≡ Some bytes → K.told keeper.old ≡ Some o
        → StandsBefore (history_command limits.now base bytes o) result [] }
    ensures said { result ≢ Words }
    ensures source { ReadsPast S.Source limits.now base (K.told keeper.old) result source.old source.new }
    ensures keeper { KeptPast S.Source K.Keeper limits.now base result source.old keeper.old keeper.new }
{
    let done = import_past(rt, alloc, base, limits, source, keeper);
    past_ended(base, done)
}
