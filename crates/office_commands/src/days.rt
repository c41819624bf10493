// The command `days`: a line for each kept day.
ghost use Rattle.std.specs.Prelude.{◌≡◌, ◌≢◌, Some, Ok, IsErr};
ghost use Rattle.keep_office.specs.Office.{Office};
ghost use Rattle.office_commands.specs.Commands.{days_command};
ghost use Rattle.office_commands.specs.Endings.{Wrote, Keeps};
ghost use Rattle.office_commands.specs.declared.closing.Closing.TheVariants.{ReadFault, KeeperFault, Words};
ghost use Rattle.road_io.specs.Blame.{FaultsByPlan, FaultsByRoom};

use crate::closing::Closing;
use crate::refusal::refused;
use keep_office::Keeper;
use office_reports::day_list;
use road_io::{Failed, Sink, put_all};
use std::alloc::Global;

/// Lists the kept days, and says how many they are and which is the last.
pub fn days<O: Sink, K: Keeper>(
    alloc: Global,
    sink: &mut O,
    keeper: &mut K,
) -> Result<Option<Closing>, Failed>
    ensures wrote { (o : Office) → K.told keeper.old ≡ Some o
        → Wrote (days_command o) result (O.written sink.old) (O.written sink.new) }
    ensures keeps { (o : Office) → K.told keeper.old ≡ Some o
        → Keeps K.refuses (days_command o) o (K.told keeper.new) result }
    ensures kept { K.told keeper.new ≡ K.told keeper.old }
    ensures said { result ≢ Ok (Some Words) }
    ensures unread { result ≢ Ok (Some ReadFault) }
    ensures sink { FaultsByRoom (O.faults sink.old) (O.faults sink.new) (O.room sink.old) (O.room sink.new)
        (IsErr result) }
    ensures keeper { FaultsByPlan (K.faults keeper.old) (K.faults keeper.new) (K.plan keeper.old)
        (result ≡ Ok (Some KeeperFault)) }
{
    let list = match day_list(alloc, keeper) {
        Ok(list) => list,
        Err(fault) => return Ok(Some(refused(fault))),
    };
    match put_all(sink, list.text.as_slice()) {
        Ok(()) => Ok(Some(Closing::Listed {
            days: list.days,
            last: list.last,
        })),
        Err(failed) => Err(failed),
    }
}
