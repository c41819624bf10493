// The commands `tariff XWAY CROWD SPEED FACTOR` and `tariffs`.
ghost use Rattle.std.specs.Prelude.{◌≡◌, ◌≢◌, ◌≤◌, [], Some, Ok, IsErr};
ghost use Rattle.keep_office.specs.Office.{Office};
ghost use Rattle.office_commands.specs.Commands.{tariff_command, tariffs_command};
ghost use Rattle.office_commands.specs.Endings.{StandsBefore, Wrote, sort_of, KeepsBy, Keeps};
ghost use Rattle.office_commands.specs.declared.closing.Closing.TheVariants.{ReadFault, KeeperFault, Words};
ghost use Rattle.road_io.specs.Blame.{FaultsByPlan, FaultsByRoom};

use crate::closing::Closing;
use crate::refusal::refused;
use keep_office::Keeper;
use road_io::{Failed, Sink, put_all};
use road_time::Tariff;
use std::alloc::Global;

/// Gives an expressway a tariff.
pub fn tariff<K: Keeper>(xway: u8, crowd: u32, speed: u8, factor: u8, keeper: &mut K) -> Closing
    requires crowd { crowd ≤ 500000 }
    requires speed { speed ≤ 100 }
    requires factor { factor ≤ 20 }
    ensures exact { (o : Office) → K.told keeper.old ≡ Some o
        → StandsBefore (tariff_command xway crowd speed factor o) result [] }
    ensures keeps { (o : Office) → K.told keeper.old ≡ Some o
        → KeepsBy (sort_of result) K.refuses (tariff_command xway crowd speed factor o) o (K.told keeper.new) }
    ensures said { result ≢ Words }
    ensures unread { result ≢ ReadFault }
    ensures keeper { FaultsByPlan (K.faults keeper.old) (K.faults keeper.new) (K.plan keeper.old)
        (result ≡ KeeperFault) }
{
    let tariff = Tariff {
        crowd,
        speed,
        factor,
    };
    match keeper.put_tariff(xway, &tariff) {
        Ok(()) => Closing::TariffPut {
            xway,
            crowd,
            speed,
            factor,
        },
        Err(fault) => refused(fault),
    }
}

/// Lists the tariffs of the expressways that have their own.
pub fn tariffs<O: Sink, K: Keeper>(
    alloc: Global,
    sink: &mut O,
    keeper: &mut K,
) -> Result<Option<Closing>, Failed>
    ensures wrote { (o : Office) → K.told keeper.old ≡ Some o
        → Wrote (tariffs_command o) result (O.written sink.old) (O.written sink.new) }
    ensures keeps { (o : Office) → K.told keeper.old ≡ Some o
        → Keeps K.refuses (tariffs_command o) o (K.told keeper.new) result }
    ensures kept { K.told keeper.new ≡ K.told keeper.old }
    ensures said { result ≢ Ok (Some Words) }
    ensures unread { result ≢ Ok (Some ReadFault) }
    ensures sink { FaultsByRoom (O.faults sink.old) (O.faults sink.new) (O.room sink.old) (O.room sink.new)
        (IsErr result) }
    ensures keeper { FaultsByPlan (K.faults keeper.old) (K.faults keeper.new) (K.plan keeper.old)
        (result ≡ Ok (Some KeeperFault)) }
{
    let kept = match keeper.tariffs() {
        Ok(kept) => kept,
        Err(fault) => return Ok(Some(refused(fault))),
    };
    let mut text = Vec::new(alloc);
    if kept.lines(alloc, &mut text).is_err() {
        return Ok(Some(Closing::NoMemory));
    }
    match put_all(sink, text.as_slice()) {
        Ok(()) => Ok(None),
        Err(failed) => Err(failed),
    }
}
