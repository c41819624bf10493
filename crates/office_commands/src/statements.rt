// The commands `day DAY`, `vehicle VID FROM TO`, `export DAY` and `charges FROM TO`: what is kept, as texts.
ghost use Rattle.std.specs.Prelude.{◌≡◌, ◌≢◌, Some, None, Ok, Err, OnErr, IsErr};
ghost use Rattle.keep_office.specs.Office.{Office};
ghost use Rattle.office_reports.specs.declared.report_fault.ReportFault.TheVariants as report_fault;
ghost use Rattle.office_commands.specs.Commands.{day_command, vehicle_command, export_command, charges_command};
ghost use Rattle.office_commands.specs.Endings.{Wrote, Keeps, EndsReport, code_of};
ghost use Rattle.office_reports.specs.Endings.{AddsUp};
ghost use Rattle.office_reports.specs.Statements.{day_text};
ghost use Rattle.office_commands.specs.declared.closing.Closing.TheVariants.{ReadFault, KeeperFault, Words};
ghost use Rattle.road_io.specs.Blame.{FaultsByPlan, FaultsByRoom};

use crate::closing::Closing;
use keep_office::Keeper;
use office_reports::{ReportFault, charges_csv, day_statement, export_csv, vehicle_statement};
use road_io::{Failed, Sink};
use std::alloc::Global;

/// How a report ends, as a command.
fn reported(day: u32, done: Result<(), ReportFault>) -> Result<Option<Closing>, Failed>
    ensures ends { EndsReport day done result }
    ensures said { result ≢ Ok (Some Words) }
    ensures unread { result ≢ Ok (Some ReadFault) }
    ensures unkept { result ≡ Ok (Some KeeperFault) → done ≡ Err report_fault.KeeperFault }
    ensures failed { OnErr result (done ≡ Err report_fault.WriteFault) }
    ensures keeper_told { done ≡ Err report_fault.KeeperFault → result ≡ Ok (Some KeeperFault) }
    ensures write_told { done ≡ Err report_fault.WriteFault → IsErr result }
{
    match done {
        Ok(()) => Ok(None),
        Err(ReportFault::NoDay) => Ok(Some(Closing::NoDay { day })),
        Err(ReportFault::KeeperFault) => Ok(Some(Closing::KeeperFault)),
        Err(ReportFault::Unsound { day }) => Ok(Some(Closing::Unsound { day })),
        Err(ReportFault::WriteFault) => Err(Failed),
        Err(ReportFault::NoMemory) => Ok(Some(Closing::NoMemory)),
    }
}

/// States what is kept of a day.
pub fn day<O: Sink, K: Keeper>(
    alloc: Global,
    day: u32,
    sink: &mut O,
    keeper: &mut K,
) -> Result<Option<Closing>, Failed>
    ensures wrote { (o : Office) → K.told keeper.old ≡ Some o
        → Wrote (day_command day o) result (O.written sink.old) (O.written sink.new) }
    ensures keeps { (o : Office) → K.told keeper.old ≡ Some o
        → Keeps K.refuses (day_command day o) o (K.told keeper.new) result }
    ensures sums { code_of result ≡ 0 → (result ≡ Ok None) × AddsUp day_text (O.written sink.old) (O.written sink.new) }
    ensures kept { K.told keeper.new ≡ K.told keeper.old }
    ensures said { result ≢ Ok (Some Words) }
    ensures unread { result ≢ Ok (Some ReadFault) }
    ensures sink { FaultsByRoom (O.faults sink.old) (O.faults sink.new) (O.room sink.old) (O.room sink.new)
        (IsErr result) }
    ensures keeper { FaultsByPlan (K.faults keeper.old) (K.faults keeper.new) (K.plan keeper.old)
        (result ≡ Ok (Some KeeperFault)) }
{
    let done = day_statement(alloc, day, keeper, sink);
    reported(day, done)
}

/// States what is kept of a vehicle on the days `from` to `to`, both included.
pub fn vehicle<O: Sink, K: Keeper>(
    alloc: Global,
    vid: u32,
    from: u32,
    to: u32,
    sink: &mut O,
    keeper: &mut K,
) -> Result<Option<Closing>, Failed>
    ensures wrote { (o : Office) → K.told keeper.old ≡ Some o
        → Wrote (vehicle_command vid from to o) result (O.written sink.old) (O.written sink.new) }
    ensures keeps { (o : Office) → K.told keeper.old ≡ Some o
        → Keeps K.refuses (vehicle_command vid from to o) o (K.told keeper.new) result }
    ensures kept { K.told keeper.new ≡ K.told keeper.old }
    ensures said { result ≢ Ok (Some Words) }
    ensures unread { result ≢ Ok (Some ReadFault) }
    ensures sink { FaultsByRoom (O.faults sink.old) (O.faults sink.new) (O.room sink.old) (O.room sink.new)
        (IsErr result) }
    ensures keeper { FaultsByPlan (K.faults keeper.old) (K.faults keeper.new) (K.plan keeper.old)
        (result ≡ Ok (Some KeeperFault)) }
{
    let done = vehicle_statement(alloc, vid, from, to, keeper, sink);
    reported(from, done)
}

/// Exports the amounts of a day.
pub fn export<O: Sink, K: Keeper>(
    alloc: Global,
    day: u32,
    sink: &mut O,
    keeper: &mut K,
) -> Result<Option<Closing>, Failed>
    ensures wrote { (o : Office) → K.told keeper.old ≡ Some o
        → Wrote (export_command day o) result (O.written sink.old) (O.written sink.new) }
    ensures keeps { (o : Office) → K.told keeper.old ≡ Some o
        → Keeps K.refuses (export_command day o) o (K.told keeper.new) result }
    ensures kept { K.told keeper.new ≡ K.told keeper.old }
    ensures said { result ≢ Ok (Some Words) }
    ensures unread { result ≢ Ok (Some ReadFault) }
    ensures sink { FaultsByRoom (O.faults sink.old) (O.faults sink.new) (O.room sink.old) (O.room sink.new)
        (IsErr result) }
    ensures keeper { FaultsByPlan (K.faults keeper.old) (K.faults keeper.new) (K.plan keeper.old)
        (result ≡ Ok (Some KeeperFault)) }
{
    let done = export_csv(alloc, day, keeper, sink);
    reported(day, done)
}

/// Exports what all vehicles were charged on the days `from` to `to`, both included.
pub fn charges<O: Sink, K: Keeper>(
    alloc: Global,
    from: u32,
    to: u32,
    sink: &mut O,
    keeper: &mut K,
) -> Result<Option<Closing>, Failed>
    ensures wrote { (o : Office) → K.told keeper.old ≡ Some o
        → Wrote (charges_command from to o) result (O.written sink.old) (O.written sink.new) }
    ensures keeps { (o : Office) → K.told keeper.old ≡ Some o
        → Keeps K.refuses (charges_command from to o) o (K.told keeper.new) result }
    ensures kept { K.told keeper.new ≡ K.told keeper.old }
    ensures said { result ≢ Ok (Some Words) }
    ensures unread { result ≢ Ok (Some ReadFault) }
    ensures sink { FaultsByRoom (O.faults sink.old) (O.faults sink.new) (O.room sink.old) (O.room sink.new)
        (IsErr result) }
    ensures keeper { FaultsByPlan (K.faults keeper.old) (K.faults keeper.new) (K.plan keeper.old)
        (result ≡ Ok (Some KeeperFault)) }
{
    let done = charges_csv(alloc, from, to, keeper, sink);
    reported(from, done)
}
