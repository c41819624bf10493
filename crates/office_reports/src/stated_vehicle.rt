// The statement of a vehicle.
ghost use Rattle.std.specs.Prelude.{◌≡◌, ◌≢◌, ℕ, Some, Err};
ghost use Rattle.road_io.specs.Blame.{FaultsByPlan, FaultsByRoom};
ghost use Rattle.keep_office.specs.Office.{Office};
ghost use Rattle.office_reports.specs.Endings.{WroteText};
ghost use Rattle.office_reports.specs.Statements.{vehicle_report};
ghost use Rattle.office_reports.specs.declared.report_fault.ReportFault.TheVariants.{NoDay, KeeperFault, Unsound, WriteFault};

use crate::putting::put_text;
use crate::report_fault::{ReportFault, refused};
use crate::vehicle_lines::vehicle_text;
use keep_office::Keeper;
use road_io::Sink;
use road_time::NoMemory;
use std::alloc::Global;

/// Writes what is kept of a vehicle on the days `from` to `to`, both included: a line for each day and expressway,
/// and the sum. A vehicle without amounts has the first and the last line. After a `WriteFault` a prefix was written, and
/// not all; after another fault nothing.
pub fn vehicle_statement<K: Keeper, O: Sink>(
    alloc: Global,
    vid: u32,
    from: u32,
    to: u32,
    keeper: &mut K,
    sink: &mut O,
) -> Result<(), ReportFault>
    ensures wrote { (o : Office) → K.told keeper.old ≡ Some o
        → WroteText result (O.written sink.old) (O.written sink.new) (vehicle_report vid from to o) }
    ensures own { (result ≢ Err NoDay) × ((d : ℕ) → result ≢ Err (Unsound d)) }
    ensures kept { K.told keeper.new ≡ K.told keeper.old }
    ensures keeper { FaultsByPlan (K.faults keeper.old) (K.faults keeper.new) (K.plan keeper.old)
        (result ≡ Err KeeperFault) }
    ensures sink { FaultsByRoom (O.faults sink.old) (O.faults sink.new) (O.room sink.old) (O.room sink.new)
        (result ≡ Err WriteFault) }
{
    let rows = match keeper.vehicle_rows(vid, from, to) {
        Ok(rows) => rows,
        Err(fault) => return Err(refused(fault)),
    };
    match vehicle_text(alloc, vid, from, to, rows.as_slice()) {
        Ok(text) => put_text(text.as_slice(), sink),
        Err(NoMemory) => Err(ReportFault::NoMemory),
    }
}
