// The export of a kept day.
ghost use Rattle.std.specs.Prelude.{◌≡◌, ◌≢◌, ℕ, Some, Err};
ghost use Rattle.road_io.specs.Blame.{FaultsByPlan, FaultsByRoom};
ghost use Rattle.keep_office.specs.Office.{Office};
ghost use Rattle.office_reports.specs.Endings.{Reported};
ghost use Rattle.office_reports.specs.Exports.{export_report};
ghost use Rattle.office_reports.specs.declared.report_fault.ReportFault.TheVariants.{NoDay, KeeperFault, Unsound, WriteFault};

use crate::export_lines::export_text;
use crate::putting::put_text;
use crate::report_fault::ReportFault;
use crate::stated_day::find_day;
use keep_office::Keeper;
use road_io::Sink;
use road_time::NoMemory;
use std::alloc::Global;

/// Writes the amounts of a kept day as CSV: a line that names the columns, and a line for each vehicle and expressway.
/// `NoDay` comes exactly where the day is not kept. `Unsound` comes where its amounts do not come to
/// its total, and nothing is written then. After a `WriteFault` a prefix was written, and not all; after another
/// fault nothing.
pub fn export_csv<K: Keeper, O: Sink>(
    alloc: Global,
    day: u32,
    keeper: &mut K,
    sink: &mut O,
) -> Result<(), ReportFault>
    ensures wrote { (o : Office) → K.told keeper.old ≡ Some o
        → Reported result (O.written sink.old) (O.written sink.new) (export_report day o) }
    ensures kept { K.told keeper.new ≡ K.told keeper.old }
    ensures nothing { result ≡ Err NoDay → sink.new ≡ sink.old }
    ensures unsound { (d : ℕ) → result ≡ Err (Unsound d) → (d ≡ day) × (sink.new ≡ sink.old) }
    ensures sound { (o : Office) → K.told keeper.old ≡ Some o → (d : ℕ) → result ≢ Err (Unsound d) }
    ensures keeper { FaultsByPlan (K.faults keeper.old) (K.faults keeper.new) (K.plan keeper.old)
        (result ≡ Err KeeperFault) }
    ensures sink { FaultsByRoom (O.faults sink.old) (O.faults sink.new) (O.room sink.old) (O.room sink.new)
        (result ≡ Err WriteFault) }
{
    let found = match find_day(day, keeper) {
        Ok(found) => found,
        Err(fault) => return Err(fault),
    };
    match export_text(alloc, found.rows.as_slice()) {
        Ok(text) => put_text(text.as_slice(), sink),
        Err(NoMemory) => Err(ReportFault::NoMemory),
    }
}
