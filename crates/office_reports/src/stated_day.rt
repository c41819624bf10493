// The statement of a kept day.
ghost use Rattle.std.specs.Prelude.{◌≡◌, ◌≢◌, ℕ, Some, None, Err, IfOk, OnOk};
ghost use Rattle.road_io.specs.Blame.{FaultsByPlan, FaultsByRoom};
ghost use Rattle.road_io.specs.Plans.{NeverFails};
ghost use Rattle.keep_office.specs.Office.{Office, record_of, rows_between, sum_of_rows};
ghost use Rattle.keep_office.specs.Calls.{SoundIfTold};
ghost use Rattle.office_reports.specs.Endings.{Reported, AddsUp};
ghost use Rattle.office_reports.specs.Statements.{day_text, day_report};
ghost use Rattle.office_reports.specs.declared.report_fault.ReportFault.TheVariants.{NoDay, KeeperFault, Unsound, WriteFault};

use crate::adding::adds_up;
use crate::day_lines::day_text;
use crate::putting::put_text;
use crate::report_fault::{ReportFault, refused};
use keep_office::{DayRecord, Keeper};
use road_io::Sink;
use road_time::{NoMemory, SpentRow};
use std::alloc::Global;

/// A kept day: its record and its amounts.
#[derive(Drop)]
pub(crate) struct KeptDay {
    pub record: DayRecord,
    pub rows: Vec<SpentRow>,
}

/// The record of a day.
fn find_record<K: Keeper>(day: u32, keeper: &mut K) -> Result<DayRecord, ReportFault>
    ensures found { (o : Office) → K.told keeper.old ≡ Some o → IfOk result (λ r. record_of o day ≡ Some r) }
    ensures none { (o : Office) → K.told keeper.old ≡ Some o → result ≡ Err NoDay → record_of o day ≡ None }
    ensures kept { K.told keeper.new ≡ K.told keeper.old }
    ensures own { (result ≢ Err WriteFault) × ((d : ℕ) → result ≢ Err (Unsound d)) }
    ensures keeper { FaultsByPlan (K.faults keeper.old) (K.faults keeper.new) (K.plan keeper.old)
        (result ≡ Err KeeperFault) }
    ensures still { NeverFails (K.plan keeper.old) → NeverFails (K.plan keeper.new) }
{
    match keeper.day(day) {
        Ok(Some(kept)) => Ok(kept),
        Ok(None) => Err(ReportFault::NoDay),
        Err(fault) => Err(refused(fault)),
    }
}

/// The amounts of a day.
pub(crate) fn find_rows<K: Keeper>(day: u32, keeper: &mut K) -> Result<Vec<SpentRow>, ReportFault>
    ensures found { (o : Office) → K.told keeper.old ≡ Some o
        → IfOk result (λ rows. rows.items ≡ rows_between o day day) }
    ensures kept { K.told keeper.new ≡ K.told keeper.old }
    ensures own { (result ≢ Err WriteFault) × (result ≢ Err NoDay) × ((d : ℕ) → result ≢ Err (Unsound d)) }
    ensures sound { SoundIfTold (K.told keeper.new) }
    ensures keeper { FaultsByPlan (K.faults keeper.old) (K.faults keeper.new) (K.plan keeper.old)
        (result ≡ Err KeeperFault) }
    ensures still { NeverFails (K.plan keeper.old) → NeverFails (K.plan keeper.new) }
{
    match keeper.rows(day, day) {
        Ok(rows) => Ok(rows),
        Err(fault) => Err(refused(fault)),
    }
}

/// What is kept of a day, where its amounts come to the total of its record: else `Unsound`, which no keeper that tells
/// what it keeps meets.
pub(crate) fn find_day<K: Keeper>(day: u32, keeper: &mut K) -> Result<KeptDay, ReportFault>
    ensures found { (o : Office) → K.told keeper.old ≡ Some o
        → IfOk result (λ d. (record_of o day ≡ Some d.record) × (d.rows.items ≡ rows_between o day day)) }
    ensures none { (o : Office) → K.told keeper.old ≡ Some o → result ≡ Err NoDay → record_of o day ≡ None }
    ensures kept { K.told keeper.new ≡ K.told keeper.old }
    ensures own { result ≢ Err WriteFault }
    ensures keeper { FaultsByPlan (K.faults keeper.old) (K.faults keeper.new) (K.plan keeper.old)
        (result ≡ Err KeeperFault) }
    ensures still { NeverFails (K.plan keeper.old) → NeverFails (K.plan keeper.new) }
    ensures adds { IfOk result (λ d. sum_of_rows d.rows.items ≡ d.record.total) }
    ensures unsound { (d : ℕ) → result ≡ Err (Unsound d) → d ≡ day }
    ensures sound { (o : Office) → K.told keeper.old ≡ Some o → (d : ℕ) → result ≢ Err (Unsound d) }
{
    match find_record(day, keeper) {
        Ok(record) => match find_rows(day, keeper) {
            Ok(rows) => {
                if adds_up(&record, rows.as_slice()) {
                    Ok(KeptDay { record, rows })
                } else {
                    Err(ReportFault::Unsound { day })
                }
            }
            Err(fault) => Err(fault),
        },
        Err(fault) => Err(fault),
    }
}

/// Writes what is kept of a day: its record, an item a line, and for each expressway with tolls of that day their sum.
/// `NoDay` comes exactly where the day is not kept. `Unsound` comes where its amounts do not come to
/// its total, and nothing is written then. After a `WriteFault` a prefix was written, and not all; after another
/// fault nothing.
pub fn day_statement<K: Keeper, O: Sink>(
    alloc: Global,
    day: u32,
    keeper: &mut K,
    sink: &mut O,
) -> Result<(), ReportFault>
    ensures wrote { (o : Office) → K.told keeper.old ≡ Some o
        → Reported result (O.written sink.old) (O.written sink.new) (day_report day o) }
    ensures kept { K.told keeper.new ≡ K.told keeper.old }
    ensures nothing { result ≡ Err NoDay → sink.new ≡ sink.old }
    ensures unsound { (d : ℕ) → result ≡ Err (Unsound d) → (d ≡ day) × (sink.new ≡ sink.old) }
    ensures sound { (o : Office) → K.told keeper.old ≡ Some o → (d : ℕ) → result ≢ Err (Unsound d) }
    ensures adds { OnOk result (AddsUp day_text (O.written sink.old) (O.written sink.new)) }
    ensures keeper { FaultsByPlan (K.faults keeper.old) (K.faults keeper.new) (K.plan keeper.old)
        (result ≡ Err KeeperFault) }
    ensures sink { FaultsByRoom (O.faults sink.old) (O.faults sink.new) (O.room sink.old) (O.room sink.new)
        (result ≡ Err WriteFault) }
{
    let found = match find_day(day, keeper) {
        Ok(found) => found,
        Err(fault) => return Err(fault),
    };
    match day_text(alloc, &found.record, found.rows.as_slice()) {
        Ok(text) => put_text(text.as_slice(), sink),
        Err(NoMemory) => Err(ReportFault::NoMemory),
    }
}
