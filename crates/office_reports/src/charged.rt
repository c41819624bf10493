// What all vehicles were charged over some days, day by day.
ghost use Rattle.std.specs.Prelude.{◌≡◌, ◌≢◌, ◌≤◌, ℕ, Some, Err, IfOk, OnOk};
ghost use Rattle.std.specs.List.{fold};
ghost use Rattle.road_io.specs.Blame.{FaultsByPlan, FaultsByRoom};
ghost use Rattle.road_io.specs.Plans.{NeverFails};
ghost use Rattle.keep_office.specs.Office.{Office, IsSound, rows_between};
ghost use Rattle.office_reports.specs.Charges.{with_amount, sums_of, charges_report};
ghost use Rattle.office_reports.specs.Endings.{WroteText};
ghost use Rattle.office_reports.specs.declared.report_fault.ReportFault.TheVariants.{NoDay, KeeperFault, Unsound, WriteFault};

use crate::charge_lines::charges_text;
use crate::charge_sums::{Sums, add_rows};
use crate::putting::put_text;
use crate::report_fault::{ReportFault, refused};
use crate::stated_day::{KeptDay, find_day, find_rows};
use keep_office::Keeper;
use road_io::Sink;
use road_time::{NoMemory, SpentRow};
use std::alloc::Global;
use std::collections::BTreeMap;

/// The amounts of a day. Where it is kept they come to the total of its record.
fn rows_of<K: Keeper>(day: u32, keeper: &mut K) -> Result<Vec<SpentRow>, ReportFault>
    ensures found { (o : Office) → K.told keeper.old ≡ Some o
        → IfOk result (λ rows. rows.items ≡ rows_between o day day) }
    ensures kept { K.told keeper.new ≡ K.told keeper.old }
    ensures own { (result ≢ Err WriteFault) × (result ≢ Err NoDay) }
    ensures keeper { FaultsByPlan (K.faults keeper.old) (K.faults keeper.new) (K.plan keeper.old)
        (result ≡ Err KeeperFault) }
    ensures still { NeverFails (K.plan keeper.old) → NeverFails (K.plan keeper.new) }
    ensures unsound { (d : ℕ) → result ≡ Err (Unsound d) → d ≡ day }
    ensures sound { (o : Office) → K.told keeper.old ≡ Some o → (d : ℕ) → result ≢ Err (Unsound d) }
{
    match find_day(day, keeper) {
        Ok(found) => {
            let KeptDay { record: _, rows } = found;
            Ok(rows)
        }
        Err(ReportFault::NoDay) => match find_rows(day, keeper) {
            Ok(rows) => Ok(rows),
            Err(fault) => Err(fault),
        },
        Err(fault) => Err(fault),
    }
}

/// Adds the amounts of a day.
fn add_day<K: Keeper>(day: u32, keeper: &mut K, sums: &mut Sums) -> Result<(), ReportFault>
    ensures added { (o : Office) → K.told keeper.old ≡ Some o
        → OnOk result (sums.new.entries ≡ fold with_amount sums.old.entries (rows_between o day day)) }
    ensures kept { K.told keeper.new ≡ K.told keeper.old }
    ensures own { (result ≢ Err WriteFault) × (result ≢ Err NoDay) }
    ensures keeper { FaultsByPlan (K.faults keeper.old) (K.faults keeper.new) (K.plan keeper.old)
        (result ≡ Err KeeperFault) }
    ensures still { NeverFails (K.plan keeper.old) → NeverFails (K.plan keeper.new) }
    ensures unsound { (d : ℕ) → result ≡ Err (Unsound d) → d ≡ day }
    ensures sound { (o : Office) → K.told keeper.old ≡ Some o → (d : ℕ) → result ≢ Err (Unsound d) }
{
    match rows_of(day, keeper) {
        Ok(rows) => match add_rows(sums, rows.as_slice()) {
            Ok(()) => Ok(()),
            Err(NoMemory) => Err(ReportFault::NoMemory),
        },
        Err(fault) => Err(fault),
    }
}

/// The sums of the days from one to another, both included, where that is not after the last kept one.
fn sums_within<K: Keeper>(
    alloc: Global,
    from: u32,
    to: u32,
    keeper: &mut K,
) -> Result<Sums, ReportFault>
    requires { from ≤ to }
    ensures exact { (o : Office) → K.told keeper.old ≡ Some o → IsSound o
        → IfOk result (λ sums. sums.entries ≡ sums_of (rows_between o from to)) }
    ensures kept { K.told keeper.new ≡ K.told keeper.old }
    ensures keeper { FaultsByPlan (K.faults keeper.old) (K.faults keeper.new) (K.plan keeper.old)
        (result ≡ Err KeeperFault) }
    ensures own { (result ≢ Err WriteFault) × (result ≢ Err NoDay) }
    ensures unsound { (d : ℕ) → result ≡ Err (Unsound d) → (from ≤ d) × (d ≤ to) }
    ensures sound { (o : Office) → K.told keeper.old ≡ Some o → (d : ℕ) → result ≢ Err (Unsound d) }
{
    let mut sums = BTreeMap::new(alloc);
    for day in u64::from(from)..u64::from(to) + 1 {
        match add_day(day as u32, keeper, &mut sums) {
            Ok(()) => {}
            Err(fault) => return Err(fault),
        }
    }
    Ok(sums)
}

/// The sums of the days from one to another, both included. No day after the last kept one is asked for.
fn find_sums<K: Keeper>(
    alloc: Global,
    from: u32,
    to: u32,
    keeper: &mut K,
) -> Result<Sums, ReportFault>
    ensures exact { (o : Office) → K.told keeper.old ≡ Some o
        → IfOk result (λ sums. sums.entries ≡ sums_of (rows_between o from to)) }
    ensures kept { K.told keeper.new ≡ K.told keeper.old }
    ensures keeper { FaultsByPlan (K.faults keeper.old) (K.faults keeper.new) (K.plan keeper.old)
        (result ≡ Err KeeperFault) }
    ensures own { (result ≢ Err WriteFault) × (result ≢ Err NoDay) }
    ensures unsound { (d : ℕ) → result ≡ Err (Unsound d) → (from ≤ d) × (d ≤ to) }
    ensures sound { (o : Office) → K.told keeper.old ≡ Some o → (d : ℕ) → result ≢ Err (Unsound d) }
{
    let last = match keeper.last_day() {
        Ok(last) => last,
        Err(fault) => return Err(refused(fault)),
    };
    let to = to.min(last);
    if from > to {
        return Ok(BTreeMap::new(alloc));
    }
    match sums_within(alloc, from, to, keeper) {
        Ok(sums) => Ok(sums),
        Err(fault) => Err(fault),
    }
}

/// Writes what all vehicles were charged on the days `from` to `to`, both included, as CSV: a line that names the
/// columns, and a line for each vehicle and expressway with amounts, in the order of the two. The amounts of one day
/// are held at a time, and where a kept day's do not come to its total `Unsound` comes. After a `WriteFault` a prefix was
/// written, and not all; after another fault nothing.
pub fn charges_csv<K: Keeper, O: Sink>(
    alloc: Global,
    from: u32,
    to: u32,
    keeper: &mut K,
    sink: &mut O,
) -> Result<(), ReportFault>
    ensures wrote { (o : Office) → K.told keeper.old ≡ Some o
        → WroteText result (O.written sink.old) (O.written sink.new) (charges_report from to o) }
    ensures own { result ≢ Err NoDay }
    ensures unsound { (d : ℕ) → result ≡ Err (Unsound d) → (from ≤ d) × (d ≤ to) × (sink.new ≡ sink.old) }
    ensures sound { (o : Office) → K.told keeper.old ≡ Some o → (d : ℕ) → result ≢ Err (Unsound d) }
    ensures kept { K.told keeper.new ≡ K.told keeper.old }
    ensures keeper { FaultsByPlan (K.faults keeper.old) (K.faults keeper.new) (K.plan keeper.old)
        (result ≡ Err KeeperFault) }
    ensures sink { FaultsByRoom (O.faults sink.old) (O.faults sink.new) (O.room sink.old) (O.room sink.new)
        (result ≡ Err WriteFault) }
{
    let sums = match find_sums(alloc, from, to, keeper) {
        Ok(sums) => sums,
        Err(fault) => return Err(fault),
    };
    match charges_text(alloc, &sums) {
        Ok(text) => put_text(text.as_slice(), sink),
        Err(NoMemory) => Err(ReportFault::NoMemory),
    }
}
