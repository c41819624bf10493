// The records of all kept days, found by the calls of a keeper.
ghost use Rattle.std.specs.Prelude.{◌≡◌, ◌≢◌, [], ◌++◌, ◌≤◌, Some, Err, IfOk, OnOk};
ghost use Rattle.std.specs.List.{AllByRecursion, cons_option};
ghost use Rattle.road_io.specs.Blame.{FaultsByPlan};
ghost use Rattle.road_io.specs.Plans.{NeverFails};
ghost use Rattle.keep_office.specs.Office.{Office, IsSound, record_of, last_day};
ghost use Rattle.keep_office.specs.declared.kept.KeepFault.TheVariants.{Failed};

use keep_office::{DayRecord, KeepFault, Keeper};
use std::alloc::Global;

/// All kept days in rising order, and the last day that is kept.
#[derive(Drop)]
pub struct KeptDays {
    pub records: Vec<DayRecord>,
    pub last: u32,
}

/// A day from which on all kept days are.
fn first_day<K: Keeper>(keeper: &mut K) -> Result<u32, KeepFault>
    ensures first { (o : Office) → K.told keeper.old ≡ Some o
        → IfOk result (λ from. AllByRecursion (λ r. from ≤ r.day) o.days) }
    ensures kept { K.told keeper.new ≡ K.told keeper.old }
    ensures keeper { FaultsByPlan (K.faults keeper.old) (K.faults keeper.new) (K.plan keeper.old)
        (result ≡ Err Failed) }
    ensures still { NeverFails (K.plan keeper.old) → NeverFails (K.plan keeper.new) }
{
    match keeper.past() {
        Ok(Some(past)) => Ok(past.base),
        Ok(None) => Ok(1),
        Err(fault) => Err(fault),
    }
}

/// Appends the record of a day, if it is kept.
fn push_day<K: Keeper>(
    day: u32,
    keeper: &mut K,
    records: &mut Vec<DayRecord>,
) -> Result<(), KeepFault>
    ensures pushed { (o : Office) → K.told keeper.old ≡ Some o
        → OnOk result (records.new.items ≡ records.old.items ++ cons_option (record_of o day) []) }
    ensures kept { K.told keeper.new ≡ K.told keeper.old }
    ensures keeper { FaultsByPlan (K.faults keeper.old) (K.faults keeper.new) (K.plan keeper.old)
        (result ≡ Err Failed) }
    ensures still { NeverFails (K.plan keeper.old) → NeverFails (K.plan keeper.new) }
{
    match keeper.day(day) {
        Ok(Some(kept)) => match records.push(kept) {
            Ok(()) => Ok(()),
            Err(_) => Err(KeepFault::NoMemory),
        },
        Ok(None) => Ok(()),
        Err(fault) => Err(fault),
    }
}

/// The records of the days from one to another, if all kept ones are among these.
fn days_within<K: Keeper>(
    alloc: Global,
    from: u32,
    last: u32,
    keeper: &mut K,
) -> Result<Vec<DayRecord>, KeepFault>
    ensures exact { (o : Office) → K.told keeper.old ≡ Some o → IsSound o → AllByRecursion (λ r. from ≤ r.day) o.days
        → last ≡ last_day o → IfOk result (λ records. records.items ≡ o.days) }
    ensures kept { K.told keeper.new ≡ K.told keeper.old }
    ensures keeper { FaultsByPlan (K.faults keeper.old) (K.faults keeper.new) (K.plan keeper.old)
        (result ≡ Err Failed) }
{
    let mut records = Vec::new(alloc);
    for day in u64::from(from)..u64::from(last) + 1 {
        match push_day(day as u32, keeper, &mut records) {
            Ok(()) => {}
            Err(fault) => return Err(fault),
        }
    }
    Ok(records)
}

/// All kept days.
pub fn kept_days<K: Keeper>(alloc: Global, keeper: &mut K) -> Result<KeptDays, KeepFault>
    ensures exact { (o : Office) → K.told keeper.old ≡ Some o
        → IfOk result (λ found. (found.records.items ≡ o.days) × (found.last ≡ last_day o)) }
    ensures kept { K.told keeper.new ≡ K.told keeper.old }
    ensures keeper { FaultsByPlan (K.faults keeper.old) (K.faults keeper.new) (K.plan keeper.old)
        (result ≡ Err Failed) }
{
    let last = match keeper.last_day() {
        Ok(last) => last,
        Err(fault) => return Err(fault),
    };
    let from = match first_day(keeper) {
        Ok(from) => from,
        Err(fault) => return Err(fault),
    };
    match days_within(alloc, from, last, keeper) {
        Ok(records) => Ok(KeptDays { records, last }),
        Err(fault) => Err(fault),
    }
}
