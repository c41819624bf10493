// All kept days, by the calls of a keeper.
ghost use Rattle.std.specs.Prelude.{◌≡◌, ◌≢◌, ◌≤◌, ◌++◌, Some, Err, IfOk, OnOk};
ghost use Rattle.std.specs.List.{AllByRecursion};
ghost use Rattle.keep_office.specs.Calls.{SoundIfTold, CountsFaults};
ghost use Rattle.keep_office.specs.Office.{Office, record_of};
ghost use Rattle.keep_office.specs.declared.kept.KeepFault.TheVariants.{Failed};
ghost use Rattle.serve_desk.specs.Days.{first_day as first_of_past, as_list};

use keep_office::{DayRecord, KeepFault, Keeper, PastRecord};
use std::alloc::Global;

/// The first day that may be kept, by the record of a history.
pub(crate) fn first_of(past: Option<PastRecord>) -> u32
    ensures { result ≡ first_of_past past }
{
    match past {
        Some(past) => past.base,
        None => 1,
    }
}

/// The first day that may be kept: the base of the history, else 1.
fn first_day<K: Keeper>(keeper: &mut K) -> Result<u32, KeepFault>
    ensures told { (o : Office) → K.told keeper.old ≡ Some o → K.told keeper.new ≡ Some o }
    ensures first { (o : Office) → K.told keeper.old ≡ Some o → IfOk result (λ day. day ≡ first_of_past o.past) }
    ensures sound { SoundIfTold (K.told keeper.new) }
    ensures cause { CountsFaults (K.faults keeper.old) (K.faults keeper.new) result }
{
    match keeper.past() {
        Ok(past) => Ok(first_of(past)),
        Err(fault) => Err(fault),
    }
}

/// Adds a record, if there is one.
pub(crate) fn add(kept: Option<DayRecord>, days: &mut Vec<DayRecord>) -> Result<(), KeepFault>
    ensures added { OnOk result (days.new.items ≡ days.old.items ++ as_list kept) }
    ensures memory { result ≢ Err Failed }
{
    match kept {
        Some(kept) => match days.push(kept) {
            Ok(()) => Ok(()),
            Err(_) => Err(KeepFault::NoMemory),
        },
        None => Ok(()),
    }
}

/// Adds the record of a day, if it is kept.
fn add_day<K: Keeper>(day: u32, keeper: &mut K, days: &mut Vec<DayRecord>) -> Result<(), KeepFault>
    ensures told { (o : Office) → K.told keeper.old ≡ Some o → K.told keeper.new ≡ Some o }
    ensures added { (o : Office) → K.told keeper.old ≡ Some o
        → OnOk result (days.new.items ≡ days.old.items ++ as_list (record_of o day)) }
    ensures sound { SoundIfTold (K.told keeper.new) }
    ensures cause { CountsFaults (K.faults keeper.old) (K.faults keeper.new) result }
{
    match keeper.day(day) {
        Ok(kept) => add(kept, days),
        Err(fault) => Err(fault),
    }
}

/// The records of the days from one to another, in the order of days.
fn days_from<K: Keeper>(
    alloc: Global,
    first: u32,
    last: u32,
    keeper: &mut K,
) -> Result<Vec<DayRecord>, KeepFault>
    ensures told { (o : Office) → K.told keeper.old ≡ Some o → K.told keeper.new ≡ Some o }
    ensures found { (o : Office) → K.told keeper.old ≡ Some o → AllByRecursion (λ r. first ≤ r.day) o.days
        → AllByRecursion (λ r. r.day ≤ last) o.days → IfOk result (λ days. days.items ≡ o.days) }
    ensures cause { CountsFaults (K.faults keeper.old) (K.faults keeper.new) result }
{
    let mut days = Vec::new(alloc);
    let mut day = u64::from(first);
    while day <= u64::from(last) {
        match add_day(day as u32, keeper, &mut days) {
            Ok(()) => day += 1,
            Err(fault) => return Err(fault),
        }
    }
    Ok(days)
}

/// The records of the kept days up to one, in the order of days.
fn days_to<K: Keeper>(alloc: Global, last: u32, keeper: &mut K) -> Result<Vec<DayRecord>, KeepFault>
    ensures told { (o : Office) → K.told keeper.old ≡ Some o → K.told keeper.new ≡ Some o }
    ensures found { (o : Office) → K.told keeper.old ≡ Some o → AllByRecursion (λ r. r.day ≤ last) o.days
        → IfOk result (λ days. days.items ≡ o.days) }
    ensures cause { CountsFaults (K.faults keeper.old) (K.faults keeper.new) result }
{
    match first_day(keeper) {
        Ok(first) => days_from(alloc, first, last, keeper),
        Err(fault) => Err(fault),
    }
}

/// The records of all kept days, in the order of days: each day up to the last that is kept is looked for.
pub fn kept_days<K: Keeper>(alloc: Global, keeper: &mut K) -> Result<Vec<DayRecord>, KeepFault>
    ensures told { (o : Office) → K.told keeper.old ≡ Some o → K.told keeper.new ≡ Some o }
    ensures found { (o : Office) → K.told keeper.old ≡ Some o → IfOk result (λ days. days.items ≡ o.days) }
    ensures cause { CountsFaults (K.faults keeper.old) (K.faults keeper.new) result }
{
    match keeper.last_day() {
        Ok(last) => days_to(alloc, last, keeper),
        Err(fault) => Err(fault),
    }
}
