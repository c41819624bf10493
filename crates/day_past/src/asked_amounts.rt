// The amounts that the tuples of a day ask for, each asked for once.
ghost use Rattle.std.specs.Prelude.{◌≡◌, ◌≢◌, ◌+◌, ◌-◌, ◌≤◌, true, Some, Ok, Err, length, IfOk, OnOk};
ghost use Rattle.std.specs.List.{list_any, AllByRecursion};
ghost use Rattle.road_time.specs.Fits.{IsValid};
ghost use Rattle.road_time.specs.History.{is_row, KeysDiffer};
ghost use Rattle.road_io.specs.Faults.{Rose};
ghost use Rattle.road_io.specs.Plans.{NeverFails};
ghost use Rattle.keep_office.specs.Office.{Office};
ghost use Rattle.keep_office.specs.declared.kept.KeepFault.TheVariants.{Failed};
ghost use Rattle.day_past.specs.Asks.{asks_history, asking, count_asks, HasAsked, HasAllAsked, AreRight, HaveAllOf};

use keep_office::{KeepFault, Keeper};
use road_time::{SpentRow, Tuple};
use std::alloc::Global;

/// Whether some rows have one of a day, a vehicle and an expressway.
fn has_row(rows: &[SpentRow], day: u32, vid: u32, xway: u8) -> bool
    ensures { result ≡ list_any (is_row day vid xway) rows.now }
{
    rows.iter().any(|row| row.day == day && (row.vid == vid && row.xway == xway))
}

/// The amount of a day, a vehicle and an expressway joins some rows that have none of these.
fn join_amount<K: Keeper>(
    day: u32,
    vid: u32,
    xway: u8,
    keeper: &mut K,
    rows: &mut Vec<SpentRow>,
) -> Result<(), KeepFault>
    requires keys { KeysDiffer rows.old.items }
    requires new { list_any (is_row day vid xway) rows.old.items ≢ true }
    ensures right { (o : Office) → K.told keeper.old ≡ Some o → AreRight o.rows rows.old.items
        → AreRight o.rows rows.new.items }
    ensures keys { KeysDiffer rows.new.items }
    ensures asked { OnOk result (list_any (is_row day vid xway) rows.new.items ≡ true) }
    ensures grows { HaveAllOf rows.old.items rows.new.items }
    ensures few { length rows.new.items ≤ length rows.old.items + 1 }
    ensures same { K.told keeper.new ≡ K.told keeper.old }
    ensures cause { result ≡ Err Failed → Rose (K.faults keeper.old) (K.faults keeper.new) }
    ensures later { K.faults keeper.old ≤ K.faults keeper.new }
    ensures stands { result ≢ Err Failed → K.faults keeper.new ≡ K.faults keeper.old }
    ensures sure { NeverFails (K.plan keeper.old) → (result ≢ Err Failed) × NeverFails (K.plan keeper.new) }
{
    let tolls = match keeper.spent(day, vid, xway) {
        Ok(tolls) => tolls,
        Err(fault) => return Err(fault),
    };
    let row = SpentRow {
        day,
        vid,
        xway,
        tolls,
    };
    match rows.push(row) {
        Ok(()) => Ok(()),
        Err(_) => Err(KeepFault::NoMemory),
    }
}

/// The amount that a tuple of a day asks for joins some rows, unless they have it.
fn join_asked<K: Keeper>(
    number: u32,
    tuple: &Tuple,
    keeper: &mut K,
    rows: &mut Vec<SpentRow>,
) -> Result<(), KeepFault>
    requires valid { IsValid tuple.now }
    requires low { 70 ≤ number }
    requires keys { KeysDiffer rows.old.items }
    ensures right { (o : Office) → K.told keeper.old ≡ Some o → AreRight o.rows rows.old.items
        → AreRight o.rows rows.new.items }
    ensures keys { KeysDiffer rows.new.items }
    ensures asked { OnOk result (HasAsked number rows.new.items tuple.now) }
    ensures grows { HaveAllOf rows.old.items rows.new.items }
    ensures few { length rows.new.items ≤ length rows.old.items + asking (asks_history tuple.now) }
    ensures same { K.told keeper.new ≡ K.told keeper.old }
    ensures cause { result ≡ Err Failed → Rose (K.faults keeper.old) (K.faults keeper.new) }
    ensures later { K.faults keeper.old ≤ K.faults keeper.new }
    ensures stands { result ≢ Err Failed → K.faults keeper.new ≡ K.faults keeper.old }
    ensures sure { NeverFails (K.plan keeper.old) → (result ≢ Err Failed) × NeverFails (K.plan keeper.new) }
{
    match *tuple {
        Tuple::Spent { vid, xway, day, .. } => {
            let past = number - u32::from(day);
            if has_row(rows.as_slice(), past, vid, xway) {
                return Ok(());
            }
            join_amount(past, vid, xway, keeper, rows)
        }
        _ => Ok(()),
    }
}

/// The amounts that the tuples of a day ask for, each asked for once.
pub fn asked_amounts<K: Keeper>(
    alloc: Global,
    number: u32,
    tuples: &[Tuple],
    keeper: &mut K,
) -> Result<Vec<SpentRow>, KeepFault>
    requires valid { AllByRecursion IsValid tuples.now }
    requires low { 70 ≤ number }
    ensures right { (o : Office) → K.told keeper.old ≡ Some o → IfOk result (λ rows. AreRight o.rows rows.items) }
    ensures asked { IfOk result (λ rows. HasAllAsked number rows.items tuples.now) }
    ensures keys { IfOk result (λ rows. KeysDiffer rows.items) }
    ensures few { IfOk result (λ rows. length rows.items ≤ count_asks tuples.now) }
    ensures same { K.told keeper.new ≡ K.told keeper.old }
    ensures cause { result ≡ Err Failed → Rose (K.faults keeper.old) (K.faults keeper.new) }
    ensures later { K.faults keeper.old ≤ K.faults keeper.new }
    ensures stands { result ≢ Err Failed → K.faults keeper.new ≡ K.faults keeper.old }
    ensures sure { NeverFails (K.plan keeper.old) → (result ≢ Err Failed) × NeverFails (K.plan keeper.new) }
{
    let mut rows = Vec::new(alloc);
    let mut left = tuples;
    while let Some((tuple, later)) = left.split_first() {
        if let Err(fault) = join_asked(number, tuple, keeper, &mut rows) {
            return Err(fault);
        }
        left = later;
    }
    Ok(rows)
}
