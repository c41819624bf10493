// What was paid on earlier days, asked for only where a tuple asks for it.
ghost use Rattle.std.specs.Prelude.{◌≡◌, ◌≢◌, ◌≤◌, true, false, length, Some, Err, IfOk};
ghost use Rattle.std.specs.List.{list_any};
ghost use Rattle.road_time.specs.Fits.{IsDay};
ghost use Rattle.road_time.specs.Rates.{Tariffs as TariffMap};
ghost use Rattle.road_time.specs.Day.{notices};
ghost use Rattle.road_io.specs.Faults.{Rose};
ghost use Rattle.road_io.specs.Plans.{NeverFails};
ghost use Rattle.keep_office.specs.Office.{Office};
ghost use Rattle.keep_office.specs.declared.kept.KeepFault.TheVariants.{Failed};
ghost use Rattle.road_time.specs.History.{paid, KeysDiffer};
ghost use Rattle.day_past.specs.Asks.{asks_history, count_asks};

use crate::asked_amounts::asked_amounts;
use keep_office::{KeepFault, Keeper};
use road_time::{SpentRow, Tuple};
use std::alloc::Global;

/// How many requests of a day are asked for one by one. An amount that is sought in a file takes some 0.1 to 0.7 ms.
const FEW: u32 = 4096;

/// Whether a tuple asks what was paid on an earlier day.
fn asks(tuple: &Tuple) -> bool
    ensures { result ≡ asks_history tuple.now }
{
    match tuple {
        Tuple::Spent { .. } => true,
        _ => false,
    }
}

/// Whether a day asks what was paid on earlier days.
fn asks_any(tuples: &[Tuple]) -> bool
    ensures { result ≡ list_any asks_history tuples.now }
{
    tuples.iter().any(|tuple| asks(tuple))
}

/// Whether few tuples of a day ask what was paid on earlier days.
fn asks_few(tuples: &[Tuple]) -> bool
    ensures { count_asks tuples.now ≤ 4096 → result ≡ true }
{
    let mut more = FEW;
    let mut left = tuples;
    while let Some((tuple, later)) = left.split_first() {
        if asks(tuple) {
            if more == 0 {
                return false;
            }
            more -= 1;
        }
        left = later;
    }
    true
}

/// The amounts of the 69 days before a day, or those that the day asks for alone, and none where it asks for none. The
/// keeper is not asked then.
pub fn history_for<K: Keeper>(
    alloc: Global,
    number: u32,
    tuples: &[Tuple],
    keeper: &mut K,
) -> Result<Vec<SpentRow>, KeepFault>
    requires fit { IsDay tuples.now }
    requires low { 70 ≤ number }
    ensures told { (o : Office) → K.told keeper.old ≡ Some o
        → IfOk result (λ rows. (tariffs : TariffMap)
        → notices tuples.now tariffs number (paid rows.items) ≡ notices tuples.now tariffs number (paid o.rows)) }
    ensures keys { IfOk result (λ rows. KeysDiffer rows.items) }
    ensures unasked { list_any asks_history tuples.now ≡ false → keeper.new ≡ keeper.old }
    ensures few { count_asks tuples.now ≤ 4096 → IfOk result (λ rows. length rows.items ≤ count_asks tuples.now) }
    ensures same { K.told keeper.new ≡ K.told keeper.old }
    ensures cause { result ≡ Err Failed → Rose (K.faults keeper.old) (K.faults keeper.new) }
    ensures later { K.faults keeper.old ≤ K.faults keeper.new }
    ensures stands { result ≢ Err Failed → K.faults keeper.new ≡ K.faults keeper.old }
    ensures sure { NeverFails (K.plan keeper.old) → (result ≢ Err Failed) × NeverFails (K.plan keeper.new) }
{
    if !asks_any(tuples) {
        return Ok(Vec::new(alloc));
    }
    if asks_few(tuples) {
        return match asked_amounts(alloc, number, tuples, keeper) {
            Ok(rows) => Ok(rows),
            Err(fault) => Err(fault),
        };
    }
    match keeper.rows(number - 69, number - 1) {
        Ok(rows) => Ok(rows),
        Err(fault) => Err(fault),
    }
}
