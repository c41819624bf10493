// Puts of a keeper of which it is not known what it keeps.
ghost use Rattle.std.specs.Prelude.{◌≡◌, ◌≤◌, Some, false};
ghost use Rattle.keep_office.specs.Office.{Office};
ghost use Rattle.keep_office.specs.Kept.{IsDayPut, IsPastPut, IsLater, HasNoDays, with_day, with_past, with_tariff_of};
ghost use Rattle.keep_office.specs.Calls.{Puts, SoundIfTold};
ghost use Rattle.road_time.specs.Rates.{IsTariff};
ghost use Rattle.serve_desk.specs.Tries.{Tries};
ghost use Rattle.serve_desk.specs.Calls.{PutsShared};

use crate::history::Naming;
use crate::kept::Kept;
use crate::reads::read_last_day;
use keep_office::{DayRecord, KeepFault, Keeper, PastRecord};
use road_time::{SpentRow, Tariff};

/// Puts a day, if it comes after all that is kept; else that is a failure.
pub fn try_day<K: Keeper>(
    keeper: &mut K,
    kept: &DayRecord,
    rows: &[SpentRow],
) -> Result<(), KeepFault>
    requires { IsDayPut kept.now rows.now }
    ensures tries { (o : Office) → K.told keeper.old ≡ Some o
        → Tries K.refuses (IsLater kept.now.day o) (with_day kept.now rows.now) o (K.told keeper.new) result }
    ensures sound { SoundIfTold (K.told keeper.new) }
    ensures later { K.faults keeper.old ≤ K.faults keeper.new }
{
    let last = keeper.last_day()?;
    if last >= kept.day {
        return Err(KeepFault::Failed);
    }
    keeper.put_day(kept, rows)
}

/// Puts a history, if no day and no history is kept; else that is a failure.
pub fn try_past<K: Keeper>(
    keeper: &mut K,
    kept: &PastRecord,
    rows: &[SpentRow],
) -> Result<(), KeepFault>
    requires { IsPastPut kept.now rows.now }
    ensures tries { (o : Office) → K.told keeper.old ≡ Some o
        → Tries K.refuses (HasNoDays o) (with_past kept.now rows.now) o (K.told keeper.new) result }
    ensures sound { SoundIfTold (K.told keeper.new) }
    ensures later { K.faults keeper.old ≤ K.faults keeper.new }
{
    let last = keeper.last_day()?;
    if last > 0 {
        return Err(KeepFault::Failed);
    }
    keeper.put_past(kept, rows)
}

/// Asks the keeper once, so that what it tells is known to be sound, and lets a put begin.
fn open_for_put<J: Naming, K: Keeper>(kept: &mut Kept<J, K>)
    ensures unsettled { kept.new.settled ≡ false }
{
    let _ = read_last_day(kept);
    kept.unsettle();
}

/// Puts a day as `try_day` does, between two states of the keeper.
pub fn put_next_day<J: Naming, K: Keeper>(
    kept: &mut Kept<J, K>,
    day: &DayRecord,
    rows: &[SpentRow],
) -> Result<(), KeepFault>
    requires { IsDayPut day.now rows.now }
    ensures shared { PutsShared K.told K.faults (λ o after.
        Tries K.refuses (IsLater day.now.day o) (with_day day.now rows.now) o after result) }
{
    open_for_put(kept);
    let answer = try_day(&mut kept.keeper, day, rows);
    let _ = kept.settle();
    answer
}

/// Puts a history as `try_past` does, between two states of the keeper.
pub fn put_first_past<J: Naming, K: Keeper>(
    kept: &mut Kept<J, K>,
    past: &PastRecord,
    rows: &[SpentRow],
) -> Result<(), KeepFault>
    requires { IsPastPut past.now rows.now }
    ensures shared { PutsShared K.told K.faults (λ o after.
        Tries K.refuses (HasNoDays o) (with_past past.now rows.now) o after result) }
{
    open_for_put(kept);
    let answer = try_past(&mut kept.keeper, past, rows);
    let _ = kept.settle();
    answer
}

/// Gives an expressway a tariff, between two states of the keeper.
pub fn put_one_tariff<J: Naming, K: Keeper>(
    kept: &mut Kept<J, K>,
    xway: u8,
    tariff: &Tariff,
) -> Result<(), KeepFault>
    requires { IsTariff tariff.now }
    ensures shared { PutsShared K.told K.faults (λ o after.
        Puts K.refuses (Some o) after result (with_tariff_of xway tariff.now)) }
{
    open_for_put(kept);
    let answer = kept.keeper.put_tariff(xway, tariff);
    let _ = kept.settle();
    answer
}
