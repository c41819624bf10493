// Puts at a place in the history of a keeper, which go to the next place.
ghost use Rattle.std.specs.Prelude.{◌≡◌, ◌⊎◌, ℕ, Some, None, Err};
ghost use Rattle.road_time.specs.Rates.{IsTariff};
ghost use Rattle.keep_office.specs.Kept.{IsDayPut, IsPastPut, IsLater, HasNoDays, with_day, with_past, with_tariff_of};
ghost use Rattle.keep_office.specs.Calls.{SoundIfTold, IfTold, Puts, PutsAsPlanned};
ghost use Rattle.keep_office.specs.declared.kept.KeepFault.TheVariants as faults;
ghost use Rattle.serve_desk.specs.History.{told_at};

use crate::history::Naming;
use crate::hold::Hold;
use crate::kept::Kept;
use keep_office::{DayRecord, KeepFault, Keeper, PastRecord};
use road_time::{SpentRow, Tariff};

/// Goes to the place of what was put, and hands the answer on. Where there is none, that is told as a want of memory,
/// and the place is held that was.
fn follow<J: Naming, K: Keeper>(
    kept: &mut Kept<J, K>,
    hold: &mut Hold<J, K>,
    answer: Result<(), KeepFault>,
) -> Result<(), KeepFault>
    requires sound { SoundIfTold (K.told kept.old.keeper) }
    requires here { kept.old.place.count ≡ hold.old.place.count }
    requires first { (n : ℕ) → hold.old.from ≡ Some n → hold.old.place.count ≡ n }
    ensures went { ((result ≡ answer)
        × (told_at K.told hold.new.place.seen.log hold.new.place.count ≡ K.told kept.old.keeper))
        ⊎ ((result ≡ Err faults.NoMemory)
        × (told_at K.told hold.new.place.seen.log hold.new.place.count
        ≡ told_at K.told hold.old.place.seen.log hold.old.place.count)) }
    ensures from { hold.new.from ≡ hold.old.from }
{
    let Some(place) = kept.settle() else {
        return Err(KeepFault::NoMemory);
    };
    hold.place = place;
    answer
}

/// Puts a day.
pub fn put_day_at<J: Naming, K: Keeper>(
    kept: &mut Kept<J, K>,
    hold: &mut Hold<J, K>,
    day: &DayRecord,
    rows: &[SpentRow],
) -> Result<(), KeepFault>
    requires fits { IsDayPut day.now rows.now }
    requires later { IfTold (told_at K.told hold.old.place.seen.log hold.old.place.count) (λ o. IsLater day.now.day o) }
    ensures state { Puts K.refuses (told_at K.told hold.old.place.seen.log hold.old.place.count)
        (told_at K.told hold.new.place.seen.log hold.new.place.count) result (with_day day.now rows.now) }
    ensures sound { SoundIfTold (told_at K.told hold.new.place.seen.log hold.new.place.count) }
    ensures planned { PutsAsPlanned K.refuses None None result }
    ensures from { hold.new.from ≡ hold.old.from }
{
    if hold.has_put() {
        return Err(KeepFault::NoMemory);
    }
    if kept.stands(hold).is_err() {
        return Err(KeepFault::NoMemory);
    }
    kept.unsettle();
    let answer = kept.keeper.put_day(day, rows);
    follow(kept, hold, answer)
}

/// Puts a history.
pub fn put_past_at<J: Naming, K: Keeper>(
    kept: &mut Kept<J, K>,
    hold: &mut Hold<J, K>,
    past: &PastRecord,
    rows: &[SpentRow],
) -> Result<(), KeepFault>
    requires fits { IsPastPut past.now rows.now }
    requires first { IfTold (told_at K.told hold.old.place.seen.log hold.old.place.count) HasNoDays }
    ensures state { Puts K.refuses (told_at K.told hold.old.place.seen.log hold.old.place.count)
        (told_at K.told hold.new.place.seen.log hold.new.place.count) result (with_past past.now rows.now) }
    ensures sound { SoundIfTold (told_at K.told hold.new.place.seen.log hold.new.place.count) }
    ensures planned { PutsAsPlanned K.refuses None None result }
    ensures from { hold.new.from ≡ hold.old.from }
{
    if hold.has_put() {
        return Err(KeepFault::NoMemory);
    }
    if kept.stands(hold).is_err() {
        return Err(KeepFault::NoMemory);
    }
    kept.unsettle();
    let answer = kept.keeper.put_past(past, rows);
    follow(kept, hold, answer)
}

/// Gives an expressway a tariff.
pub fn put_tariff_at<J: Naming, K: Keeper>(
    kept: &mut Kept<J, K>,
    hold: &mut Hold<J, K>,
    xway: u8,
    tariff: &Tariff,
) -> Result<(), KeepFault>
    requires valid { IsTariff tariff.now }
    ensures state { Puts K.refuses (told_at K.told hold.old.place.seen.log hold.old.place.count)
        (told_at K.told hold.new.place.seen.log hold.new.place.count) result (with_tariff_of xway tariff.now) }
    ensures sound { SoundIfTold (told_at K.told hold.new.place.seen.log hold.new.place.count) }
    ensures planned { PutsAsPlanned K.refuses None None result }
    ensures from { hold.new.from ≡ hold.old.from }
{
    if hold.has_put() {
        return Err(KeepFault::NoMemory);
    }
    if kept.stands(hold).is_err() {
        return Err(KeepFault::NoMemory);
    }
    kept.unsettle();
    let answer = kept.keeper.put_tariff(xway, tariff);
    follow(kept, hold, answer)
}
