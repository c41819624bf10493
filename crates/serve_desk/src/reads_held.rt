// Calls that read at a place in the history of a keeper.
ghost use Rattle.std.specs.Prelude.{◌≡◌, IfOk};
ghost use Rattle.road_time.specs.History.{paid};
ghost use Rattle.keep_office.specs.Office.{RowsRise, record_of, last_day as last_day_of, rows_between};
ghost use Rattle.keep_office.specs.Office.{vehicle_rows_between};
ghost use Rattle.keep_office.specs.Calls.{Reads, SoundIfTold};
ghost use Rattle.serve_desk.specs.History.{told_at};

use crate::history::Naming;
use crate::hold::Hold;
use crate::kept::Kept;
use crate::reads::{
    read_day, read_last_day, read_past, read_rows, read_spent, read_tariffs, read_vehicle_rows,
};
use keep_office::{DayRecord, KeepFault, Keeper, PastRecord};
use road_time::{SpentRow, Tariffs};

/// The last day.
pub fn last_day_at<J: Naming, K: Keeper>(
    kept: &mut Kept<J, K>,
    hold: &Hold<J, K>,
) -> Result<u32, KeepFault>
    ensures state { Reads (told_at K.told hold.now.place.seen.log hold.now.place.count)
        (told_at K.told hold.now.place.seen.log hold.now.place.count) result (λ o last. last ≡ last_day_of o) }
    ensures sound { SoundIfTold (told_at K.told hold.now.place.seen.log hold.now.place.count) }
{
    if let Err(fault) = kept.stands(hold) {
        return Err(fault);
    }
    read_last_day(kept)
}

/// A day's record.
pub fn day_at<J: Naming, K: Keeper>(
    kept: &mut Kept<J, K>,
    hold: &Hold<J, K>,
    day: u32,
) -> Result<Option<DayRecord>, KeepFault>
    ensures state { Reads (told_at K.told hold.now.place.seen.log hold.now.place.count)
        (told_at K.told hold.now.place.seen.log hold.now.place.count) result (λ o kept. kept ≡ record_of o day) }
    ensures sound { SoundIfTold (told_at K.told hold.now.place.seen.log hold.now.place.count) }
{
    if let Err(fault) = kept.stands(hold) {
        return Err(fault);
    }
    read_day(kept, day)
}

/// The history's record.
pub fn past_at<J: Naming, K: Keeper>(
    kept: &mut Kept<J, K>,
    hold: &Hold<J, K>,
) -> Result<Option<PastRecord>, KeepFault>
    ensures state { Reads (told_at K.told hold.now.place.seen.log hold.now.place.count)
        (told_at K.told hold.now.place.seen.log hold.now.place.count) result (λ o past. past ≡ o.past) }
    ensures sound { SoundIfTold (told_at K.told hold.now.place.seen.log hold.now.place.count) }
{
    if let Err(fault) = kept.stands(hold) {
        return Err(fault);
    }
    read_past(kept)
}

/// An amount.
pub fn spent_at<J: Naming, K: Keeper>(
    kept: &mut Kept<J, K>,
    hold: &Hold<J, K>,
    day: u32,
    vid: u32,
    xway: u8,
) -> Result<u64, KeepFault>
    ensures state { Reads (told_at K.told hold.now.place.seen.log hold.now.place.count)
        (told_at K.told hold.now.place.seen.log hold.now.place.count) result (λ o tolls. tolls ≡ paid o.rows day vid xway) }
    ensures sound { SoundIfTold (told_at K.told hold.now.place.seen.log hold.now.place.count) }
{
    if let Err(fault) = kept.stands(hold) {
        return Err(fault);
    }
    read_spent(kept, day, vid, xway)
}

/// The amounts of some days.
pub fn rows_at<J: Naming, K: Keeper>(
    kept: &mut Kept<J, K>,
    hold: &Hold<J, K>,
    from: u32,
    to: u32,
) -> Result<Vec<SpentRow>, KeepFault>
    ensures state { Reads (told_at K.told hold.now.place.seen.log hold.now.place.count)
        (told_at K.told hold.now.place.seen.log hold.now.place.count) result (λ o rows. rows.items ≡ rows_between o from to) }
    ensures rise { IfOk result (λ rows. RowsRise rows.items) }
    ensures sound { SoundIfTold (told_at K.told hold.now.place.seen.log hold.now.place.count) }
{
    if let Err(fault) = kept.stands(hold) {
        return Err(fault);
    }
    read_rows(kept, from, to)
}

/// The amounts of a vehicle on some days.
pub fn vehicle_rows_at<J: Naming, K: Keeper>(
    kept: &mut Kept<J, K>,
    hold: &Hold<J, K>,
    vid: u32,
    from: u32,
    to: u32,
) -> Result<Vec<SpentRow>, KeepFault>
    ensures state { Reads (told_at K.told hold.now.place.seen.log hold.now.place.count)
        (told_at K.told hold.now.place.seen.log hold.now.place.count) result (λ o rows. rows.items ≡ vehicle_rows_between o vid from to) }
    ensures rise { IfOk result (λ rows. RowsRise rows.items) }
    ensures sound { SoundIfTold (told_at K.told hold.now.place.seen.log hold.now.place.count) }
{
    if let Err(fault) = kept.stands(hold) {
        return Err(fault);
    }
    read_vehicle_rows(kept, vid, from, to)
}

/// The tariffs.
pub fn tariffs_at<J: Naming, K: Keeper>(
    kept: &mut Kept<J, K>,
    hold: &Hold<J, K>,
) -> Result<Tariffs, KeepFault>
    ensures state { Reads (told_at K.told hold.now.place.seen.log hold.now.place.count)
        (told_at K.told hold.now.place.seen.log hold.now.place.count) result (λ o tariffs. tariffs ≡ o.tariffs) }
    ensures sound { SoundIfTold (told_at K.told hold.now.place.seen.log hold.now.place.count) }
{
    if let Err(fault) = kept.stands(hold) {
        return Err(fault);
    }
    read_tariffs(kept)
}
