// Calls that read, each as one between two states of the keeper, which leave its history as it is.
ghost use Rattle.std.specs.Prelude.{◌≡◌, IfOk};
ghost use Rattle.road_time.specs.History.{paid};
ghost use Rattle.keep_office.specs.Office.{RowsRise, record_of, last_day as last_day_of, rows_between};
ghost use Rattle.keep_office.specs.Office.{vehicle_rows_between};
ghost use Rattle.keep_office.specs.Calls.{Reads, SoundIfTold};
ghost use Rattle.serve_desk.specs.Calls.{ReadsShared};

use crate::history::Naming;
use crate::kept::Kept;
use keep_office::{DayRecord, KeepFault, Keeper, PastRecord};
use road_time::{SpentRow, Tariffs};

/// The last day.
pub fn read_last_day<J: Naming, K: Keeper>(kept: &mut Kept<J, K>) -> Result<u32, KeepFault>
    ensures shared { ReadsShared K.told K.faults result (λ o last. last ≡ last_day_of o) }
    ensures state { Reads (K.told kept.old.keeper) (K.told kept.new.keeper) result (λ o last. last ≡ last_day_of o) }
    ensures sound { SoundIfTold (K.told kept.new.keeper) }
{
    kept.keeper.last_day()
}

/// A day's record.
pub fn read_day<J: Naming, K: Keeper>(
    kept: &mut Kept<J, K>,
    day: u32,
) -> Result<Option<DayRecord>, KeepFault>
    ensures shared { ReadsShared K.told K.faults result (λ o kept. kept ≡ record_of o day) }
    ensures state { Reads (K.told kept.old.keeper) (K.told kept.new.keeper) result (λ o kept. kept ≡ record_of o day) }
    ensures sound { SoundIfTold (K.told kept.new.keeper) }
{
    kept.keeper.day(day)
}

/// The history's record.
pub fn read_past<J: Naming, K: Keeper>(
    kept: &mut Kept<J, K>,
) -> Result<Option<PastRecord>, KeepFault>
    ensures shared { ReadsShared K.told K.faults result (λ o past. past ≡ o.past) }
    ensures state { Reads (K.told kept.old.keeper) (K.told kept.new.keeper) result (λ o past. past ≡ o.past) }
    ensures sound { SoundIfTold (K.told kept.new.keeper) }
{
    kept.keeper.past()
}

/// An amount.
pub fn read_spent<J: Naming, K: Keeper>(
    kept: &mut Kept<J, K>,
    day: u32,
    vid: u32,
    xway: u8,
) -> Result<u64, KeepFault>
    ensures shared { ReadsShared K.told K.faults result (λ o tolls. tolls ≡ paid o.rows day vid xway) }
    ensures state { Reads (K.told kept.old.keeper) (K.told kept.new.keeper) result (λ o tolls. tolls ≡ paid o.rows day vid xway) }
    ensures sound { SoundIfTold (K.told kept.new.keeper) }
{
    kept.keeper.spent(day, vid, xway)
}

/// The amounts of some days.
pub fn read_rows<J: Naming, K: Keeper>(
    kept: &mut Kept<J, K>,
    from: u32,
    to: u32,
) -> Result<Vec<SpentRow>, KeepFault>
    ensures shared { ReadsShared K.told K.faults result (λ o rows. rows.items ≡ rows_between o from to) }
    ensures state { Reads (K.told kept.old.keeper) (K.told kept.new.keeper) result (λ o rows. rows.items ≡ rows_between o from to) }
    ensures sound { SoundIfTold (K.told kept.new.keeper) }
    ensures rise { IfOk result (λ rows. RowsRise rows.items) }
{
    kept.keeper.rows(from, to)
}

/// The amounts of a vehicle on some days.
pub fn read_vehicle_rows<J: Naming, K: Keeper>(
    kept: &mut Kept<J, K>,
    vid: u32,
    from: u32,
    to: u32,
) -> Result<Vec<SpentRow>, KeepFault>
    ensures shared { ReadsShared K.told K.faults result (λ o rows. rows.items ≡ vehicle_rows_between o vid from to) }
    ensures state { Reads (K.told kept.old.keeper) (K.told kept.new.keeper) result (λ o rows. rows.items ≡ vehicle_rows_between o vid from to) }
    ensures sound { SoundIfTold (K.told kept.new.keeper) }
    ensures rise { IfOk result (λ rows. RowsRise rows.items) }
{
    kept.keeper.vehicle_rows(vid, from, to)
}

/// The tariffs.
pub fn read_tariffs<J: Naming, K: Keeper>(kept: &mut Kept<J, K>) -> Result<Tariffs, KeepFault>
    ensures shared { ReadsShared K.told K.faults result (λ o tariffs. tariffs ≡ o.tariffs) }
    ensures state { Reads (K.told kept.old.keeper) (K.told kept.new.keeper) result (λ o tariffs. tariffs ≡ o.tariffs) }
    ensures sound { SoundIfTold (K.told kept.new.keeper) }
{
    kept.keeper.tariffs()
}
