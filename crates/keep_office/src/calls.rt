// Whoever keeps days, amounts, a history and tariffs.
ghost use Rattle.std.specs.Prelude.{◌≡◌, ◌<◌, IfOk};
ghost use Rattle.road_time.specs.Rates.{IsTariff};
ghost use Rattle.road_time.specs.History.{paid};
ghost use Rattle.keep_office.specs.Office.{RowsRise, record_of, last_day as last_day_of, rows_between, vehicle_rows_between};
ghost use Rattle.keep_office.specs.Kept.{IsDayPut, IsPastPut, IsLater, HasNoDays, with_day, with_past, with_tariff_of};
ghost use Rattle.keep_office.specs.Calls.{SoundIfTold, IfTold, Reads, Puts, GoesAsPlanned, PutsAsPlanned, Wants};
ghost use Rattle.keep_office.specs.Calls.{CountsFaults};

use crate::kept::{DayRecord, KeepFault, PastRecord};
use road_time::{SpentRow, Tariff, Tariffs};

/// Keeps days, amounts, a history and tariffs. `told` is what it keeps, where it tells that, `faults` the calls that it
/// failed at and counted, `plan` which of its calls to come fail, where it tells that, `refuses` what it does at a
/// put that it refuses, and `needs_memory` whether its small answers need any. Days are counted from 1, and amounts
/// are of a day, a vehicle and an expressway.
pub trait Keeper {
    ghost use Rattle.std.specs.Prelude.{ℕ, Bool, Option};
    ghost use Rattle.keep_office.specs.Office.{Office};
    ghost use Rattle.keep_office.specs.Calls.{WhenRefused};

    ghost told: { Self → Option Office };

    ghost faults: { Self → ℕ };

    ghost plan: { Self → Option (ℕ → Bool) };

    ghost refuses: { WhenRefused };

    ghost needs_memory: { Bool };

    /// The greatest kept day, else the day before the history's base, else 0.
    fn last_day(&mut self) -> Result<u32, KeepFault>
        ensures state { Reads (told self.old) (told self.new) result (λ o last. last ≡ last_day_of o) }
        ensures sound { SoundIfTold (told self.new) }
        ensures memory { Wants needs_memory result }
        ensures planned { GoesAsPlanned (plan self.old) (plan self.new) result }
        ensures cause { CountsFaults (faults self.old) (faults self.new) result };

    /// The record of a day, none if it is not kept.
    fn day(&mut self, day: u32) -> Result<Option<DayRecord>, KeepFault>
        ensures state { Reads (told self.old) (told self.new) result (λ o kept. kept ≡ record_of o day) }
        ensures sound { SoundIfTold (told self.new) }
        ensures memory { Wants needs_memory result }
        ensures planned { GoesAsPlanned (plan self.old) (plan self.new) result }
        ensures cause { CountsFaults (faults self.old) (faults self.new) result };

    /// The record of the history, none if none is kept.
    fn past(&mut self) -> Result<Option<PastRecord>, KeepFault>
        ensures state { Reads (told self.old) (told self.new) result (λ o past. past ≡ o.past) }
        ensures sound { SoundIfTold (told self.new) }
        ensures memory { Wants needs_memory result }
        ensures planned { GoesAsPlanned (plan self.old) (plan self.new) result }
        ensures cause { CountsFaults (faults self.old) (faults self.new) result };

    /// The amount of a vehicle on an expressway on a day, 0 for none.
    fn spent(&mut self, day: u32, vid: u32, xway: u8) -> Result<u64, KeepFault>
        ensures state { Reads (told self.old) (told self.new) result (λ o tolls. tolls ≡ paid o.rows day vid xway) }
        ensures sound { SoundIfTold (told self.new) }
        ensures memory { Wants needs_memory result }
        ensures planned { GoesAsPlanned (plan self.old) (plan self.new) result }
        ensures cause { CountsFaults (faults self.old) (faults self.new) result };

    /// The amounts of the days `from` to `to`, both included, in the order of day, vehicle and expressway.
    fn rows(&mut self, from: u32, to: u32) -> Result<Vec<SpentRow>, KeepFault>
        ensures state { Reads (told self.old) (told self.new) result (λ o rows. rows.items ≡ rows_between o from to) }
        ensures rise { IfOk result (λ rows. RowsRise rows.items) }
        ensures sound { SoundIfTold (told self.new) }
        ensures planned { GoesAsPlanned (plan self.old) (plan self.new) result }
        ensures cause { CountsFaults (faults self.old) (faults self.new) result };

    /// The amounts of a vehicle on the days `from` to `to`, both included, in the order of day and expressway.
    fn vehicle_rows(&mut self, vid: u32, from: u32, to: u32) -> Result<Vec<SpentRow>, KeepFault>
        ensures state { Reads (told self.old) (told self.new) result
            (λ o rows. rows.items ≡ vehicle_rows_between o vid from to) }
        ensures rise { IfOk result (λ rows. RowsRise rows.items) }
        ensures sound { SoundIfTold (told self.new) }
        ensures planned { GoesAsPlanned (plan self.old) (plan self.new) result }
        ensures cause { CountsFaults (faults self.old) (faults self.new) result };

    /// The tariffs of the expressways that do not have the benchmark's.
    fn tariffs(&mut self) -> Result<Tariffs, KeepFault>
        ensures state { Reads (told self.old) (told self.new) result (λ o tariffs. tariffs ≡ o.tariffs) }
        ensures sound { SoundIfTold (told self.new) }
        ensures planned { GoesAsPlanned (plan self.old) (plan self.new) result }
        ensures cause { CountsFaults (faults self.old) (faults self.new) result };

    /// Keeps a day after all kept ones, with its amounts. The amounts are of that day, above 0, in the order of
    /// vehicles and expressways, and come to the record's total.
    fn put_day(&mut self, kept: &DayRecord, rows: &[SpentRow]) -> Result<(), KeepFault>
        requires fits { IsDayPut kept.now rows.now }
        requires later { IfTold (told self.old) (λ o. IsLater kept.now.day o) }
        ensures state { Puts refuses (told self.old) (told self.new) result (with_day kept.now rows.now) }
        ensures sound { SoundIfTold (told self.new) }
        ensures planned { PutsAsPlanned refuses (plan self.old) (plan self.new) result }
        ensures cause { CountsFaults (faults self.old) (faults self.new) result };

    /// Keeps a history with its amounts, where no day and no history is kept. The amounts are of the 69 days before the
    /// base, above 0, in the order of day, vehicle and expressway, and as many as the record says.
    fn put_past(&mut self, kept: &PastRecord, rows: &[SpentRow]) -> Result<(), KeepFault>
        requires fits { IsPastPut kept.now rows.now }
        requires first { IfTold (told self.old) HasNoDays }
        ensures state { Puts refuses (told self.old) (told self.new) result (with_past kept.now rows.now) }
        ensures sound { SoundIfTold (told self.new) }
        ensures planned { PutsAsPlanned refuses (plan self.old) (plan self.new) result }
        ensures cause { CountsFaults (faults self.old) (faults self.new) result };

    /// Gives an expressway a tariff. The benchmark's takes its own away.
    fn put_tariff(&mut self, xway: u8, tariff: &Tariff) -> Result<(), KeepFault>
        requires valid { IsTariff tariff.now }
        ensures state { Puts refuses (told self.old) (told self.new) result (with_tariff_of xway tariff.now) }
        ensures sound { SoundIfTold (told self.new) }
        ensures planned { PutsAsPlanned refuses (plan self.old) (plan self.new) result }
        ensures cause { CountsFaults (faults self.old) (faults self.new) result };
}
