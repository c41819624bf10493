// The calls of a keeper at a place in its history.
ghost use Rattle.std.specs.Prelude.{◌≡◌, None, true, IfOk};
ghost use Rattle.road_time.specs.Rates.{IsTariff};
ghost use Rattle.road_time.specs.History.{paid};
ghost use Rattle.keep_office.specs.Office.{RowsRise, record_of, last_day as last_day_of, rows_between};
ghost use Rattle.keep_office.specs.Office.{vehicle_rows_between};
ghost use Rattle.keep_office.specs.Kept.{IsDayPut, IsPastPut, IsLater, HasNoDays, with_day, with_past, with_tariff_of};
ghost use Rattle.keep_office.specs.Calls.{SoundIfTold, IfTold, Reads, Puts, GoesAsPlanned, PutsAsPlanned};
ghost use Rattle.keep_office.specs.Calls.{Wants, CountsFaults};
ghost use Rattle.serve_desk.specs.History.{told_at};

use crate::begun::Begun;
use crate::counting::count;
use crate::held::HeldKeeper;
use crate::history::Naming;
use crate::puts_held::{put_day_at, put_past_at, put_tariff_at};
use crate::reads_held::{
    day_at, last_day_at, past_at, rows_at, spent_at, tariffs_at, vehicle_rows_at,
};
use keep_office::{DayRecord, KeepFault, Keeper, PastRecord};
use road_time::{SpentRow, Tariff, Tariffs};
use std::sync::Wait;

/// It tells what the keeper told at the place that it holds. Where the keeper has gone on from there, each call fails
/// and changes nothing.
impl<'a, J: Naming, K: Keeper, R: Wait, N: Begun> Keeper for HeldKeeper<'a, J, K, R, N> {
    ghost use Rattle.std.specs.Prelude.{None, true};
    ghost use Rattle.serve_desk.specs.History.{told_at};

    ghost told = { λ k. told_at K.told k.hold.place.seen.log k.hold.place.count };

    ghost faults = { λ k. k.faults };

    ghost plan = { λ k. None };

    ghost refuses = { K.refuses };

    ghost needs_memory = { true };

    fn last_day(&mut self) -> Result<u32, KeepFault>
        ensures state { Reads (told_at K.told self.old.hold.place.seen.log self.old.hold.place.count)
            (told_at K.told self.new.hold.place.seen.log self.new.hold.place.count) result (λ o last. last ≡ last_day_of o) }
        ensures sound { SoundIfTold (told_at K.told self.new.hold.place.seen.log self.new.hold.place.count) }
        ensures memory { Wants true result }
        ensures planned { GoesAsPlanned None None result }
        ensures cause { CountsFaults self.old.faults self.new.faults result }
    {
        let mut kept = self.keeper.lock(self.rt);
        let answer = last_day_at(&mut *kept, &self.hold);
        count(&mut self.faults, answer)
    }

    fn day(&mut self, day: u32) -> Result<Option<DayRecord>, KeepFault>
        ensures state { Reads (told_at K.told self.old.hold.place.seen.log self.old.hold.place.count)
            (told_at K.told self.new.hold.place.seen.log self.new.hold.place.count) result (λ o kept. kept ≡ record_of o day) }
        ensures sound { SoundIfTold (told_at K.told self.new.hold.place.seen.log self.new.hold.place.count) }
        ensures memory { Wants true result }
        ensures planned { GoesAsPlanned None None result }
        ensures cause { CountsFaults self.old.faults self.new.faults result }
    {
        let mut kept = self.keeper.lock(self.rt);
        let answer = day_at(&mut *kept, &self.hold, day);
        count(&mut self.faults, answer)
    }

    fn past(&mut self) -> Result<Option<PastRecord>, KeepFault>
        ensures state { Reads (told_at K.told self.old.hold.place.seen.log self.old.hold.place.count)
            (told_at K.told self.new.hold.place.seen.log self.new.hold.place.count) result (λ o past. past ≡ o.past) }
        ensures sound { SoundIfTold (told_at K.told self.new.hold.place.seen.log self.new.hold.place.count) }
        ensures memory { Wants true result }
        ensures planned { GoesAsPlanned None None result }
        ensures cause { CountsFaults self.old.faults self.new.faults result }
    {
        let mut kept = self.keeper.lock(self.rt);
        let answer = past_at(&mut *kept, &self.hold);
        count(&mut self.faults, answer)
    }

    fn spent(&mut self, day: u32, vid: u32, xway: u8) -> Result<u64, KeepFault>
        ensures state { Reads (told_at K.told self.old.hold.place.seen.log self.old.hold.place.count)
            (told_at K.told self.new.hold.place.seen.log self.new.hold.place.count) result (λ o tolls. tolls ≡ paid o.rows day vid xway) }
        ensures sound { SoundIfTold (told_at K.told self.new.hold.place.seen.log self.new.hold.place.count) }
        ensures memory { Wants true result }
        ensures planned { GoesAsPlanned None None result }
        ensures cause { CountsFaults self.old.faults self.new.faults result }
    {
        let mut kept = self.keeper.lock(self.rt);
        let answer = spent_at(&mut *kept, &self.hold, day, vid, xway);
        count(&mut self.faults, answer)
    }

    fn rows(&mut self, from: u32, to: u32) -> Result<Vec<SpentRow>, KeepFault>
        ensures state { Reads (told_at K.told self.old.hold.place.seen.log self.old.hold.place.count)
            (told_at K.told self.new.hold.place.seen.log self.new.hold.place.count) result (λ o rows. rows.items ≡ rows_between o from to) }
        ensures rise { IfOk result (λ rows. RowsRise rows.items) }
        ensures sound { SoundIfTold (told_at K.told self.new.hold.place.seen.log self.new.hold.place.count) }
        ensures planned { GoesAsPlanned None None result }
        ensures cause { CountsFaults self.old.faults self.new.faults result }
    {
        let mut kept = self.keeper.lock(self.rt);
        let answer = rows_at(&mut *kept, &self.hold, from, to);
        count(&mut self.faults, answer)
    }

    fn vehicle_rows(&mut self, vid: u32, from: u32, to: u32) -> Result<Vec<SpentRow>, KeepFault>
        ensures state { Reads (told_at K.told self.old.hold.place.seen.log self.old.hold.place.count)
            (told_at K.told self.new.hold.place.seen.log self.new.hold.place.count) result (λ o rows. rows.items ≡ vehicle_rows_between o vid from to) }
        ensures rise { IfOk result (λ rows. RowsRise rows.items) }
        ensures sound { SoundIfTold (told_at K.told self.new.hold.place.seen.log self.new.hold.place.count) }
        ensures planned { GoesAsPlanned None None result }
        ensures cause { CountsFaults self.old.faults self.new.faults result }
    {
        let mut kept = self.keeper.lock(self.rt);
        let answer = vehicle_rows_at(&mut *kept, &self.hold, vid, from, to);
        count(&mut self.faults, answer)
    }

    fn tariffs(&mut self) -> Result<Tariffs, KeepFault>
        ensures state { Reads (told_at K.told self.old.hold.place.seen.log self.old.hold.place.count)
            (told_at K.told self.new.hold.place.seen.log self.new.hold.place.count) result (λ o tariffs. tariffs ≡ o.tariffs) }
        ensures sound { SoundIfTold (told_at K.told self.new.hold.place.seen.log self.new.hold.place.count) }
        ensures planned { GoesAsPlanned None None result }
        ensures cause { CountsFaults self.old.faults self.new.faults result }
    {
        let mut kept = self.keeper.lock(self.rt);
        let answer = tariffs_at(&mut *kept, &self.hold);
        count(&mut self.faults, answer)
    }

    fn put_day(&mut self, day: &DayRecord, rows: &[SpentRow]) -> Result<(), KeepFault>
        requires fits { IsDayPut day.now rows.now }
        requires later { IfTold (told_at K.told self.old.hold.place.seen.log self.old.hold.place.count) (λ o. IsLater day.now.day o) }
        ensures state { Puts K.refuses (told_at K.told self.old.hold.place.seen.log self.old.hold.place.count)
            (told_at K.told self.new.hold.place.seen.log self.new.hold.place.count) result (with_day day.now rows.now) }
        ensures sound { SoundIfTold (told_at K.told self.new.hold.place.seen.log self.new.hold.place.count) }
        ensures planned { PutsAsPlanned K.refuses None None result }
        ensures cause { CountsFaults self.old.faults self.new.faults result }
    {
        let mut kept = self.keeper.lock(self.rt);
        let answer = put_day_at(&mut *kept, &mut self.hold, day, rows);
        count(&mut self.faults, answer)
    }

    fn put_past(&mut self, past: &PastRecord, rows: &[SpentRow]) -> Result<(), KeepFault>
        requires fits { IsPastPut past.now rows.now }
        requires first { IfTold (told_at K.told self.old.hold.place.seen.log self.old.hold.place.count) HasNoDays }
        ensures state { Puts K.refuses (told_at K.told self.old.hold.place.seen.log self.old.hold.place.count)
            (told_at K.told self.new.hold.place.seen.log self.new.hold.place.count) result (with_past past.now rows.now) }
        ensures sound { SoundIfTold (told_at K.told self.new.hold.place.seen.log self.new.hold.place.count) }
        ensures planned { PutsAsPlanned K.refuses None None result }
        ensures cause { CountsFaults self.old.faults self.new.faults result }
    {
        let mut kept = self.keeper.lock(self.rt);
        let answer = put_past_at(&mut *kept, &mut self.hold, past, rows);
        count(&mut self.faults, answer)
    }

    fn put_tariff(&mut self, xway: u8, tariff: &Tariff) -> Result<(), KeepFault>
        requires valid { IsTariff tariff.now }
        ensures state { Puts K.refuses (told_at K.told self.old.hold.place.seen.log self.old.hold.place.count)
            (told_at K.told self.new.hold.place.seen.log self.new.hold.place.count) result (with_tariff_of xway tariff.now) }
        ensures sound { SoundIfTold (told_at K.told self.new.hold.place.seen.log self.new.hold.place.count) }
        ensures planned { PutsAsPlanned K.refuses None None result }
        ensures cause { CountsFaults self.old.faults self.new.faults result }
    {
        let mut kept = self.keeper.lock(self.rt);
        let answer = put_tariff_at(&mut *kept, &mut self.hold, xway, tariff);
        count(&mut self.faults, answer)
    }
}
