// The calls of a keeper that is shared.
ghost use Rattle.std.specs.Prelude.{◌≡◌, None, Some, true, IfOk};
ghost use Rattle.road_time.specs.Rates.{IsTariff};
ghost use Rattle.road_time.specs.History.{paid};
ghost use Rattle.keep_office.specs.Office.{RowsRise, record_of, last_day as last_day_of, rows_between};
ghost use Rattle.keep_office.specs.Office.{vehicle_rows_between};
ghost use Rattle.keep_office.specs.Kept.{IsDayPut, IsPastPut, IsLater, HasNoDays, with_day, with_past, with_tariff_of};
ghost use Rattle.keep_office.specs.Calls.{AllOrNothing, SoundIfTold, IfTold, Reads, Puts, GoesAsPlanned, PutsAsPlanned};
ghost use Rattle.keep_office.specs.Calls.{Wants, CountsFaults};
ghost use Rattle.serve_desk.specs.Tries.{Tries};
ghost use Rattle.serve_desk.specs.Calls.{ReadsShared, PutsShared};

use crate::counting::count;
use crate::history::Naming;
use crate::puts::{put_first_past, put_next_day, put_one_tariff};
use crate::reads::{
    read_day, read_last_day, read_past, read_rows, read_spent, read_tariffs, read_vehicle_rows,
};
use crate::shared::SharedKeeper;
use keep_office::{DayRecord, KeepFault, Keeper, PastRecord};
use road_time::{SpentRow, Tariff, Tariffs};
use std::sync::Wait;

/// Each call is one of the keeper under the lock, with the same arguments, between two states of it.
impl<'a, J: Naming, K: Keeper, R: Wait> Keeper for SharedKeeper<'a, J, K, R> {
    ghost use Rattle.std.specs.Prelude.{true};
    ghost use Rattle.keep_office.specs.Calls.{AllOrNothing};

    ghost told = { λ k. None };

    ghost faults = { λ k. k.faults };

    ghost plan = { λ k. None };

    ghost refuses = { AllOrNothing };

    ghost needs_memory = { true };

    fn last_day(&mut self) -> Result<u32, KeepFault>
        ensures state { Reads None None result (λ o last. last ≡ last_day_of o) }
        ensures sound { SoundIfTold None }
        ensures memory { Wants true result }
        ensures planned { GoesAsPlanned None None result }
        ensures cause { CountsFaults self.old.faults self.new.faults result }
        ensures shared { ReadsShared K.told K.faults result (λ o last. last ≡ last_day_of o) }
    {
        let mut kept = self.keeper.lock(self.rt);
        let answer = read_last_day(&mut *kept);
        count(&mut self.faults, answer)
    }

    fn day(&mut self, day: u32) -> Result<Option<DayRecord>, KeepFault>
        ensures state { Reads None None result (λ o kept. kept ≡ record_of o day) }
        ensures sound { SoundIfTold None }
        ensures memory { Wants true result }
        ensures planned { GoesAsPlanned None None result }
        ensures cause { CountsFaults self.old.faults self.new.faults result }
        ensures shared { ReadsShared K.told K.faults result (λ o kept. kept ≡ record_of o day) }
    {
        let mut kept = self.keeper.lock(self.rt);
        let answer = read_day(&mut *kept, day);
        count(&mut self.faults, answer)
    }

    fn past(&mut self) -> Result<Option<PastRecord>, KeepFault>
        ensures state { Reads None None result (λ o past. past ≡ o.past) }
        ensures sound { SoundIfTold None }
        ensures memory { Wants true result }
        ensures planned { GoesAsPlanned None None result }
        ensures cause { CountsFaults self.old.faults self.new.faults result }
        ensures shared { ReadsShared K.told K.faults result (λ o past. past ≡ o.past) }
    {
        let mut kept = self.keeper.lock(self.rt);
        let answer = read_past(&mut *kept);
        count(&mut self.faults, answer)
    }

    fn spent(&mut self, day: u32, vid: u32, xway: u8) -> Result<u64, KeepFault>
        ensures state { Reads None None result (λ o tolls. tolls ≡ paid o.rows day vid xway) }
        ensures sound { SoundIfTold None }
        ensures memory { Wants true result }
        ensures planned { GoesAsPlanned None None result }
        ensures cause { CountsFaults self.old.faults self.new.faults result }
        ensures shared { ReadsShared K.told K.faults result (λ o tolls. tolls ≡ paid o.rows day vid xway) }
    {
        let mut kept = self.keeper.lock(self.rt);
        let answer = read_spent(&mut *kept, day, vid, xway);
        count(&mut self.faults, answer)
    }

    fn rows(&mut self, from: u32, to: u32) -> Result<Vec<SpentRow>, KeepFault>
        ensures state { Reads None None result (λ o rows. rows.items ≡ rows_between o from to) }
        ensures rise { IfOk result (λ rows. RowsRise rows.items) }
        ensures sound { SoundIfTold None }
        ensures planned { GoesAsPlanned None None result }
        ensures cause { CountsFaults self.old.faults self.new.faults result }
        ensures shared { ReadsShared K.told K.faults result (λ o rows. rows.items ≡ rows_between o from to) }
    {
        let mut kept = self.keeper.lock(self.rt);
        let answer = read_rows(&mut *kept, from, to);
        count(&mut self.faults, answer)
    }

    fn vehicle_rows(&mut self, vid: u32, from: u32, to: u32) -> Result<Vec<SpentRow>, KeepFault>
        ensures state { Reads None None result
            (λ o rows. rows.items ≡ vehicle_rows_between o vid from to) }
        ensures rise { IfOk result (λ rows. RowsRise rows.items) }
        ensures sound { SoundIfTold None }
        ensures planned { GoesAsPlanned None None result }
        ensures cause { CountsFaults self.old.faults self.new.faults result }
        ensures shared { ReadsShared K.told K.faults result (λ o rows. rows.items ≡ vehicle_rows_between o vid from to) }
    {
        let mut kept = self.keeper.lock(self.rt);
        let answer = read_vehicle_rows(&mut *kept, vid, from, to);
        count(&mut self.faults, answer)
    }

    fn tariffs(&mut self) -> Result<Tariffs, KeepFault>
        ensures state { Reads None None result (λ o tariffs. tariffs ≡ o.tariffs) }
        ensures sound { SoundIfTold None }
        ensures planned { GoesAsPlanned None None result }
        ensures cause { CountsFaults self.old.faults self.new.faults result }
        ensures shared { ReadsShared K.told K.faults result (λ o tariffs. tariffs ≡ o.tariffs) }
    {
        let mut kept = self.keeper.lock(self.rt);
        let answer = read_tariffs(&mut *kept);
        count(&mut self.faults, answer)
    }

    fn put_day(&mut self, day: &DayRecord, rows: &[SpentRow]) -> Result<(), KeepFault>
        requires fits { IsDayPut day.now rows.now }
        requires later { IfTold None (λ o. IsLater day.now.day o) }
        ensures state { Puts AllOrNothing None None result (with_day day.now rows.now) }
        ensures sound { SoundIfTold None }
        ensures planned { PutsAsPlanned AllOrNothing None None result }
        ensures cause { CountsFaults self.old.faults self.new.faults result }
        ensures shared { PutsShared K.told K.faults (λ o after.
            Tries K.refuses (IsLater day.now.day o) (with_day day.now rows.now) o after result) }
    {
        let mut kept = self.keeper.lock(self.rt);
        let answer = put_next_day(&mut *kept, day, rows);
        count(&mut self.faults, answer)
    }

    fn put_past(&mut self, past: &PastRecord, rows: &[SpentRow]) -> Result<(), KeepFault>
        requires fits { IsPastPut past.now rows.now }
        requires first { IfTold None HasNoDays }
        ensures state { Puts AllOrNothing None None result (with_past past.now rows.now) }
        ensures sound { SoundIfTold None }
        ensures planned { PutsAsPlanned AllOrNothing None None result }
        ensures cause { CountsFaults self.old.faults self.new.faults result }
        ensures shared { PutsShared K.told K.faults (λ o after.
            Tries K.refuses (HasNoDays o) (with_past past.now rows.now) o after result) }
    {
        let mut kept = self.keeper.lock(self.rt);
        let answer = put_first_past(&mut *kept, past, rows);
        count(&mut self.faults, answer)
    }

    fn put_tariff(&mut self, xway: u8, tariff: &Tariff) -> Result<(), KeepFault>
        requires valid { IsTariff tariff.now }
        ensures state { Puts AllOrNothing None None result (with_tariff_of xway tariff.now) }
        ensures sound { SoundIfTold None }
        ensures planned { PutsAsPlanned AllOrNothing None None result }
        ensures cause { CountsFaults self.old.faults self.new.faults result }
        ensures shared { PutsShared K.told K.faults (λ o after.
            Puts K.refuses (Some o) after result (with_tariff_of xway tariff.now)) }
    {
        let mut kept = self.keeper.lock(self.rt);
        let answer = put_one_tariff(&mut *kept, xway, tariff);
        count(&mut self.faults, answer)
    }
}
