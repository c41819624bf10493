// The calls of a keeper in a SQLite file.
ghost use Rattle.std.specs.Prelude.{◌≡◌, ◌≢◌, ◌≤◌, [], None, IfOk, IfSome, IsSome, string_bytes};
ghost use Rattle.road_time.specs.History.{paid};
ghost use Rattle.road_time.specs.Rates.{IsTariff};
ghost use Rattle.keep_office.specs.Office.{RowsRise, last_day as last_day_of, record_of, rows_between};
ghost use Rattle.keep_office.specs.Office.{vehicle_rows_between};
ghost use Rattle.keep_office.specs.Kept.{IsDayPut, IsPastPut, IsLater, HasNoDays, with_day, with_past, with_tariff_of};
ghost use Rattle.keep_office.specs.Calls.{CountsFaults, IfTold};
ghost use Rattle.keep_tables.specs.Steps.{FitsAny};
ghost use Rattle.keep_writes.specs.Writes.{day_texts, past_texts, tariff_texts};
ghost use Rattle.keep_puts.specs.Room.{RoomForDay, RoomForPast, RoomForTariff};
ghost use Rattle.keep_trees.specs.Finds.{IsHeldAmount};
ghost use Rattle.keep_trees.specs.Tells.{AreTold, IsToldDay, IsToldLast, IsToldPast};
ghost use Rattle.keep_trees.specs.Tolls.{AreToldOf, AreToldRows};
ghost use Rattle.keep_puts.specs.Steps.{IsFreshDay, IsFreshPast};
ghost use Rattle.keep_puts.specs.Puts.{PutsDay, PutsPast, PutsTariff};
ghost use Rattle.keep_database.specs.Shows.{ShowsDay, ShowsLast, ShowsPast, ShowsRows, ShowsSpent, ShowsTariffs};
ghost use Rattle.keep_database.specs.Shows.{ShowsVehicleRows};
ghost use Rattle.keep_files.specs.Asked.{AskedToRead, AskedToPut};
ghost use Rattle.keep_files.specs.Closes.{IsTellingWhy};
ghost use Rattle.keep_files.specs.Origins.{TriesPath};
ghost use Rattle.keep_files.specs.Says.{Says};
ghost use Rattle.keep_files.specs.Storing.{FindsAny, PutsInto};

use crate::at_path::{KeptPages, KeptStore};
use crate::kept_file::SqliteKeeper;
use crate::opens::Opens;
use crate::puts::{PutDay, PutPast, PutTariff};
use crate::reads::{AskedDay, AskedSpent, KeptTariffs, LastDay, Past, Rows, VehicleRows};
use keep_office::{DayRecord, KeepFault, Keeper, PastRecord};
use road_time::{SpentRow, Tariff, Tariffs};
use sqlite_pages::Pages;
use sqlite_trees::store::Store;

impl Keeper for SqliteKeeper {
    ghost use Rattle.std.specs.Prelude.{true};
    ghost use Rattle.keep_office.specs.Calls.{AllOrNothing};

    ghost told = { λ k. None };

    ghost faults = { λ k. k.in_file.in_file.faults };

    ghost plan = { λ k. None };

    ghost refuses = { AllOrNothing };

    ghost needs_memory = { true };

    fn last_day(&mut self) -> Result<u32, KeepFault>
        ensures tried { TriesPath ⟦<KeptStore as Store>⟧ ⟦<KeptStore as Opens<KeptPages>>⟧.gives
            ⟦<KeptStore as Opens<KeptPages>>⟧.refuses
            (string_bytes self.old.in_file.in_file.database.path) self.old.in_file.in_file.database.kept }
        ensures cause { CountsFaults self.old.in_file.in_file.faults self.new.in_file.in_file.faults result }
        ensures said { Says result self.old.in_file.in_file.database self.new.in_file.in_file.database }
        ensures does { AskedToRead ⟦<KeptPages as Pages>⟧ ⟦<KeptStore as Store>⟧
            ⟦<KeptStore as Opens<KeptPages>>⟧.gives ⟦<KeptStore as Opens<KeptPages>>⟧.refuses ⟦<KeptStore as Opens<KeptPages>>⟧.there ⟦<KeptStore as Opens<KeptPages>>⟧.gone
            (λ o. IsSome o.past) (λ o last. last ≡ last_day_of o)
            (λ old r. IfOk r (ShowsLast ⟦<KeptStore as Store>⟧ old)) (λ t r. IfOk r (IsToldLast (t 0) (t 3)))
            self.old.in_file.in_file.database.places self.old.in_file.in_file.database.kept (string_bytes self.old.in_file.in_file.database.path)
            self.new.in_file.in_file.database.kept self.new.in_file.in_file.database.cause result }
    {
        self.read(LastDay)
    }

    fn day(&mut self, day: u32) -> Result<Option<DayRecord>, KeepFault>
        ensures tried { TriesPath ⟦<KeptStore as Store>⟧ ⟦<KeptStore as Opens<KeptPages>>⟧.gives
            ⟦<KeptStore as Opens<KeptPages>>⟧.refuses
            (string_bytes self.old.in_file.in_file.database.path) self.old.in_file.in_file.database.kept }
        ensures cause { CountsFaults self.old.in_file.in_file.faults self.new.in_file.in_file.faults result }
        ensures said { Says result self.old.in_file.in_file.database self.new.in_file.in_file.database }
        ensures does { AskedToRead ⟦<KeptPages as Pages>⟧ ⟦<KeptStore as Store>⟧
            ⟦<KeptStore as Opens<KeptPages>>⟧.gives ⟦<KeptStore as Opens<KeptPages>>⟧.refuses ⟦<KeptStore as Opens<KeptPages>>⟧.there ⟦<KeptStore as Opens<KeptPages>>⟧.gone
            (λ o. IsSome (record_of o day)) (λ o kept. kept ≡ record_of o day)
            (λ old r. IfOk r (ShowsDay ⟦<KeptStore as Store>⟧ day old)) (λ t r. IfOk r (IsToldDay (t 0) (t 4) day))
            self.old.in_file.in_file.database.places self.old.in_file.in_file.database.kept (string_bytes self.old.in_file.in_file.database.path)
            self.new.in_file.in_file.database.kept self.new.in_file.in_file.database.cause result }
    {
        self.read(AskedDay { day })
    }

    fn past(&mut self) -> Result<Option<PastRecord>, KeepFault>
        ensures based { IfOk result (λ past. IfSome past (λ p. 70 ≤ p.base)) }
        ensures tried { TriesPath ⟦<KeptStore as Store>⟧ ⟦<KeptStore as Opens<KeptPages>>⟧.gives
            ⟦<KeptStore as Opens<KeptPages>>⟧.refuses
            (string_bytes self.old.in_file.in_file.database.path) self.old.in_file.in_file.database.kept }
        ensures cause { CountsFaults self.old.in_file.in_file.faults self.new.in_file.in_file.faults result }
        ensures said { Says result self.old.in_file.in_file.database self.new.in_file.in_file.database }
        ensures does { AskedToRead ⟦<KeptPages as Pages>⟧ ⟦<KeptStore as Store>⟧
            ⟦<KeptStore as Opens<KeptPages>>⟧.gives ⟦<KeptStore as Opens<KeptPages>>⟧.refuses ⟦<KeptStore as Opens<KeptPages>>⟧.there ⟦<KeptStore as Opens<KeptPages>>⟧.gone
            (λ o. IsSome o.past) (λ o past. past ≡ o.past)
            (λ old r. IfOk r (ShowsPast ⟦<KeptStore as Store>⟧ old)) (λ t r. IfOk r (IsToldPast (t 3)))
            self.old.in_file.in_file.database.places self.old.in_file.in_file.database.kept (string_bytes self.old.in_file.in_file.database.path)
            self.new.in_file.in_file.database.kept self.new.in_file.in_file.database.cause result }
    {
        self.read(Past)
    }

    fn spent(&mut self, day: u32, vid: u32, xway: u8) -> Result<u64, KeepFault>
        ensures tried { TriesPath ⟦<KeptStore as Store>⟧ ⟦<KeptStore as Opens<KeptPages>>⟧.gives
            ⟦<KeptStore as Opens<KeptPages>>⟧.refuses
            (string_bytes self.old.in_file.in_file.database.path) self.old.in_file.in_file.database.kept }
        ensures cause { CountsFaults self.old.in_file.in_file.faults self.new.in_file.in_file.faults result }
        ensures said { Says result self.old.in_file.in_file.database self.new.in_file.in_file.database }
        ensures does { AskedToRead ⟦<KeptPages as Pages>⟧ ⟦<KeptStore as Store>⟧
            ⟦<KeptStore as Opens<KeptPages>>⟧.gives ⟦<KeptStore as Opens<KeptPages>>⟧.refuses ⟦<KeptStore as Opens<KeptPages>>⟧.there ⟦<KeptStore as Opens<KeptPages>>⟧.gone
            (λ _. ⊥) (λ o tolls. tolls ≡ paid o.rows day vid xway)
            (λ old r. IfOk r (ShowsSpent ⟦<KeptStore as Store>⟧ day vid xway old))
            (λ t r. IfOk r (IsHeldAmount (t 1) (t 2) day vid xway))
            self.old.in_file.in_file.database.places self.old.in_file.in_file.database.kept (string_bytes self.old.in_file.in_file.database.path)
            self.new.in_file.in_file.database.kept self.new.in_file.in_file.database.cause result }
    {
        self.read(AskedSpent { day, vid, xway })
    }

    fn rows(&mut self, from: u32, to: u32) -> Result<Vec<SpentRow>, KeepFault>
        ensures rise { IfOk result (λ rows. RowsRise rows.items) }
        ensures tried { TriesPath ⟦<KeptStore as Store>⟧ ⟦<KeptStore as Opens<KeptPages>>⟧.gives
            ⟦<KeptStore as Opens<KeptPages>>⟧.refuses
            (string_bytes self.old.in_file.in_file.database.path) self.old.in_file.in_file.database.kept }
        ensures cause { CountsFaults self.old.in_file.in_file.faults self.new.in_file.in_file.faults result }
        ensures said { Says result self.old.in_file.in_file.database self.new.in_file.in_file.database }
        ensures does { AskedToRead ⟦<KeptPages as Pages>⟧ ⟦<KeptStore as Store>⟧
            ⟦<KeptStore as Opens<KeptPages>>⟧.gives ⟦<KeptStore as Opens<KeptPages>>⟧.refuses ⟦<KeptStore as Opens<KeptPages>>⟧.there ⟦<KeptStore as Opens<KeptPages>>⟧.gone
            (λ o. rows_between o from to ≢ []) (λ o rows. rows.items ≡ rows_between o from to)
            (λ old r. IfOk r (λ rows. ShowsRows ⟦<KeptStore as Store>⟧ from to old rows.items))
            (λ t r. IfOk r (λ rows. AreToldRows (t 1) (t 2) from to rows.items))
            self.old.in_file.in_file.database.places self.old.in_file.in_file.database.kept (string_bytes self.old.in_file.in_file.database.path)
            self.new.in_file.in_file.database.kept self.new.in_file.in_file.database.cause result }
    {
        self.read(Rows { from, to })
    }

    fn vehicle_rows(&mut self, vid: u32, from: u32, to: u32) -> Result<Vec<SpentRow>, KeepFault>
        ensures rise { IfOk result (λ rows. RowsRise rows.items) }
        ensures tried { TriesPath ⟦<KeptStore as Store>⟧ ⟦<KeptStore as Opens<KeptPages>>⟧.gives
            ⟦<KeptStore as Opens<KeptPages>>⟧.refuses
            (string_bytes self.old.in_file.in_file.database.path) self.old.in_file.in_file.database.kept }
        ensures cause { CountsFaults self.old.in_file.in_file.faults self.new.in_file.in_file.faults result }
        ensures said { Says result self.old.in_file.in_file.database self.new.in_file.in_file.database }
        ensures does { AskedToRead ⟦<KeptPages as Pages>⟧ ⟦<KeptStore as Store>⟧
            ⟦<KeptStore as Opens<KeptPages>>⟧.gives ⟦<KeptStore as Opens<KeptPages>>⟧.refuses ⟦<KeptStore as Opens<KeptPages>>⟧.there ⟦<KeptStore as Opens<KeptPages>>⟧.gone
            (λ o. vehicle_rows_between o vid from to ≢ [])
            (λ o rows. rows.items ≡ vehicle_rows_between o vid from to)
            (λ old r. IfOk r (λ rows. ShowsVehicleRows ⟦<KeptStore as Store>⟧ vid from to old rows.items))
            (λ t r. IfOk r (λ rows. AreToldOf (t 1) (t 2) vid from to rows.items))
            self.old.in_file.in_file.database.places self.old.in_file.in_file.database.kept (string_bytes self.old.in_file.in_file.database.path)
            self.new.in_file.in_file.database.kept self.new.in_file.in_file.database.cause result }
    {
        self.read(VehicleRows { vid, from, to })
    }

    fn tariffs(&mut self) -> Result<Tariffs, KeepFault>
        ensures tried { TriesPath ⟦<KeptStore as Store>⟧ ⟦<KeptStore as Opens<KeptPages>>⟧.gives
            ⟦<KeptStore as Opens<KeptPages>>⟧.refuses
            (string_bytes self.old.in_file.in_file.database.path) self.old.in_file.in_file.database.kept }
        ensures cause { CountsFaults self.old.in_file.in_file.faults self.new.in_file.in_file.faults result }
        ensures said { Says result self.old.in_file.in_file.database self.new.in_file.in_file.database }
        ensures does { AskedToRead ⟦<KeptPages as Pages>⟧ ⟦<KeptStore as Store>⟧
            ⟦<KeptStore as Opens<KeptPages>>⟧.gives ⟦<KeptStore as Opens<KeptPages>>⟧.refuses ⟦<KeptStore as Opens<KeptPages>>⟧.there ⟦<KeptStore as Opens<KeptPages>>⟧.gone
            (λ o. o.tariffs ≢ []) (λ o tariffs. tariffs ≡ o.tariffs)
            (λ old r. IfOk r (ShowsTariffs ⟦<KeptStore as Store>⟧ old)) (λ t r. IfOk r (AreTold (t 5)))
            self.old.in_file.in_file.database.places self.old.in_file.in_file.database.kept (string_bytes self.old.in_file.in_file.database.path)
            self.new.in_file.in_file.database.kept self.new.in_file.in_file.database.cause result }
    {
        self.read(KeptTariffs)
    }

    fn put_day(&mut self, kept: &DayRecord, rows: &[SpentRow]) -> Result<(), KeepFault>
        requires fits { IsDayPut kept.now rows.now }
        requires later { IfTold None (λ o. IsLater kept.now.day o) }
        ensures tried { TriesPath ⟦<KeptStore as Store>⟧ ⟦<KeptStore as Opens<KeptPages>>⟧.gives
            ⟦<KeptStore as Opens<KeptPages>>⟧.refuses
            (string_bytes self.old.in_file.in_file.database.path) self.old.in_file.in_file.database.kept }
        ensures cause { CountsFaults self.old.in_file.in_file.faults self.new.in_file.in_file.faults result }
        ensures said { Says result self.old.in_file.in_file.database self.new.in_file.in_file.database }
        ensures does { AskedToPut ⟦<KeptPages as Pages>⟧ ⟦<KeptStore as Store>⟧
            ⟦<KeptStore as Opens<KeptPages>>⟧.gives ⟦<KeptStore as Opens<KeptPages>>⟧.refuses ⟦<KeptStore as Opens<KeptPages>>⟧.there ⟦<KeptStore as Opens<KeptPages>>⟧.gone
            (PutsInto ⟦<KeptStore as Store>⟧ (RoomForDay kept.now rows.now)
            (IsLater kept.now.day) (with_day kept.now rows.now)
            (IsFreshDay kept.now rows.now) (PutsDay kept.now rows.now))
            (day_texts kept.now rows.now) (IsLater kept.now.day) (with_day kept.now rows.now)
            self.old.in_file.in_file.database.places self.new.in_file.in_file.database.places
            self.old.in_file.in_file.database.kept (string_bytes self.old.in_file.in_file.database.path)
            self.new.in_file.in_file.database.kept self.new.in_file.in_file.database.cause result }
        ensures folded { IsTellingWhy result self.new.in_file.in_file.database.kept
            self.new.in_file.in_file.database.unfolded }
    {
        self.put(PutDay { kept, rows })
    }

    fn put_past(&mut self, kept: &PastRecord, rows: &[SpentRow]) -> Result<(), KeepFault>
        requires fits { IsPastPut kept.now rows.now }
        requires first { IfTold None HasNoDays }
        ensures tried { TriesPath ⟦<KeptStore as Store>⟧ ⟦<KeptStore as Opens<KeptPages>>⟧.gives
            ⟦<KeptStore as Opens<KeptPages>>⟧.refuses
            (string_bytes self.old.in_file.in_file.database.path) self.old.in_file.in_file.database.kept }
        ensures cause { CountsFaults self.old.in_file.in_file.faults self.new.in_file.in_file.faults result }
        ensures said { Says result self.old.in_file.in_file.database self.new.in_file.in_file.database }
        ensures does { AskedToPut ⟦<KeptPages as Pages>⟧ ⟦<KeptStore as Store>⟧
            ⟦<KeptStore as Opens<KeptPages>>⟧.gives ⟦<KeptStore as Opens<KeptPages>>⟧.refuses ⟦<KeptStore as Opens<KeptPages>>⟧.there ⟦<KeptStore as Opens<KeptPages>>⟧.gone
            (PutsInto ⟦<KeptStore as Store>⟧ (RoomForPast rows.now)
            HasNoDays (with_past kept.now rows.now)
            (IsFreshPast rows.now) (PutsPast kept.now rows.now))
            (past_texts kept.now rows.now) HasNoDays (with_past kept.now rows.now)
            self.old.in_file.in_file.database.places self.new.in_file.in_file.database.places
            self.old.in_file.in_file.database.kept (string_bytes self.old.in_file.in_file.database.path)
            self.new.in_file.in_file.database.kept self.new.in_file.in_file.database.cause result }
        ensures folded { IsTellingWhy result self.new.in_file.in_file.database.kept
            self.new.in_file.in_file.database.unfolded }
    {
        self.put(PutPast { kept, rows })
    }

    fn put_tariff(&mut self, xway: u8, tariff: &Tariff) -> Result<(), KeepFault>
        requires valid { IsTariff tariff.now }
        ensures tried { TriesPath ⟦<KeptStore as Store>⟧ ⟦<KeptStore as Opens<KeptPages>>⟧.gives
            ⟦<KeptStore as Opens<KeptPages>>⟧.refuses
            (string_bytes self.old.in_file.in_file.database.path) self.old.in_file.in_file.database.kept }
        ensures cause { CountsFaults self.old.in_file.in_file.faults self.new.in_file.in_file.faults result }
        ensures said { Says result self.old.in_file.in_file.database self.new.in_file.in_file.database }
        ensures does { AskedToPut ⟦<KeptPages as Pages>⟧ ⟦<KeptStore as Store>⟧
            ⟦<KeptStore as Opens<KeptPages>>⟧.gives ⟦<KeptStore as Opens<KeptPages>>⟧.refuses ⟦<KeptStore as Opens<KeptPages>>⟧.there ⟦<KeptStore as Opens<KeptPages>>⟧.gone
            (PutsInto ⟦<KeptStore as Store>⟧ RoomForTariff
            FitsAny (with_tariff_of xway tariff.now)
            FindsAny (PutsTariff xway tariff.now))
            (tariff_texts xway tariff.now) FitsAny (with_tariff_of xway tariff.now)
            self.old.in_file.in_file.database.places self.new.in_file.in_file.database.places
            self.old.in_file.in_file.database.kept (string_bytes self.old.in_file.in_file.database.path)
            self.new.in_file.in_file.database.kept self.new.in_file.in_file.database.cause result }
        ensures folded { IsTellingWhy result self.new.in_file.in_file.database.kept
            self.new.in_file.in_file.database.unfolded }
    {
        self.put(PutTariff { xway, tariff })
    }
}
