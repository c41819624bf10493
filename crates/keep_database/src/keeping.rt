// The calls of a keeper on any store.
ghost use Rattle.std.specs.Prelude.{◌≡◌, ◌≢◌, ◌≤◌, ◌⊎◌, [], Err, IsTrue, IfOk, IfErr, IfSome, IsSome, OnOk, OnErr};
ghost use Rattle.sqlite.specs.Held.{state};
ghost use Rattle.sqlite.specs.State.{HasCleanDisk, KeepsCommit, Survives};
ghost use Rattle.road_time.specs.Rates.{IsTariff};
ghost use Rattle.keep_office.specs.Office.{Office, RowsRise, last_day as last_day_of, record_of, rows_between};
ghost use Rattle.keep_office.specs.Office.{vehicle_rows_between};
ghost use Rattle.road_time.specs.History.{paid};
ghost use Rattle.keep_office.specs.Kept.{IsDayPut, IsPastPut, IsLater, HasNoDays, with_day, with_past, with_tariff_of};
ghost use Rattle.keep_office.specs.Calls.{SoundIfTold, IfTold, Reads, Puts, AllOrNothing, CountsFaults};
ghost use Rattle.keep_office.specs.declared.kept.KeepFault.TheVariants.{Failed, NoMemory};
ghost use Rattle.keep_tables.specs.Stands.{HasOffice, StandsForOffice, StandsForNone};
ghost use Rattle.keep_tables.specs.Steps.{FitsAny};
ghost use Rattle.keep_tables.specs.Told.{told_in};
ghost use Rattle.keep_writes.specs.Causes.{WasRefused, WasRefusedIn, HasCauseOf, LackedMemory};
ghost use Rattle.keep_writes.specs.Runs.{CommitsRun, LeavesRun};
ghost use Rattle.keep_writes.specs.Writes.{day_texts, past_texts, tariff_texts};
ghost use Rattle.keep_writes.specs.Counts.{faults_after};
ghost use Rattle.keep_database.specs.Gives.{GivesUnless, WantsMemory};
ghost use Rattle.keep_database.specs.Looks.{CommitsFrom, HasSecond, IsSealed, TellsRefusal};
ghost use Rattle.keep_database.specs.Shows.{ShowsDay, ShowsLast, ShowsPast, ShowsRows, ShowsSpent, ShowsTariffs};
ghost use Rattle.keep_database.specs.Shows.{ShowsVehicleRows};

use crate::calls;
use crate::proved::ProvedKeeper;
use crate::steady::Steady;
use keep_office::{DayRecord, KeepFault, Keeper, PastRecord};
use keep_writes::refusals::count;
use road_time::{SpentRow, Tariff, Tariffs};

impl<S: Steady> Keeper for ProvedKeeper<S> {
    ghost use Rattle.std.specs.Prelude.{None, true};
    ghost use Rattle.sqlite.specs.Held.{state};
    ghost use Rattle.keep_office.specs.Calls.{AllOrNothing};
    ghost use Rattle.keep_tables.specs.Told.{told_in};

    ghost told = { λ k. told_in S.Steady.is_steady (state S.Store k.conn).committed };

    ghost faults = { λ k. k.faults };

    ghost plan = { λ k. None };

    ghost refuses = { AllOrNothing };

    ghost needs_memory = { true };

    /// The greatest kept day, else the day before the history's base, else 0.
    fn last_day(&mut self) -> Result<u32, KeepFault>
        ensures state { Reads (told_in S.Steady.is_steady (state S.Store self.old.conn).committed)
            (told_in S.Steady.is_steady (state S.Store self.new.conn).committed) result
            (λ o last. last ≡ last_day_of o) }
        ensures sound { SoundIfTold (told_in S.Steady.is_steady (state S.Store self.new.conn).committed) }
        ensures cause { CountsFaults self.old.faults self.new.faults result }
        ensures counted { self.new.faults ≡ faults_after self.old.faults result }
        ensures kept { HasCleanDisk (state S.Store self.new.conn)
            → KeepsCommit (state S.Store self.old.conn) (state S.Store self.new.conn) }
        ensures gives { HasCleanDisk (state S.Store self.new.conn) → (o : Office)
            → StandsForOffice (state S.Store self.old.conn).committed o
            → GivesUnless (WasRefused S.Store) (λ x. x) result (last_day_of o) }
        ensures memory { HasCleanDisk (state S.Store self.new.conn) → (o : Office)
            → StandsForOffice (state S.Store self.old.conn).committed o → result ≡ Err NoMemory
            → WantsMemory S.Store self.old.conn self.new.conn (IsSome o.past) }
        ensures version { HasCleanDisk (state S.Store self.new.conn)
            → OnOk result (HasSecond S.Store self.old.conn) }
        ensures shows { HasCleanDisk (state S.Store self.new.conn)
            → IfOk result (λ last. ShowsLast S.Store self.old.conn last) }
        ensures open { HasCleanDisk (state S.Store self.new.conn)
            → OnOk result (IsTrue (state S.Store self.new.conn).is_open) }
        ensures why { HasCleanDisk (state S.Store self.new.conn) → (o : Office)
            → StandsForOffice (state S.Store self.old.conn).committed o → result ≡ Err Failed
            → WasRefusedIn S.Store self.old.conn self.new.conn }
        ensures quiet { self.new.refused ≡ self.old.refused }
        ensures made { self.new.unmade ≡ self.old.unmade }
        ensures crash { Survives (state S.Store self.old.conn) (state S.Store self.new.conn) (λ _. ⊥) }
    {
        let answer = calls::last_day(&mut self.conn);
        count(&mut self.faults, answer)
    }

    /// The record of a day, none if it is not kept.
    fn day(&mut self, day: u32) -> Result<Option<DayRecord>, KeepFault>
        ensures state { Reads (told_in S.Steady.is_steady (state S.Store self.old.conn).committed)
            (told_in S.Steady.is_steady (state S.Store self.new.conn).committed) result
            (λ o kept. kept ≡ record_of o day) }
        ensures sound { SoundIfTold (told_in S.Steady.is_steady (state S.Store self.new.conn).committed) }
        ensures cause { CountsFaults self.old.faults self.new.faults result }
        ensures counted { self.new.faults ≡ faults_after self.old.faults result }
        ensures kept { HasCleanDisk (state S.Store self.new.conn)
            → KeepsCommit (state S.Store self.old.conn) (state S.Store self.new.conn) }
        ensures gives { HasCleanDisk (state S.Store self.new.conn) → (o : Office)
            → StandsForOffice (state S.Store self.old.conn).committed o
            → GivesUnless (WasRefused S.Store) (λ x. x) result (record_of o day) }
        ensures memory { HasCleanDisk (state S.Store self.new.conn) → (o : Office)
            → StandsForOffice (state S.Store self.old.conn).committed o → result ≡ Err NoMemory
            → WantsMemory S.Store self.old.conn self.new.conn (IsSome (record_of o day)) }
        ensures sealed { HasCleanDisk (state S.Store self.new.conn)
            → IfOk result (λ kept. IfSome kept (λ r. IsSealed S.Store day self.old.conn)) }
        ensures version { HasCleanDisk (state S.Store self.new.conn)
            → OnOk result (HasSecond S.Store self.old.conn) }
        ensures shows { HasCleanDisk (state S.Store self.new.conn)
            → IfOk result (λ kept. ShowsDay S.Store day self.old.conn kept) }
        ensures open { HasCleanDisk (state S.Store self.new.conn)
            → OnOk result (IsTrue (state S.Store self.new.conn).is_open) }
        ensures why { HasCleanDisk (state S.Store self.new.conn) → (o : Office)
            → StandsForOffice (state S.Store self.old.conn).committed o → result ≡ Err Failed
            → WasRefusedIn S.Store self.old.conn self.new.conn }
        ensures quiet { self.new.refused ≡ self.old.refused }
        ensures made { self.new.unmade ≡ self.old.unmade }
        ensures crash { Survives (state S.Store self.old.conn) (state S.Store self.new.conn) (λ _. ⊥) }
    {
        let answer = calls::day(&mut self.conn, day);
        count(&mut self.faults, answer)
    }

    /// The record of the history, none if none is kept.
    fn past(&mut self) -> Result<Option<PastRecord>, KeepFault>
        ensures state { Reads (told_in S.Steady.is_steady (state S.Store self.old.conn).committed)
            (told_in S.Steady.is_steady (state S.Store self.new.conn).committed) result (λ o past. past ≡ o.past) }
        ensures sound { SoundIfTold (told_in S.Steady.is_steady (state S.Store self.new.conn).committed) }
        ensures cause { CountsFaults self.old.faults self.new.faults result }
        ensures counted { self.new.faults ≡ faults_after self.old.faults result }
        ensures kept { HasCleanDisk (state S.Store self.new.conn)
            → KeepsCommit (state S.Store self.old.conn) (state S.Store self.new.conn) }
        ensures gives { HasCleanDisk (state S.Store self.new.conn) → (o : Office)
            → StandsForOffice (state S.Store self.old.conn).committed o
            → GivesUnless (WasRefused S.Store) (λ x. x) result o.past }
        ensures memory { HasCleanDisk (state S.Store self.new.conn) → (o : Office)
            → StandsForOffice (state S.Store self.old.conn).committed o → result ≡ Err NoMemory
            → WantsMemory S.Store self.old.conn self.new.conn (IsSome o.past) }
        ensures based { IfOk result (λ p. IfSome p (λ q. 70 ≤ q.base)) }
        ensures version { HasCleanDisk (state S.Store self.new.conn)
            → OnOk result (HasSecond S.Store self.old.conn) }
        ensures shows { HasCleanDisk (state S.Store self.new.conn)
            → IfOk result (λ past. ShowsPast S.Store self.old.conn past) }
        ensures open { HasCleanDisk (state S.Store self.new.conn)
            → OnOk result (IsTrue (state S.Store self.new.conn).is_open) }
        ensures why { HasCleanDisk (state S.Store self.new.conn) → (o : Office)
            → StandsForOffice (state S.Store self.old.conn).committed o → result ≡ Err Failed
            → WasRefusedIn S.Store self.old.conn self.new.conn }
        ensures quiet { self.new.refused ≡ self.old.refused }
        ensures made { self.new.unmade ≡ self.old.unmade }
        ensures crash { Survives (state S.Store self.old.conn) (state S.Store self.new.conn) (λ _. ⊥) }
    {
        let answer = calls::past(&mut self.conn);
        count(&mut self.faults, answer)
    }

    /// The amount of a vehicle on an expressway on a day, 0 for none.
    fn spent(&mut self, day: u32, vid: u32, xway: u8) -> Result<u64, KeepFault>
        ensures state { Reads (told_in S.Steady.is_steady (state S.Store self.old.conn).committed)
            (told_in S.Steady.is_steady (state S.Store self.new.conn).committed) result
            (λ o tolls. tolls ≡ paid o.rows day vid xway) }
        ensures sound { SoundIfTold (told_in S.Steady.is_steady (state S.Store self.new.conn).committed) }
        ensures cause { CountsFaults self.old.faults self.new.faults result }
        ensures counted { self.new.faults ≡ faults_after self.old.faults result }
        ensures kept { HasCleanDisk (state S.Store self.new.conn)
            → KeepsCommit (state S.Store self.old.conn) (state S.Store self.new.conn) }
        ensures gives { HasCleanDisk (state S.Store self.new.conn) → (o : Office)
            → StandsForOffice (state S.Store self.old.conn).committed o
            → GivesUnless (WasRefused S.Store) (λ x. x) result (paid o.rows day vid xway) }
        ensures version { HasCleanDisk (state S.Store self.new.conn)
            → OnOk result (HasSecond S.Store self.old.conn) }
        ensures shows { HasCleanDisk (state S.Store self.new.conn)
            → IfOk result (λ tolls. ShowsSpent S.Store day vid xway self.old.conn tolls) }
        ensures open { HasCleanDisk (state S.Store self.new.conn)
            → OnOk result (IsTrue (state S.Store self.new.conn).is_open) }
        ensures why { HasCleanDisk (state S.Store self.new.conn) → (o : Office)
            → StandsForOffice (state S.Store self.old.conn).committed o → result ≡ Err Failed
            → WasRefusedIn S.Store self.old.conn self.new.conn }
        ensures memory { HasCleanDisk (state S.Store self.new.conn) → (o : Office)
            → StandsForOffice (state S.Store self.old.conn).committed o → result ≡ Err NoMemory
            → LackedMemory S.Store self.old.conn self.new.conn }
        ensures quiet { self.new.refused ≡ self.old.refused }
        ensures made { self.new.unmade ≡ self.old.unmade }
        ensures crash { Survives (state S.Store self.old.conn) (state S.Store self.new.conn) (λ _. ⊥) }
    {
        let answer = calls::spent(&mut self.conn, day, vid, xway);
        count(&mut self.faults, answer)
    }

    /// The amounts of the days `from` to `to`, both included, in the order of day, vehicle and expressway.
    fn rows(&mut self, from: u32, to: u32) -> Result<Vec<SpentRow>, KeepFault>
        ensures state { Reads (told_in S.Steady.is_steady (state S.Store self.old.conn).committed)
            (told_in S.Steady.is_steady (state S.Store self.new.conn).committed) result
            (λ o rows. rows.items ≡ rows_between o from to) }
        ensures rise { IfOk result (λ rows. RowsRise rows.items) }
        ensures sound { SoundIfTold (told_in S.Steady.is_steady (state S.Store self.new.conn).committed) }
        ensures cause { CountsFaults self.old.faults self.new.faults result }
        ensures counted { self.new.faults ≡ faults_after self.old.faults result }
        ensures kept { HasCleanDisk (state S.Store self.new.conn)
            → KeepsCommit (state S.Store self.old.conn) (state S.Store self.new.conn) }
        ensures gives { HasCleanDisk (state S.Store self.new.conn) → (o : Office)
            → StandsForOffice (state S.Store self.old.conn).committed o
            → GivesUnless (WasRefused S.Store) (λ v. v.items) result (rows_between o from to) }
        ensures memory { HasCleanDisk (state S.Store self.new.conn) → (o : Office)
            → StandsForOffice (state S.Store self.old.conn).committed o → result ≡ Err NoMemory
            → WantsMemory S.Store self.old.conn self.new.conn (rows_between o from to ≢ []) }
        ensures version { HasCleanDisk (state S.Store self.new.conn)
            → OnOk result (HasSecond S.Store self.old.conn) }
        ensures shows { HasCleanDisk (state S.Store self.new.conn)
            → IfOk result (λ v. ShowsRows S.Store from to self.old.conn v.items) }
        ensures open { HasCleanDisk (state S.Store self.new.conn)
            → OnOk result (IsTrue (state S.Store self.new.conn).is_open) }
        ensures why { HasCleanDisk (state S.Store self.new.conn) → (o : Office)
            → StandsForOffice (state S.Store self.old.conn).committed o → result ≡ Err Failed
            → WasRefusedIn S.Store self.old.conn self.new.conn }
        ensures quiet { self.new.refused ≡ self.old.refused }
        ensures made { self.new.unmade ≡ self.old.unmade }
        ensures crash { Survives (state S.Store self.old.conn) (state S.Store self.new.conn) (λ _. ⊥) }
    {
        let answer = calls::rows(&mut self.conn, self.alloc, from, to);
        count(&mut self.faults, answer)
    }

    /// The amounts of a vehicle on the days `from` to `to`, both included, in the order of day and expressway.
    fn vehicle_rows(&mut self, vid: u32, from: u32, to: u32) -> Result<Vec<SpentRow>, KeepFault>
        ensures state { Reads (told_in S.Steady.is_steady (state S.Store self.old.conn).committed)
            (told_in S.Steady.is_steady (state S.Store self.new.conn).committed) result
            (λ o rows. rows.items ≡ vehicle_rows_between o vid from to) }
        ensures rise { IfOk result (λ rows. RowsRise rows.items) }
        ensures sound { SoundIfTold (told_in S.Steady.is_steady (state S.Store self.new.conn).committed) }
        ensures cause { CountsFaults self.old.faults self.new.faults result }
        ensures counted { self.new.faults ≡ faults_after self.old.faults result }
        ensures kept { HasCleanDisk (state S.Store self.new.conn)
            → KeepsCommit (state S.Store self.old.conn) (state S.Store self.new.conn) }
        ensures gives { HasCleanDisk (state S.Store self.new.conn) → (o : Office)
            → StandsForOffice (state S.Store self.old.conn).committed o
            → GivesUnless (WasRefused S.Store) (λ v. v.items) result (vehicle_rows_between o vid from to) }
        ensures memory { HasCleanDisk (state S.Store self.new.conn) → (o : Office)
            → StandsForOffice (state S.Store self.old.conn).committed o → result ≡ Err NoMemory
            → WantsMemory S.Store self.old.conn self.new.conn (vehicle_rows_between o vid from to ≢ []) }
        ensures version { HasCleanDisk (state S.Store self.new.conn)
            → OnOk result (HasSecond S.Store self.old.conn) }
        ensures shows { HasCleanDisk (state S.Store self.new.conn)
            → IfOk result (λ v. ShowsVehicleRows S.Store vid from to self.old.conn v.items) }
        ensures open { HasCleanDisk (state S.Store self.new.conn)
            → OnOk result (IsTrue (state S.Store self.new.conn).is_open) }
        ensures why { HasCleanDisk (state S.Store self.new.conn) → (o : Office)
            → StandsForOffice (state S.Store self.old.conn).committed o → result ≡ Err Failed
            → WasRefusedIn S.Store self.old.conn self.new.conn }
        ensures quiet { self.new.refused ≡ self.old.refused }
        ensures made { self.new.unmade ≡ self.old.unmade }
        ensures crash { Survives (state S.Store self.old.conn) (state S.Store self.new.conn) (λ _. ⊥) }
    {
        let answer = calls::vehicle_rows(&mut self.conn, self.alloc, vid, from, to);
        count(&mut self.faults, answer)
    }

    /// The tariffs of the expressways that do not have the benchmark's.
    fn tariffs(&mut self) -> Result<Tariffs, KeepFault>
        ensures state { Reads (told_in S.Steady.is_steady (state S.Store self.old.conn).committed)
            (told_in S.Steady.is_steady (state S.Store self.new.conn).committed) result
            (λ o tariffs. tariffs ≡ o.tariffs) }
        ensures sound { SoundIfTold (told_in S.Steady.is_steady (state S.Store self.new.conn).committed) }
        ensures cause { CountsFaults self.old.faults self.new.faults result }
        ensures counted { self.new.faults ≡ faults_after self.old.faults result }
        ensures kept { HasCleanDisk (state S.Store self.new.conn)
            → KeepsCommit (state S.Store self.old.conn) (state S.Store self.new.conn) }
        ensures gives { HasCleanDisk (state S.Store self.new.conn) → (o : Office)
            → StandsForOffice (state S.Store self.old.conn).committed o
            → GivesUnless (WasRefused S.Store) (λ x. x) result o.tariffs }
        ensures memory { HasCleanDisk (state S.Store self.new.conn) → (o : Office)
            → StandsForOffice (state S.Store self.old.conn).committed o → result ≡ Err NoMemory
            → WantsMemory S.Store self.old.conn self.new.conn (o.tariffs ≢ []) }
        ensures version { HasCleanDisk (state S.Store self.new.conn)
            → OnOk result (HasSecond S.Store self.old.conn) }
        ensures shows { HasCleanDisk (state S.Store self.new.conn)
            → IfOk result (λ tariffs. ShowsTariffs S.Store self.old.conn tariffs) }
        ensures open { HasCleanDisk (state S.Store self.new.conn)
            → OnOk result (IsTrue (state S.Store self.new.conn).is_open) }
        ensures why { HasCleanDisk (state S.Store self.new.conn) → (o : Office)
            → StandsForOffice (state S.Store self.old.conn).committed o → result ≡ Err Failed
            → WasRefusedIn S.Store self.old.conn self.new.conn }
        ensures quiet { self.new.refused ≡ self.old.refused }
        ensures made { self.new.unmade ≡ self.old.unmade }
        ensures crash { Survives (state S.Store self.old.conn) (state S.Store self.new.conn) (λ _. ⊥) }
    {
        let answer = calls::tariffs(&mut self.conn, self.alloc);
        count(&mut self.faults, answer)
    }

    /// Keeps a day after all kept ones, with its amounts.
    fn put_day(&mut self, kept: &DayRecord, rows: &[SpentRow]) -> Result<(), KeepFault>
        requires fits { IsDayPut kept.now rows.now }
        requires later { IfTold (told_in S.Steady.is_steady (state S.Store self.old.conn).committed)
            (λ o. IsLater kept.now.day o) }
        ensures state { Puts AllOrNothing (told_in S.Steady.is_steady (state S.Store self.old.conn).committed)
            (told_in S.Steady.is_steady (state S.Store self.new.conn).committed) result (with_day kept.now rows.now) }
        ensures sound { SoundIfTold (told_in S.Steady.is_steady (state S.Store self.new.conn).committed) }
        ensures cause { CountsFaults self.old.faults self.new.faults result }
        ensures counted { self.new.faults ≡ faults_after self.old.faults result }
        ensures put { HasCleanDisk (state S.Store self.new.conn) → IsTrue (state S.Store self.new.conn).is_open
            → (o : Office) → StandsForOffice (state S.Store self.old.conn).committed o → IsLater kept.now.day o
            → OnOk result (HasOffice (state S.Store self.new.conn).committed (with_day kept.now rows.now o))
            × OnErr result (StandsForOffice (state S.Store self.new.conn).committed o) }
        ensures version { HasCleanDisk (state S.Store self.new.conn)
            → OnOk result (HasSecond S.Store self.old.conn) }
        ensures open { HasCleanDisk (state S.Store self.new.conn)
            → OnOk result (IsTrue (state S.Store self.new.conn).is_open) }
        ensures done { HasCleanDisk (state S.Store self.new.conn) → (o : Office)
            → StandsForOffice (state S.Store self.old.conn).committed o → IsLater kept.now.day o
            → OnOk result (HasOffice (state S.Store self.new.conn).committed (with_day kept.now rows.now o)) }
        ensures why { HasCleanDisk (state S.Store self.new.conn) → (o : Office)
            → StandsForOffice (state S.Store self.old.conn).committed o
            → IfErr result (HasCauseOf S.Store (day_texts kept.now rows.now) self.old.conn self.new.conn) }
        ensures because { HasCleanDisk (state S.Store self.new.conn) → (o : Office)
            → StandsForOffice (state S.Store self.old.conn).committed o → result ≡ Err Failed → WasRefused S.Store }
        ensures wrote { HasCleanDisk (state S.Store self.new.conn)
            → OnOk result (CommitsRun S.Store (day_texts kept.now rows.now) self.old.conn self.new.conn) }
        ensures told { HasCleanDisk (state S.Store self.new.conn)
            → IfErr result (λ fault. TellsRefusal S.Store (day_texts kept.now rows.now) self.old.conn
            self.new.conn fault self.old.refused self.new.refused) }
        ensures refused { HasCleanDisk (state S.Store self.new.conn)
            → OnErr result (KeepsCommit (state S.Store self.old.conn) (state S.Store self.new.conn)) }
        ensures spares { Survives (state S.Store self.old.conn) (state S.Store self.new.conn) (λ _. HasSecond S.Store
            self.old.conn) }
        ensures quiet { OnOk result (self.new.refused ≡ self.old.refused) }
        ensures made { self.new.unmade ≡ self.old.unmade }
        ensures leaves { Survives (state S.Store self.old.conn) (state S.Store self.new.conn) (LeavesRun S.Store
            (day_texts kept.now rows.now) self.old.conn) }
        ensures crash { Survives (state S.Store self.old.conn) (state S.Store self.new.conn) (CommitsFrom
            (IsLater kept.now.day) (with_day kept.now rows.now) (state S.Store self.old.conn).committed) }
    {
        let answer = calls::put_day(&mut self.conn, kept, rows, &mut self.refused);
        count(&mut self.faults, answer)
    }

    /// Keeps a history with its amounts, where no day and no history is kept.
    fn put_past(&mut self, kept: &PastRecord, rows: &[SpentRow]) -> Result<(), KeepFault>
        requires fits { IsPastPut kept.now rows.now }
        requires first { IfTold (told_in S.Steady.is_steady (state S.Store self.old.conn).committed) HasNoDays }
        ensures state { Puts AllOrNothing (told_in S.Steady.is_steady (state S.Store self.old.conn).committed)
            (told_in S.Steady.is_steady (state S.Store self.new.conn).committed) result (with_past kept.now rows.now) }
        ensures sound { SoundIfTold (told_in S.Steady.is_steady (state S.Store self.new.conn).committed) }
        ensures cause { CountsFaults self.old.faults self.new.faults result }
        ensures counted { self.new.faults ≡ faults_after self.old.faults result }
        ensures put { HasCleanDisk (state S.Store self.new.conn) → IsTrue (state S.Store self.new.conn).is_open
            → (o : Office) → StandsForOffice (state S.Store self.old.conn).committed o → HasNoDays o
            → OnOk result (HasOffice (state S.Store self.new.conn).committed (with_past kept.now rows.now o))
            × OnErr result (StandsForOffice (state S.Store self.new.conn).committed o) }
        ensures version { HasCleanDisk (state S.Store self.new.conn)
            → OnOk result (HasSecond S.Store self.old.conn) }
        ensures open { HasCleanDisk (state S.Store self.new.conn)
            → OnOk result (IsTrue (state S.Store self.new.conn).is_open) }
        ensures done { HasCleanDisk (state S.Store self.new.conn) → (o : Office)
            → StandsForOffice (state S.Store self.old.conn).committed o → HasNoDays o
            → OnOk result (HasOffice (state S.Store self.new.conn).committed (with_past kept.now rows.now o)) }
        ensures why { HasCleanDisk (state S.Store self.new.conn) → (o : Office)
            → StandsForOffice (state S.Store self.old.conn).committed o
            → IfErr result (HasCauseOf S.Store (past_texts kept.now rows.now) self.old.conn self.new.conn) }
        ensures because { HasCleanDisk (state S.Store self.new.conn) → (o : Office)
            → StandsForOffice (state S.Store self.old.conn).committed o → result ≡ Err Failed → WasRefused S.Store }
        ensures wrote { HasCleanDisk (state S.Store self.new.conn)
            → OnOk result (CommitsRun S.Store (past_texts kept.now rows.now) self.old.conn self.new.conn) }
        ensures told { HasCleanDisk (state S.Store self.new.conn)
            → IfErr result (λ fault. TellsRefusal S.Store (past_texts kept.now rows.now) self.old.conn
            self.new.conn fault self.old.refused self.new.refused) }
        ensures refused { HasCleanDisk (state S.Store self.new.conn)
            → OnErr result (KeepsCommit (state S.Store self.old.conn) (state S.Store self.new.conn)) }
        ensures spares { Survives (state S.Store self.old.conn) (state S.Store self.new.conn) (λ _. HasSecond S.Store
            self.old.conn) }
        ensures quiet { OnOk result (self.new.refused ≡ self.old.refused) }
        ensures made { self.new.unmade ≡ self.old.unmade }
        ensures leaves { Survives (state S.Store self.old.conn) (state S.Store self.new.conn) (LeavesRun S.Store
            (past_texts kept.now rows.now) self.old.conn) }
        ensures crash { Survives (state S.Store self.old.conn) (state S.Store self.new.conn) (CommitsFrom HasNoDays
            (with_past kept.now rows.now) (state S.Store self.old.conn).committed) }
    {
        let answer = calls::put_past(&mut self.conn, kept, rows, &mut self.refused);
        count(&mut self.faults, answer)
    }

    /// Gives an expressway a tariff. The benchmark's takes its own away.
    fn put_tariff(&mut self, xway: u8, tariff: &Tariff) -> Result<(), KeepFault>
        requires valid { IsTariff tariff.now }
        ensures state { Puts AllOrNothing (told_in S.Steady.is_steady (state S.Store self.old.conn).committed)
            (told_in S.Steady.is_steady (state S.Store self.new.conn).committed) result
            (with_tariff_of xway tariff.now) }
        ensures sound { SoundIfTold (told_in S.Steady.is_steady (state S.Store self.new.conn).committed) }
        ensures cause { CountsFaults self.old.faults self.new.faults result }
        ensures counted { self.new.faults ≡ faults_after self.old.faults result }
        ensures put { HasCleanDisk (state S.Store self.new.conn) → IsTrue (state S.Store self.new.conn).is_open
            → (o : Office) → StandsForOffice (state S.Store self.old.conn).committed o
            → OnOk result (HasOffice (state S.Store self.new.conn).committed (with_tariff_of xway tariff.now o))
            × OnErr result (StandsForOffice (state S.Store self.new.conn).committed o) }
        ensures version { HasCleanDisk (state S.Store self.new.conn)
            → OnOk result (HasSecond S.Store self.old.conn) }
        ensures open { HasCleanDisk (state S.Store self.new.conn)
            → OnOk result (IsTrue (state S.Store self.new.conn).is_open) }
        ensures done { HasCleanDisk (state S.Store self.new.conn) → (o : Office)
            → StandsForOffice (state S.Store self.old.conn).committed o
            → OnOk result (HasOffice (state S.Store self.new.conn).committed (with_tariff_of xway tariff.now o)) }
        ensures why { HasCleanDisk (state S.Store self.new.conn) → (o : Office)
            → StandsForOffice (state S.Store self.old.conn).committed o
            → IfErr result (HasCauseOf S.Store (tariff_texts xway tariff.now) self.old.conn self.new.conn) }
        ensures because { HasCleanDisk (state S.Store self.new.conn) → (o : Office)
            → StandsForOffice (state S.Store self.old.conn).committed o → result ≡ Err Failed → WasRefused S.Store }
        ensures wrote { HasCleanDisk (state S.Store self.new.conn)
            → OnOk result (CommitsRun S.Store (tariff_texts xway tariff.now) self.old.conn self.new.conn) }
        ensures told { HasCleanDisk (state S.Store self.new.conn)
            → IfErr result (λ fault. TellsRefusal S.Store (tariff_texts xway tariff.now) self.old.conn
            self.new.conn fault self.old.refused self.new.refused) }
        ensures refused { HasCleanDisk (state S.Store self.new.conn)
            → OnErr result (KeepsCommit (state S.Store self.old.conn) (state S.Store self.new.conn)) }
        ensures spares { Survives (state S.Store self.old.conn) (state S.Store self.new.conn) (λ _. HasSecond S.Store
            self.old.conn) }
        ensures quiet { OnOk result (self.new.refused ≡ self.old.refused) }
        ensures made { self.new.unmade ≡ self.old.unmade }
        ensures leaves { Survives (state S.Store self.old.conn) (state S.Store self.new.conn) (LeavesRun S.Store
            (tariff_texts xway tariff.now) self.old.conn) }
        ensures crash { Survives (state S.Store self.old.conn) (state S.Store self.new.conn) (CommitsFrom FitsAny
            (with_tariff_of xway tariff.now) (state S.Store self.old.conn).committed) }
    {
        let answer = calls::put_tariff(&mut self.conn, xway, tariff, &mut self.refused);
        count(&mut self.faults, answer)
    }
}
