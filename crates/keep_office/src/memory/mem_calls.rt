// The keeper in memory.
ghost use Rattle.std.specs.Prelude.{ℕ, ◌≡◌, ◌==◌, IfOk};
ghost use Rattle.std.specs.List.{list_any};
ghost use Rattle.keep_office.specs.Office.{IsSound, nothing_kept};
ghost use Rattle.keep_office.specs.Kept.{old_office};
ghost use Rattle.keep_office.specs.Memory.{kept_by, plan_of, faults_of};

use super::{Failing, MemKeeper, MemOffice};
use crate::calls::Keeper;
use crate::kept::{DayRecord, KeepFault, OldRecord, PastRecord};
use road_time::{NoMemory, SpentRow, Tariff, Tariffs};
use std::alloc::Global;

impl MemKeeper {
    /// Keeps nothing yet, and fails at the calls whose numbers from 0 stand in `fails`.
    pub fn new(alloc: Global, fails: &[u32]) -> Result<MemKeeper, NoMemory>
        ensures kept { IfOk result (λ k. kept_by k ≡ nothing_kept) }
        ensures plan { IfOk result (λ k. (n : ℕ) → plan_of k n ≡ list_any (λ f. f == n) fails.now) }
        ensures faultless { IfOk result (λ k. faults_of k ≡ 0) }
    {
        let failing = Failing::new(alloc, fails)?;
        let office = MemOffice::new(alloc);
        Ok(MemKeeper { office, failing })
    }

    /// Keeps what was kept before tariffs were, each day under the seal of no tariffs. Days, amounts and history come
    /// in order and fit together.
    pub fn from_old(
        alloc: Global,
        days: &[OldRecord],
        rows: &[SpentRow],
        past: Option<PastRecord>,
        fails: &[u32],
    ) -> Result<MemKeeper, NoMemory>
        requires { IsSound (old_office days.now rows.now past) }
        ensures kept { IfOk result (λ k. kept_by k ≡ old_office days.now rows.now past) }
        ensures plan { IfOk result (λ k. (n : ℕ) → plan_of k n ≡ list_any (λ f. f == n) fails.now) }
        ensures faultless { IfOk result (λ k. faults_of k ≡ 0) }
    {
        let failing = Failing::new(alloc, fails)?;
        let office = MemOffice::from_old(alloc, days, rows, past)?;
        Ok(MemKeeper { office, failing })
    }
}

impl Keeper for MemKeeper {
    ghost use Rattle.std.specs.Prelude.{Some, false};
    ghost use Rattle.keep_office.specs.Calls.{PutsNothing};

    ghost told = { λ k. Some (kept_by k) };

    ghost faults = { λ k. faults_of k };

    ghost plan = { λ k. Some (plan_of k) };

    ghost refuses = { PutsNothing };

    ghost needs_memory = { false };

    fn last_day(&mut self) -> Result<u32, KeepFault> {
        if self.failing.turn() {
            return Err(KeepFault::Failed);
        }
        Ok(self.office.last_day())
    }

    fn day(&mut self, day: u32) -> Result<Option<DayRecord>, KeepFault> {
        if self.failing.turn() {
            return Err(KeepFault::Failed);
        }
        Ok(self.office.day(day))
    }

    fn past(&mut self) -> Result<Option<PastRecord>, KeepFault> {
        if self.failing.turn() {
            return Err(KeepFault::Failed);
        }
        Ok(self.office.past())
    }

    fn spent(&mut self, day: u32, vid: u32, xway: u8) -> Result<u64, KeepFault> {
        if self.failing.turn() {
            return Err(KeepFault::Failed);
        }
        Ok(self.office.spent(day, vid, xway))
    }

    fn rows(&mut self, from: u32, to: u32) -> Result<Vec<SpentRow>, KeepFault> {
        if self.failing.turn() {
            return Err(KeepFault::Failed);
        }
        let answer = self.office.rows(from, to)?;
        Ok(answer)
    }

    fn vehicle_rows(&mut self, vid: u32, from: u32, to: u32) -> Result<Vec<SpentRow>, KeepFault> {
        if self.failing.turn() {
            return Err(KeepFault::Failed);
        }
        let answer = self.office.vehicle_rows(vid, from, to)?;
        Ok(answer)
    }

    fn tariffs(&mut self) -> Result<Tariffs, KeepFault> {
        if self.failing.turn() {
            return Err(KeepFault::Failed);
        }
        let answer = self.office.tariffs()?;
        Ok(answer)
    }

    fn put_day(&mut self, kept: &DayRecord, rows: &[SpentRow]) -> Result<(), KeepFault> {
        if self.failing.turn() {
            return Err(KeepFault::Failed);
        }
        self.office.put_day(kept, rows)?;
        Ok(())
    }

    fn put_past(&mut self, kept: &PastRecord, rows: &[SpentRow]) -> Result<(), KeepFault> {
        if self.failing.turn() {
            return Err(KeepFault::Failed);
        }
        self.office.put_past(kept, rows)?;
        Ok(())
    }

    fn put_tariff(&mut self, xway: u8, tariff: &Tariff) -> Result<(), KeepFault> {
        if self.failing.turn() {
            return Err(KeepFault::Failed);
        }
        self.office.put_tariff(xway, tariff)?;
        Ok(())
    }
}
