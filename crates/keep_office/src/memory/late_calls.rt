// The keeper in memory that fails late.
ghost use Rattle.std.specs.Prelude.{ℕ, ◌≡◌, ◌==◌, IfOk};
ghost use Rattle.std.specs.List.{list_any};
ghost use Rattle.keep_office.specs.Office.{nothing_kept};
ghost use Rattle.keep_office.specs.Memory.{kept_late, plan_late, faults_late};

use super::{Failing, LateKeeper, MemOffice};
use crate::calls::Keeper;
use crate::kept::{DayRecord, KeepFault, PastRecord};
use road_time::{NoMemory, SpentRow, Tariff, Tariffs};
use std::alloc::Global;

impl LateKeeper {
    /// Keeps nothing yet, and fails at the calls whose numbers from 0 stand in `fails`.
    pub fn new(alloc: Global, fails: &[u32]) -> Result<LateKeeper, NoMemory>
        ensures kept { IfOk result (λ k. kept_late k ≡ nothing_kept) }
        ensures plan { IfOk result (λ k. (n : ℕ) → plan_late k n ≡ list_any (λ f. f == n) fails.now) }
        ensures faultless { IfOk result (λ k. faults_late k ≡ 0) }
    {
        let failing = Failing::new(alloc, fails)?;
        let office = MemOffice::new(alloc);
        Ok(LateKeeper { office, failing })
    }
}

impl Keeper for LateKeeper {
    ghost use Rattle.std.specs.Prelude.{Some, false};
    ghost use Rattle.keep_office.specs.Calls.{FailsLate};

    ghost told = { λ k. Some (kept_late k) };

    ghost faults = { λ k. faults_late k };

    ghost plan = { λ k. Some (plan_late k) };

    ghost refuses = { FailsLate };

    ghost needs_memory = { false };

    fn last_day(&mut self) -> Result<u32, KeepFault> {
        if self.failing.turn() {
            return Err(KeepFault::Failed);
        }
        Ok(self.office.last_day())
    }

    fn day(&mut self, day: u32) -> Result<Option<DayRecord>, KeepFault> {
        if self.failing.turn() {
            return Err(KeepFault::Failed);
        }
        Ok(self.office.day(day))
    }

    fn past(&mut self) -> Result<Option<PastRecord>, KeepFault> {
        if self.failing.turn() {
            return Err(KeepFault::Failed);
        }
        Ok(self.office.past())
    }

    fn spent(&mut self, day: u32, vid: u32, xway: u8) -> Result<u64, KeepFault> {
        if self.failing.turn() {
            return Err(KeepFault::Failed);
        }
        Ok(self.office.spent(day, vid, xway))
    }

    fn rows(&mut self, from: u32, to: u32) -> Result<Vec<SpentRow>, KeepFault> {
        if self.failing.turn() {
            return Err(KeepFault::Failed);
        }
        let answer = self.office.rows(from, to)?;
        Ok(answer)
    }

    fn vehicle_rows(&mut self, vid: u32, from: u32, to: u32) -> Result<Vec<SpentRow>, KeepFault> {
        if self.failing.turn() {
            return Err(KeepFault::Failed);
        }
        let answer = self.office.vehicle_rows(vid, from, to)?;
        Ok(answer)
    }

    fn tariffs(&mut self) -> Result<Tariffs, KeepFault> {
        if self.failing.turn() {
            return Err(KeepFault::Failed);
        }
        let answer = self.office.tariffs()?;
        Ok(answer)
    }

    fn put_day(&mut self, kept: &DayRecord, rows: &[SpentRow]) -> Result<(), KeepFault> {
        let failing = self.failing.step();
        self.office.put_day(kept, rows)?;
        if failing {
            self.failing.count();
            return Err(KeepFault::Failed);
        }
        Ok(())
    }

    fn put_past(&mut self, kept: &PastRecord, rows: &[SpentRow]) -> Result<(), KeepFault> {
        let failing = self.failing.step();
        self.office.put_past(kept, rows)?;
        if failing {
            self.failing.count();
            return Err(KeepFault::Failed);
        }
        Ok(())
    }

    fn put_tariff(&mut self, xway: u8, tariff: &Tariff) -> Result<(), KeepFault> {
        let failing = self.failing.step();
        self.office.put_tariff(xway, tariff)?;
        if failing {
            self.failing.count();
            return Err(KeepFault::Failed);
        }
        Ok(())
    }
}
