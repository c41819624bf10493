// The calls of a keeper in memory that may begin anew.
ghost use Rattle.std.specs.Prelude.{◌≡◌, false, IfOk, OnOk, OnErr};
ghost use Rattle.road_time.specs.Rates.{IsTariff};
ghost use Rattle.road_time.specs.Tariffs.{IsTariffs, with_tariff};
ghost use Rattle.keep_office.specs.Office.{nothing_kept};
ghost use Rattle.keep_office.specs.Kept.{IsPastPut, with_past};
ghost use Rattle.keep_office.specs.Memory.{kept_by};
ghost use Rattle.keep_office.specs.Calls.{has_failed};

use crate::anew::Renews;
use crate::anew_keeper::AnewKeeper;
use crate::calls::Keeper;
use crate::faults::count;
use crate::kept::{DayRecord, KeepFault, PastRecord};
use crate::memory::MemKeeper;
use road_time::{SpentRow, Tariff, Tariffs};
use std::alloc::Global;

/// A keeper that keeps this history alone.
fn begun(alloc: Global, kept: &PastRecord, rows: &[SpentRow]) -> Result<MemKeeper, KeepFault>
    requires { IsPastPut kept.now rows.now }
    ensures kept { IfOk result (λ k. kept_by k ≡ with_past kept.now rows.now nothing_kept) }
    ensures unfailed { has_failed result ≡ false }
{
    let mut fresh = match MemKeeper::new(alloc, &[]) {
        Ok(fresh) => fresh,
        Err(_) => return Err(KeepFault::NoMemory),
    };
    match fresh.put_past(kept, rows) {
        Ok(()) => Ok(fresh),
        Err(fault) => Err(fault),
    }
}

/// Puts a keeper of this history alone in the place of another.
fn replace(
    keeper: &mut MemKeeper,
    alloc: Global,
    kept: &PastRecord,
    rows: &[SpentRow],
) -> Result<(), KeepFault>
    requires { IsPastPut kept.now rows.now }
    ensures done { OnOk result (kept_by keeper.new ≡ with_past kept.now rows.now nothing_kept) }
    ensures same { OnErr result (keeper.new ≡ keeper.old) }
    ensures unfailed { has_failed result ≡ false }
{
    match begun(alloc, kept, rows) {
        Ok(fresh) => {
            *keeper = fresh;
            Ok(())
        }
        Err(fault) => Err(fault),
    }
}

/// Gives an expressway a tariff.
fn set_tariff(tariffs: &mut Tariffs, xway: u8, tariff: &Tariff) -> Result<(), KeepFault>
    requires { IsTariff tariff.now }
    ensures set { OnOk result (tariffs.new ≡ with_tariff tariffs.old xway tariff.now) }
    ensures kept { OnErr result (tariffs.new ≡ tariffs.old) }
    ensures valid { IsTariffs tariffs.old → IsTariffs tariffs.new }
    ensures unfailed { has_failed result ≡ false }
{
    match tariffs.set(xway, tariff) {
        Ok(()) => Ok(()),
        Err(_) => Err(KeepFault::NoMemory),
    }
}

impl Keeper for AnewKeeper {
    ghost use Rattle.std.specs.Prelude.{Some, None, false};
    ghost use Rattle.keep_office.specs.Calls.{PutsNothing};
    ghost use Rattle.keep_office.specs.InMemory.{kept_anew};

    ghost told = { λ k. Some (kept_anew k) };

    ghost faults = { λ k. k.faults };

    ghost plan = { λ k. None };

    ghost refuses = { PutsNothing };

    ghost needs_memory = { false };

    fn last_day(&mut self) -> Result<u32, KeepFault> {
        let answer = self.kept.last_day();
        count(&mut self.faults, answer)
    }

    fn day(&mut self, day: u32) -> Result<Option<DayRecord>, KeepFault> {
        let answer = self.kept.day(day);
        count(&mut self.faults, answer)
    }

    fn past(&mut self) -> Result<Option<PastRecord>, KeepFault> {
        let answer = self.kept.past();
        count(&mut self.faults, answer)
    }

    fn spent(&mut self, day: u32, vid: u32, xway: u8) -> Result<u64, KeepFault> {
        let answer = self.kept.spent(day, vid, xway);
        count(&mut self.faults, answer)
    }

    fn rows(&mut self, from: u32, to: u32) -> Result<Vec<SpentRow>, KeepFault> {
        let answer = self.kept.rows(from, to);
        count(&mut self.faults, answer)
    }

    fn vehicle_rows(&mut self, vid: u32, from: u32, to: u32) -> Result<Vec<SpentRow>, KeepFault> {
        let answer = self.kept.vehicle_rows(vid, from, to);
        count(&mut self.faults, answer)
    }

    fn tariffs(&mut self) -> Result<Tariffs, KeepFault> {
        match self.tariffs.copy() {
            Ok(tariffs) => Ok(tariffs),
            Err(_) => Err(KeepFault::NoMemory),
        }
    }

    fn put_day(&mut self, kept: &DayRecord, rows: &[SpentRow]) -> Result<(), KeepFault> {
        let answer = self.kept.put_day(kept, rows);
        count(&mut self.faults, answer)
    }

    fn put_past(&mut self, kept: &PastRecord, rows: &[SpentRow]) -> Result<(), KeepFault> {
        let answer = self.kept.put_past(kept, rows);
        count(&mut self.faults, answer)
    }

    fn put_tariff(&mut self, xway: u8, tariff: &Tariff) -> Result<(), KeepFault> {
        set_tariff(&mut self.tariffs, xway, tariff)
    }
}

impl Renews for AnewKeeper {
    fn put_anew(&mut self, kept: &PastRecord, rows: &[SpentRow]) -> Result<(), KeepFault> {
        // a failure that is planned for this call comes at a call of the other keeper
        let turn = self.kept.last_day();
        match count(&mut self.faults, turn) {
            Ok(_) => replace(&mut self.kept, self.alloc, kept, rows),
            Err(fault) => Err(fault),
        }
    }
}
