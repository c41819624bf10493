// The calls of a keeper that put.
use crate::call::Putting;
use crate::shuts::Shuts;
use keep_database::ProvedKeeper;
use keep_office::{DayRecord, KeepFault, Keeper, PastRecord};
use road_time::{SpentRow, Tariff};
use sqlite_trees::error::StoreError;
use sqlite_trees::store::Store;
use std::alloc::Global;

/// Puts a day.
#[derive(Clone, Copy)]
pub struct PutDay<'a> {
    pub kept: &'a DayRecord,
    pub rows: &'a [SpentRow],
}

impl<'a> Putting for PutDay<'a> {
    ghost use Rattle.keep_office.specs.Kept.{IsDayPut, IsLater, with_day};
    ghost use Rattle.keep_writes.specs.Writes.{day_texts};
    ghost use Rattle.keep_puts.specs.Room.{RoomForDay};
    ghost use Rattle.keep_puts.specs.Steps.{IsFreshDay};
    ghost use Rattle.keep_puts.specs.Puts.{PutsDay};

    ghost fits = { λ put. IsDayPut put.kept.now put.rows.now };

    ghost room = { λ put. RoomForDay put.kept.now put.rows.now };

    ghost writes = { λ put. day_texts put.kept.now put.rows.now };

    ghost asks = { λ put. IsLater put.kept.now.day };

    ghost next = { λ put. with_day put.kept.now put.rows.now };

    ghost finds = { λ put. IsFreshDay put.kept.now put.rows.now };

    ghost makes = { λ put. PutsDay put.kept.now put.rows.now };

    fn store<S: Store>(&self, alloc: Global, store: &mut S) -> Result<bool, StoreError> {
        keep_puts::put_day(store, alloc, self.kept, self.rows)
    }

    fn put<S: Shuts>(self, kept: &mut ProvedKeeper<S>) -> Result<(), KeepFault> {
        kept.put_day(self.kept, self.rows)
    }
}

/// Puts a history.
#[derive(Clone, Copy)]
pub struct PutPast<'a> {
    pub kept: &'a PastRecord,
    pub rows: &'a [SpentRow],
}

impl<'a> Putting for PutPast<'a> {
    ghost use Rattle.keep_office.specs.Kept.{IsPastPut, HasNoDays, with_past};
    ghost use Rattle.keep_writes.specs.Writes.{past_texts};
    ghost use Rattle.keep_puts.specs.Room.{RoomForPast};
    ghost use Rattle.keep_puts.specs.Steps.{IsFreshPast};
    ghost use Rattle.keep_puts.specs.Puts.{PutsPast};

    ghost fits = { λ put. IsPastPut put.kept.now put.rows.now };

    ghost room = { λ put. RoomForPast put.rows.now };

    ghost writes = { λ put. past_texts put.kept.now put.rows.now };

    ghost asks = { λ put. HasNoDays };

    ghost next = { λ put. with_past put.kept.now put.rows.now };

    ghost finds = { λ put. IsFreshPast put.rows.now };

    ghost makes = { λ put. PutsPast put.kept.now put.rows.now };

    fn store<S: Store>(&self, alloc: Global, store: &mut S) -> Result<bool, StoreError> {
        keep_puts::put_past(store, alloc, self.kept, self.rows)
    }

    fn put<S: Shuts>(self, kept: &mut ProvedKeeper<S>) -> Result<(), KeepFault> {
        kept.put_past(self.kept, self.rows)
    }
}

/// Puts a tariff.
#[derive(Clone, Copy)]
pub struct PutTariff<'a> {
    pub xway: u8,
    pub tariff: &'a Tariff,
}

impl<'a> Putting for PutTariff<'a> {
    ghost use Rattle.road_time.specs.Rates.{IsTariff};
    ghost use Rattle.keep_office.specs.Kept.{with_tariff_of};
    ghost use Rattle.keep_tables.specs.Steps.{FitsAny};
    ghost use Rattle.keep_writes.specs.Writes.{tariff_texts};
    ghost use Rattle.keep_puts.specs.Room.{RoomForTariff};
    ghost use Rattle.keep_puts.specs.Puts.{PutsTariff};
    ghost use Rattle.keep_files.specs.Storing.{FindsAny};

    ghost fits = { λ put. IsTariff put.tariff.now };

    ghost room = { λ put. RoomForTariff };

    ghost writes = { λ put. tariff_texts put.xway put.tariff.now };

    ghost asks = { λ put. FitsAny };

    ghost next = { λ put. with_tariff_of put.xway put.tariff.now };

    ghost finds = { λ put. FindsAny };

    ghost makes = { λ put. PutsTariff put.xway put.tariff.now };

    fn store<S: Store>(&self, alloc: Global, store: &mut S) -> Result<bool, StoreError> {
        keep_puts::put_tariff(store, alloc, self.xway, self.tariff)
    }

    fn put<S: Shuts>(self, kept: &mut ProvedKeeper<S>) -> Result<(), KeepFault> {
        kept.put_tariff(self.xway, self.tariff)
    }
}
