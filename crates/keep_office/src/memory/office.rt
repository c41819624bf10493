// What an office in memory answers.
ghost use Rattle.std.specs.Prelude.{◌≡◌, ◌==◌, ◌&&◌, nat_le, IfOk};
ghost use Rattle.std.specs.List.{find, filter};
ghost use Rattle.std.specs.declared.cmp.Ordering.{Ordering};
ghost use Rattle.road_time.specs.History.{paid};
ghost use Rattle.keep_office.specs.Office.{nothing_kept, key_cmp, RowsRise, record_of, last_day as last_day_of};
ghost use Rattle.keep_office.specs.Office.{rows_between, vehicle_rows_between};
ghost use Rattle.keep_office.specs.Memory.{memory_office};

use super::MemOffice;
use crate::kept::{DayRecord, PastRecord};
use road_time::{NoMemory, SpentRow, Tariffs};
use std::alloc::Global;
use std::cmp::Ordering;

impl MemOffice {
    /// Nothing is kept.
    pub fn new(alloc: Global) -> MemOffice
        ensures { memory_office result ≡ nothing_kept }
    {
        MemOffice {
            alloc,
            days: Vec::new(alloc),
            rows: Vec::new(alloc),
            past: None,
            tariffs: Tariffs::new(alloc),
        }
    }

    /// The greatest kept day, else the day before the history's base, else 0.
    pub fn last_day(&self) -> u32
        ensures { result ≡ last_day_of (memory_office self.now) }
    {
        match self.days.split_first() {
            Some((first, rest)) => rest.iter().fold(first.day, |most, kept| most.max(kept.day)),
            None => match self.past {
                Some(past) => past.base - 1,
                None => 0,
            },
        }
    }

    /// The record of a day.
    pub fn day(&self, day: u32) -> Option<DayRecord>
        ensures { result ≡ record_of (memory_office self.now) day }
    {
        record_in(&self.days, day)
    }

    /// The record of the history.
    pub fn past(&self) -> Option<PastRecord>
        ensures { result ≡ (memory_office self.now).past }
    {
        self.past
    }

    /// The amount of a vehicle on an expressway on a day, by one search.
    pub fn spent(&self, day: u32, vid: u32, xway: u8) -> u64
        ensures { result ≡ paid (memory_office self.now).rows day vid xway }
    {
        match self
            .rows
            .binary_search_by(|row| stands(row, day, vid, xway))
        {
            Ok(at) => self.rows[at].tolls,
            Err(_) => 0,
        }
    }

    /// The amounts of the days from one to another.
    pub fn rows(&self, from: u32, to: u32) -> Result<Vec<SpentRow>, NoMemory>
        ensures rows { IfOk result (λ rows. rows.items ≡ rows_between (memory_office self.now) from to) }
        ensures rise { IfOk result (λ rows. RowsRise rows.items) }
    {
        let rows = between(self.alloc, &self.rows, from, to)?;
        Ok(rows)
    }

    /// The amounts of a vehicle on the days from one to another.
    pub fn vehicle_rows(&self, vid: u32, from: u32, to: u32) -> Result<Vec<SpentRow>, NoMemory>
        ensures rows { IfOk result (λ rows. rows.items ≡ vehicle_rows_between (memory_office self.now) vid from to) }
        ensures rise { IfOk result (λ rows. RowsRise rows.items) }
    {
        let rows = of_vehicle(self.alloc, &self.rows, vid, from, to)?;
        Ok(rows)
    }

    /// The tariffs.
    pub fn tariffs(&self) -> Result<Tariffs, NoMemory>
        ensures { IfOk result (λ tariffs. tariffs ≡ (memory_office self.now).tariffs) }
    {
        self.tariffs.copy()
    }
}

/// The first record of a day.
fn record_in(days: &[DayRecord], day: u32) -> Option<DayRecord>
    ensures { result ≡ find (λ r. r.day == day) days.now }
{
    let mut left = days;
    while let Some((kept, rest)) = left.split_first() {
        if kept.day == day {
            return Some(*kept);
        }
        left = rest;
    }
    None
}

/// How a row stands to a day, a vehicle and an expressway.
fn stands(row: &SpentRow, day: u32, vid: u32, xway: u8) -> Ordering
    ensures { result ≡ key_cmp day vid xway row.now }
{
    row.day
        .cmp(&day)
        .then(row.vid.cmp(&vid).then(row.xway.cmp(&xway)))
}

/// The rows of the days from one to another.
fn between(alloc: Global, rows: &[SpentRow], from: u32, to: u32) -> Result<Vec<SpentRow>, NoMemory>
    ensures { IfOk result (λ some. some.items ≡ filter (λ r. nat_le from r.day && nat_le r.day to) rows.now) }
{
    let some = rows
        .iter()
        .filter(|row| from <= row.day && row.day <= to)
        .copied()
        .collect(alloc)?;
    Ok(some)
}

/// The rows of a vehicle on the days from one to another.
fn of_vehicle(
    alloc: Global,
    rows: &[SpentRow],
    vid: u32,
    from: u32,
    to: u32,
) -> Result<Vec<SpentRow>, NoMemory>
    ensures { IfOk result (λ some. some.items ≡ filter
        (λ r. r.vid == vid && (nat_le from r.day && nat_le r.day to)) rows.now) }
{
    let some = rows
        .iter()
        .filter(|row| row.vid == vid && (from <= row.day && row.day <= to))
        .copied()
        .collect(alloc)?;
    Ok(some)
}
