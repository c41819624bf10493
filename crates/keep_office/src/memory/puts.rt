// What an office in memory takes up.
ghost use Rattle.std.specs.Prelude.{◌≡◌, OnOk, OnErr};
ghost use Rattle.road_time.specs.Rates.{IsTariff};
ghost use Rattle.keep_office.specs.Kept.{IsDayPut, IsPastPut, IsLater, HasNoDays, with_day, with_past, with_tariff_of};
ghost use Rattle.keep_office.specs.Memory.{memory_office};

use super::MemOffice;
use crate::kept::{DayRecord, PastRecord};
use road_time::{NoMemory, SpentRow, Tariff};

impl MemOffice {
    /// Keeps a day after all kept ones. Room for its record is made first, then its amounts join as a whole, and the
    /// record cannot be refused any more.
    pub fn put_day(&mut self, kept: &DayRecord, rows: &[SpentRow]) -> Result<(), NoMemory>
        requires fits { IsDayPut kept.now rows.now }
        requires later { IsLater kept.now.day (memory_office self.old) }
        ensures put { OnOk result (memory_office self.new ≡ with_day kept.now rows.now (memory_office self.old)) }
        ensures refused { OnErr result (memory_office self.new ≡ memory_office self.old) }
    {
        self.days.reserve(1)?;
        self.rows.extend_from_slice(rows)?;
        match self.days.push(*kept) {
            Ok(()) => Ok(()),
            Err(_) => unreachable!(),
        }
    }

    /// Keeps a history where nothing is kept of days.
    pub fn put_past(&mut self, kept: &PastRecord, rows: &[SpentRow]) -> Result<(), NoMemory>
        requires fits { IsPastPut kept.now rows.now }
        requires first { HasNoDays (memory_office self.old) }
        ensures put { OnOk result (memory_office self.new ≡ with_past kept.now rows.now (memory_office self.old)) }
        ensures refused { OnErr result (memory_office self.new ≡ memory_office self.old) }
    {
        self.rows.extend_from_slice(rows)?;
        self.past = Some(*kept);
        Ok(())
    }

    /// Gives an expressway a tariff.
    pub fn put_tariff(&mut self, xway: u8, tariff: &Tariff) -> Result<(), NoMemory>
        requires valid { IsTariff tariff.now }
        ensures put { OnOk result (memory_office self.new ≡ with_tariff_of xway tariff.now (memory_office self.old)) }
        ensures refused { OnErr result (memory_office self.new ≡ memory_office self.old) }
    {
        self.tariffs.set(xway, tariff)
    }
}
