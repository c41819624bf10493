// Amounts are taken one by one, and the ones above zero are kept in order.
ghost use Rattle.std.specs.Prelude.{◌≡◌, ◌<◌, ◌^◌, [], ℕ, List, IfOk, OnOk, IsTrue, false, nat_lt, length};
ghost use Rattle.std.specs.List.{filter};
ghost use Rattle.road_time.specs.declared.day.SpentRow.{SpentRow as SpentRowValue};
ghost use Rattle.keep_office.specs.Office.{RowsRise};
ghost use Rattle.day_past.specs.Rows.{HasRows, IsPastRow, TakesAmount, rows_in};

use super::keyed::{above_zero, is_behind, listed, mapped};
use super::{Amounts, Key};
use road_time::{NoMemory, SpentRow};
use std::alloc::Global;
use std::collections::BTreeMap;

impl Amounts {
    /// No amount was taken.
    pub fn new(alloc: Global) -> Self
        ensures { (base : ℕ) → HasRows result base [] }
    {
        Amounts {
            alloc,
            rising: Vec::new(alloc),
            by_key: BTreeMap::new(alloc),
            is_rising: true,
        }
    }

    /// Takes an amount into the map.
    fn take_by_key(&mut self, row: &SpentRow) -> Result<bool, NoMemory>
        requires { self.old.is_rising ≡ false }
        ensures { IfOk result (λ new. (base : ℕ) (rows : List SpentRowValue) → IsPastRow base row.now
            → HasRows self.old base rows → TakesAmount new self.new base rows row.now) }
    {
        let key = Key {
            day: row.day,
            vid: row.vid,
            xway: row.xway,
        };
        match self.by_key.insert(key, row.tolls) {
            Ok(Some(_)) => Ok(false),
            Ok(None) => Ok(true),
            Err(_) => Err(NoMemory),
        }
    }

    /// Puts the amounts of the list into the map.
    fn leave_list(&mut self) -> Result<(), NoMemory>
        requires { IsTrue self.old.is_rising }
        ensures left { OnOk result (self.new.is_rising ≡ false) }
        ensures same { OnOk result ((base : ℕ) (rows : List SpentRowValue) → HasRows self.old base rows
            → HasRows self.new base rows) }
    {
        let by_key = mapped(self.alloc, self.rising.as_slice())?;
        self.by_key = by_key;
        self.rising = Vec::new(self.alloc);
        self.is_rising = false;
        Ok(())
    }

    /// Takes an amount; false where one of its vehicle, day and expressway was taken before. Nothing is told of the
    /// amounts after that.
    pub fn take(&mut self, row: &SpentRow) -> Result<bool, NoMemory>
        ensures { IfOk result (λ new. (base : ℕ) (rows : List SpentRowValue) → IsPastRow base row.now
            → HasRows self.old base rows → TakesAmount new self.new base rows row.now) }
    {
        if !self.is_rising {
            return self.take_by_key(row);
        }
        if is_behind(self.rising.as_slice(), row) {
            let Ok(()) = self.rising.push(*row) else {
                return Err(NoMemory);
            };
            return Ok(true);
        }
        let Ok(()) = self.leave_list() else {
            return Err(NoMemory);
        };
        match self.take_by_key(row) {
            Ok(new) => Ok(new),
            Err(fault) => Err(fault),
        }
    }

    /// The amounts above zero, in order.
    pub fn kept(self) -> Result<Vec<SpentRow>, NoMemory>
        ensures value { IfOk result (λ kept. kept.items ≡ filter (λ r. nat_lt 0 r.tolls) (rows_in self)) }
        ensures rise { IfOk result (λ kept. RowsRise kept.items) }
        ensures few { IfOk result (λ kept. length kept.items < 2 ^ 63) }
    {
        let Amounts {
            alloc,
            rising,
            by_key,
            is_rising,
        } = self;
        if is_rising {
            return Ok(above_zero(rising));
        }
        match listed(alloc, &by_key) {
            Ok(rows) => Ok(rows),
            Err(fault) => Err(fault),
        }
    }
}
