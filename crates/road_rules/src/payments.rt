// What vehicles paid on earlier days, looked up.
ghost use Rattle.std.specs.Prelude.{◌≡◌, ℕ, IfOk};
ghost use Rattle.road_time.specs.History.{paid as defined_paid};
ghost use Rattle.road_rules.specs.Payments.{amount_in};

use road_time::{NoMemory, SpentRow};
use std::alloc::Global;
use std::collections::HashMap;

/// What vehicles paid on earlier days, by day, vehicle and expressway.
#[derive(Drop)]
pub struct Payments {
    amounts: HashMap<(u32, u32, u8), u64>,
}

impl Payments {
    /// What the rows of a history say. It walks them once; of two rows of one day, vehicle and expressway the first
    /// stands.
    pub fn of(alloc: Global, history: &[SpentRow]) -> Result<Self, NoMemory>
        ensures { IfOk result (λ new. (day vid xway : ℕ)
            → amount_in new day vid xway ≡ defined_paid history.now day vid xway) }
    {
        let mut amounts = HashMap::with_capacity(alloc, history.len())?;
        let mut left = history;
        while let Some((row, earlier)) = left.split_last() {
            amounts.insert((row.day, row.vid, row.xway), row.tolls)?;
            left = earlier;
        }
        Ok(Payments { amounts })
    }

    /// What a vehicle paid on an expressway on a day: one look-up.
    pub fn paid(&self, day: u32, vid: u32, xway: u8) -> u64
        ensures { result ≡ amount_in self.now day vid xway }
    {
        match self.amounts.get(&(day, vid, xway)) {
            Some(amount) => *amount,
            None => 0,
        }
    }
}
