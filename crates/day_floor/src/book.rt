// A day's book of accounts: what each vehicle was told last, and what it was charged on each expressway.
ghost use Rattle.std.specs.Prelude.{◌≡◌, ◌≤◌, ◌<◌, ◌+◌, ◌*◌, ◌++◌, ◌∷◌, Some, IsSome, IfSome, IfOk, OnErr};
ghost use Rattle.std.specs.FinMap.{empty, get, insert};
ghost use Rattle.road_time.specs.declared.tariff.TheConstants.{GREATEST_TOLL};
ghost use Rattle.day_floor.specs.Books.{retold};
ghost use Rattle.day_floor.specs.Sums.{account_in, total_in, with_charge, AreRowsOf};

use crate::rows::{list_firsts, list_further, sort_rows};
use crate::sums::add_further;
use crate::vehicle::{FirstKept, Vehicle, first_after, tell};
use road_time::{NoMemory, SpentRow};
use std::alloc::Global;
use std::collections::HashMap;
use std::marker::Model;

/// What each vehicle was told last and was charged on each expressway, and how many charges were made. What a vehicle
/// was charged on the expressway of its first charge stands in its own entry, so that a charge there makes one look-up;
/// the other map has further expressways alone.
#[derive(Drop)]
pub struct Book {
    alloc: Global,
    vehicles: HashMap<u32, Vehicle>,
    further: HashMap<(u32, u8), u64>,
    total: u64,
    made: u32,
}

impl Model for Book {
    ghost use Rattle.day_floor.specs.Books.{Accounts, accounts_code};

    ghost Value = { Accounts };

    ghost coded = { accounts_code };

    ghost use Rattle.day_floor.specs.Books.{told_of, spent_sums, IsBalanced};

    ghost view = { λ b. record {
      told = told_of b.vehicles.entries;
      spent = spent_sums b.vehicles.entries b.further.entries;
      made = b.made;
    } };

    ghost invariant = { λ b. IsBalanced b.vehicles.entries b.further.entries b.total b.made };
}

impl Book {
    /// Nobody was told anything, and nothing was charged. It takes no memory.
    pub fn new(alloc: Global) -> Self
        ensures { result ≡ record { told = empty; spent = empty; made = 0 } }
    {
        Book {
            alloc,
            vehicles: HashMap::new(alloc),
            further: HashMap::new(alloc),
            total: 0,
            made: 0,
        }
    }

    /// Keeps the toll that a vehicle is told, at most 500,000,000,000. The one error is want of memory.
    pub fn notify(&mut self, vid: u32, toll: u64) -> Result<(), NoMemory>
        requires { toll ≤ GREATEST_TOLL }
        ensures told { IfOk result (λ _. self.new ≡ record self.old { told = insert self.old.told vid toll }) }
        ensures refused { OnErr result (self.new ≡ self.old) }
    {
        tell(&mut self.vehicles, vid, toll)?;
        Ok(())
    }

    /// Charges a vehicle the toll that it was told last, on an expressway, and keeps the next toll that it is told, if
    /// there is one: both by one look-up.
    #[inline(always)]
    fn charge_then(&mut self, vid: u32, xway: u8, next: Option<u64>) -> Result<u64, NoMemory>
        requires told { IsSome (get self.old.told vid) }
        requires few { self.old.made < 16000000 }
        requires next { IfSome next (λ toll. toll ≤ GREATEST_TOLL) }
        ensures toll { IfOk result (λ toll. Some toll ≡ get self.old.told vid) }
        ensures capped { IfOk result (λ toll. toll ≤ GREATEST_TOLL) }
        ensures booked { IfOk result (λ toll. self.new
            ≡ record self.old {
              told = retold self.old.told vid next;
              spent = with_charge self.old.spent (record { vid = vid; xway = xway; toll = toll });
              made = self.old.made + 1;
            }) }
        ensures refused { OnErr result (self.new ≡ self.old) }
    {
        let Some(vehicle) = self.vehicles.get_mut(&vid) else {
            unreachable!()
        };
        let toll = vehicle.told;
        let first = vehicle.first.get();
        add_further(&mut self.further, first, (vid, xway), toll)?;
        *vehicle = Vehicle {
            told: next.unwrap_or(toll),
            sum: vehicle.sum + toll,
            first: FirstKept::of(first_after(first, xway, toll)),
        };
        self.total += toll;
        self.made += 1;
        Ok(toll)
    }

    /// Charges a vehicle the toll that it was told last, on an expressway, and gives that toll. The one error is want
    /// of memory. It asks that the vehicle was told a toll, and that fewer than 16,000,000 charges were made.
    pub fn charge(&mut self, vid: u32, xway: u8) -> Result<u64, NoMemory>
        requires told { IsSome (get self.old.told vid) }
        requires few { self.old.made < 16000000 }
        ensures toll { IfOk result (λ toll. Some toll ≡ get self.old.told vid) }
        ensures capped { IfOk result (λ toll. toll ≤ GREATEST_TOLL) }
        ensures booked { IfOk result (λ toll. self.new
            ≡ record self.old {
              spent = with_charge self.old.spent (record { vid = vid; xway = xway; toll = toll });
              made = self.old.made + 1;
            }) }
        ensures refused { OnErr result (self.new ≡ self.old) }
    {
        match self.charge_then(vid, xway, None) {
            Ok(toll) => Ok(toll),
            Err(refused) => Err(refused),
        }
    }

    /// Charges a vehicle as `charge` does, and then keeps the toll that it is told, as `notify` does.
    pub fn charge_and_notify(&mut self, vid: u32, xway: u8, next: u64) -> Result<u64, NoMemory>
        requires told { IsSome (get self.old.told vid) }
        requires few { self.old.made < 16000000 }
        requires next { next ≤ GREATEST_TOLL }
        ensures toll { IfOk result (λ toll. Some toll ≡ get self.old.told vid) }
        ensures capped { IfOk result (λ toll. toll ≤ GREATEST_TOLL) }
        ensures booked { IfOk result (λ toll. self.new
            ≡ record {
              told = insert self.old.told vid next;
              spent = with_charge self.old.spent (record { vid = vid; xway = xway; toll = toll });
              made = self.old.made + 1;
            }) }
        ensures refused { OnErr result (self.new ≡ self.old) }
    {
        match self.charge_then(vid, xway, Some(next)) {
            Ok(toll) => Ok(toll),
            Err(refused) => Err(refused),
        }
    }

    /// A vehicle's account: the sum of what it was charged, 0 for one that never was.
    pub fn balance(&self, vid: u32) -> u64
        ensures account { result ≡ account_in self.now.spent vid }
        ensures few { result ≤ GREATEST_TOLL * self.now.made }
    {
        match self.vehicles.get(&vid) {
            Some(vehicle) => vehicle.sum,
            None => 0,
        }
    }

    /// The sum of all accounts.
    pub fn total(&self) -> u64
        ensures total { result ≡ total_in self.now.spent }
        ensures few { result ≤ GREATEST_TOLL * self.now.made }
    {
        self.total
    }

    /// What each vehicle was charged on each expressway, as rows of a day in the order of vehicles and expressways,
    /// zero sums left out. The one error is want of memory.
    pub fn spent_rows(&self, day: u32) -> Result<Vec<SpentRow>, NoMemory>
        ensures { IfOk result (λ rows. AreRowsOf self.now.spent day rows.items) }
    {
        let mut rows = Vec::new(self.alloc);
        list_firsts(&mut rows, &self.vehicles, day)?;
        list_further(&mut rows, &self.further, day)?;
        sort_rows(&mut rows);
        Ok(rows)
    }
}
