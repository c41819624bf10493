// The accounts that are kept twice.
ghost use Rattle.std.specs.Prelude.{◌≡◌, ◌≤◌, length, MatchResult};
ghost use Rattle.std.specs.HashMap.{spare};
ghost use Rattle.std.specs.FinMap.{from_entries};
ghost use Rattle.serve_board.specs.Totals.{no_totals, owed_in, with_charges, whole_with};
ghost use Rattle.serve_board.specs.Changes.{totals_with};

use crate::change::Change;
use crate::charge::charge;
use crate::live::Live;
use day_floor::Charged;
use std::alloc::{AllocError, Global};
use std::collections::HashMap;
use std::marker::Model;

/// Whether a day began, the day, the mark, the sum of each vehicle's charges, and the sum of all, in 64 bits.
#[derive(Drop)]
pub struct Shown {
    begun: bool,
    day: u32,
    mark: u64,
    sums: HashMap<u32, u64>,
    whole: u64,
}

impl Model for Shown {
    ghost use Rattle.std.specs.FinMap.{from_entries};
    ghost use Rattle.serve_board.specs.Totals.{Totals, totals_code};

    ghost Value = { Totals };

    ghost coded = { totals_code };

    ghost view = { λ s. record {
      begun = s.begun;
      number = s.day;
      mark = s.mark;
      sums = from_entries s.sums.entries;
      whole = s.whole;
    } };
}

impl Shown {
    /// Nothing was charged. It takes no memory.
    pub fn new(alloc: Global) -> Self
        ensures { result ≡ no_totals }
    {
        Shown {
            begun: false,
            day: 0,
            mark: 0,
            sums: HashMap::new(alloc),
            whole: 0,
        }
    }

    /// A vehicle's sum.
    pub fn balance(&self, vid: u32) -> Live
        ensures { result ≡ record { day = self.now.number; as_of = self.now.mark; amount = owed_in self.now.sums vid } }
    {
        let amount = match self.sums.get(&vid) {
            Some(sum) => *sum,
            None => 0,
        };
        Live {
            day: self.day,
            as_of: self.mark,
            amount,
        }
    }

    /// The sum of all.
    pub fn total(&self) -> Live
        ensures { result ≡ record { day = self.now.number; as_of = self.now.mark; amount = self.now.whole } }
    {
        Live {
            day: self.day,
            as_of: self.mark,
            amount: self.whole,
        }
    }

    /// Takes in a change whole, or at an error nothing of it. Charges before a day began count for nothing.
    pub fn absorb(&mut self, change: &Change) -> Result<(), AllocError>
        ensures { MatchResult result (λ _. self.new ≡ totals_with self.old change.now) (λ _. self.new ≡ self.old) }
    {
        match change {
            Change::Begins(day) => {
                self.sums.clear();
                self.begun = true;
                self.day = *day;
                self.mark = 0;
                self.whole = 0;
            }
            Change::Charges(charges, mark) => {
                if !self.begun {
                    return Ok(());
                }
                self.sums.reserve(charges.len())?;
                add_charges(&mut self.sums, &mut self.whole, charges.as_slice());
                self.mark = *mark;
            }
        }
        Ok(())
    }
}

/// Adds some charges to their vehicles' sums, and to the sum of all. It asks for room for as many vehicles, and takes
/// no memory.
pub fn add_charges(sums: &mut HashMap<u32, u64>, whole: &mut u64, charges: &[Charged])
    requires { length charges.now ≤ spare sums.old }
    ensures sums { from_entries sums.new.entries ≡ with_charges (from_entries sums.old.entries) charges.now }
    ensures whole { whole.new ≡ whole_with whole.old charges.now }
{
    for charged in charges {
        charge(sums, charged);
        *whole = whole.wrapping_add(charged.toll);
    }
}
