// Counting lines, and naming those that are refused.
ghost use Rattle.std.specs.Prelude.{◌≡◌, ◌+◌, ◌++◌, ◌∷◌, [], ℕ, List, Option, OnOk, length, take};
ghost use Rattle.std.specs.Option.{option_map};
ghost use Rattle.road_time.specs.Form.{Fault};
ghost use Rattle.tuples_text.specs.Causes.{cause_of};
ghost use Rattle.day_reading.specs.Checked.{Checked, unchecked, checked_by};
ghost use Rattle.day_reading.specs.Checking.{Tallies};
ghost use Rattle.day_reading.specs.declared.tally.Refusal.{Refusal as RefusalValue};

use super::{Refusal, Tally};
use road_time::NoMemory;
use std::alloc::Global;
use tuples_text::Cause;

/// So many refused lines are named, at most.
const MOST_NAMED: usize = 1_000;

/// Names a refused line, unless enough are named.
fn name(named: &mut Vec<Refusal>, refusal: Refusal) -> Result<(), NoMemory>
    ensures { OnOk result ((all : List RefusalValue) → named.old.items ≡ take 1000 all
        → named.new.items ≡ take 1000 (all ++ refusal ∷ [])) }
{
    if named.as_slice().len() >= MOST_NAMED {
        return Ok(());
    }
    named.push(refusal)?;
    Ok(())
}

impl Tally {
    /// No line was checked.
    pub fn new(alloc: Global) -> Tally
        ensures { Tallies result unchecked }
    {
        Tally {
            lines: 0,
            refused: 0,
            named: Vec::new(alloc),
        }
    }

    /// How many lines were not refused.
    pub fn good(&self) -> u64
        ensures { (c : Checked) → Tallies self.now c → result ≡ length c.kept }
    {
        self.lines - self.refused
    }

    /// Counts one line more, which is good or refused.
    pub fn count(&mut self, cause: Option<Cause>) -> Result<(), NoMemory>
        ensures { OnOk result ((c : Checked) (line : List ℕ) (fault : Option Fault) → Tallies self.old c
            → cause ≡ option_map cause_of fault → Tallies self.new (checked_by fault c line)) }
    {
        let Some(lines) = self.lines.checked_add(1) else {
            return Err(NoMemory);
        };
        match cause {
            None => {
                self.lines = lines;
                Ok(())
            }
            Some(cause) => {
                name(&mut self.named, Refusal { line: lines, cause })?;
                self.lines = lines;
                self.refused += 1;
                Ok(())
            }
        }
    }
}
