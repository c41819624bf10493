// The tuples that wait, in the order of Time.
ghost use Rattle.std.specs.Prelude.{◌≡◌, ◌++◌, ◌∷◌, [], OnOk, OnErr, IfSome, IfNone, option_copied, slice_get};
ghost use Rattle.std.specs.Map.{values_of};
ghost use Rattle.road_time.specs.Order.{placed};
ghost use Rattle.tuples_text.specs.Turns.{Keyed};

use road_time::{NoMemory, Tuple};
use std::alloc::Global;
use std::collections::BTreeMap;
use std::marker::Model;

/// The place of a waiting tuple: by Time, and then as they came.
#[derive(Clone, Copy, Debug, PartialEq, Eq, PartialOrd, Ord)]
pub struct WaitingTurn {
    pub time: u32,
    pub number: u64,
}

/// Tuples in the order of Time, those of equal Time as they came. One that waits alone needs no turn.
#[derive(Drop)]
pub struct Waiting {
    only: Option<Tuple>,
    turns: BTreeMap<WaitingTurn, Tuple>,
    count: u64,
}

impl Model for Waiting {
    ghost use Rattle.std.specs.Prelude.{List};
    ghost use Rattle.road_time.specs.declared.road.Tuple.{Tuple};
    ghost use Rattle.tuples_text.specs.Turns.{waiting_of, HasTurns};

    ghost Value = { List Tuple };

    ghost view = { λ w. waiting_of w.only w.turns.entries };

    ghost invariant = { λ w. HasTurns w.only w.count w.turns.entries };
}

/// Gives a tuple its turn behind those that are not later. It takes a copy, so that the caller's stays in registers.
#[cold]
#[inline(never)]
fn place(
    turns: &mut BTreeMap<WaitingTurn, Tuple>,
    count: &mut u64,
    tuple: Tuple,
) -> Result<(), NoMemory>
    requires { Keyed count.old turns.old.entries }
    ensures keyed { Keyed count.new turns.new.entries }
    ensures put { OnOk result (values_of turns.new.entries ≡ placed (values_of turns.old.entries) tuple) }
    ensures kept { OnErr result (turns.new.entries ≡ turns.old.entries) }
{
    let Some(next) = count.checked_add(1) else {
        return Err(NoMemory);
    };
    let turn = WaitingTurn {
        time: tuple.time(),
        number: *count,
    };
    turns.insert(turn, tuple)?;
    *count = next;
    Ok(())
}

impl Waiting {
    /// No tuple waits.
    pub fn new(alloc: Global) -> Self
        ensures { result ≡ [] }
    {
        Waiting {
            only: None,
            turns: BTreeMap::new(alloc),
            count: 0,
        }
    }

    /// Puts a tuple behind those that are not later.
    pub fn put(&mut self, tuple: &Tuple) -> Result<(), NoMemory>
        ensures put { OnOk result (self.new ≡ placed self.old tuple.now) }
        ensures kept { OnErr result (self.new ≡ self.old) }
    {
        match self.only {
            None => {
                if self.turns.is_empty() {
                    self.only = Some(*tuple);
                    return Ok(());
                }
                place(&mut self.turns, &mut self.count, *tuple)
            }
            Some(first) => {
                place(&mut self.turns, &mut self.count, first)?;
                self.only = None;
                place(&mut self.turns, &mut self.count, *tuple)
            }
        }
    }

    /// The first tuple.
    pub fn first(&self) -> Option<&Tuple>
        ensures { option_copied result ≡ slice_get self.now 0 }
    {
        match &self.only {
            Some(first) => Some(first),
            None => {
                let (_, tuple) = self.turns.first_key_value()?;
                Some(tuple)
            }
        }
    }

    /// Takes the first tuple out.
    pub fn take(&mut self) -> Option<Tuple>
        ensures first { IfSome result (λ x. self.old ≡ x ∷ self.new) }
        ensures none { IfNone result (self.old ≡ []) }
        ensures kept { IfNone result (self.new ≡ self.old) }
    {
        match self.only.take() {
            Some(first) => Some(first),
            None => {
                let (_, tuple) = self.turns.pop_first()?;
                Some(tuple)
            }
        }
    }
}
