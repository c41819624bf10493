// The amounts of the lines so far, by day, vehicle and expressway: the type.
ghost use Rattle.std.proofs.Props.{props};
ghost use Rattle.keep_office.specs.Office.{RowsRise};

use road_time::SpentRow;
use std::alloc::Global;
use std::collections::BTreeMap;

mod keyed;
mod taking;

/// Whose amount it is, and of which day, in the order in which amounts are kept.
#[derive(Clone, Copy, Debug, PartialEq, Eq, PartialOrd, Ord)]
pub struct Key {
    pub day: u32,
    pub vid: u32,
    pub xway: u8,
}

/// The amounts of the lines so far: in a list, as long as each comes behind all before it, and then in a map.
#[derive(Drop)]
pub struct Amounts {
    alloc: Global,
    rising: Vec<SpentRow>,
    by_key: BTreeMap<Key, u64>,
    is_rising: bool,
    ghost rise: { RowsRise rising.items } by { Prim.hlevel props },
}
