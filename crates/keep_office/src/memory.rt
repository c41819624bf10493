// Keepers in memory, which fail where they are told to: the types.
ghost use Rattle.std.proofs.Props.{props};
ghost use Rattle.keep_office.specs.Office.{IsSound};

mod late_calls;
mod mem_calls;
mod office;
mod old;
mod puts;
mod turns;

use crate::kept::{DayRecord, PastRecord};
use road_time::{SpentRow, Tariffs};
use std::alloc::Global;

/// What an office keeps, in memory.
#[derive(Drop)]
pub struct MemOffice {
    alloc: Global,
    days: Vec<DayRecord>,
    rows: Vec<SpentRow>,
    past: Option<PastRecord>,
    tariffs: Tariffs,
    ghost sound: { IsSound
        (record { days = days.items; rows = rows.items; past = past; tariffs = tariffs }) } by { Prim.hlevel props },
}

/// Which calls of a keeper fail, how many were made, and how many failed.
#[derive(Drop)]
pub struct Failing {
    fails: Vec<u32>,
    calls: u64,
    faults: u64,
}

/// A keeper in memory.
#[derive(Drop)]
pub struct MemKeeper {
    office: MemOffice,
    failing: Failing,
}

/// A keeper in memory of which a put that is to fail is done whole before it does.
#[derive(Drop)]
pub struct LateKeeper {
    office: MemOffice,
    failing: Failing,
}
