// The commands of the program, and why words are none.

use day_plan::Plan;
use thiserror::Error;

/// How much traffic is generated: 1 to 5,000 vehicles, 1 to 1,440 minutes, 1 to 256 expressways, and up to 100 crashes,
/// each of two of the vehicles.
#[derive(Clone, Copy, Debug, PartialEq)]
pub struct Size {
    pub vehicles: u32,
    pub minutes: u32,
    pub xways: u16,
    pub crashes: u32,
}

/// What a day's run is told: the day, 70 to 1,000,000, by how many seconds its lines may come late, 0 to 120, how its
/// work is done, and how many tuples may wait between being read and being answered, 1 to 65,536.
#[derive(Clone, Copy, Debug, PartialEq)]
pub struct DayRun {
    pub day: u32,
    pub late: u8,
    pub plan: Plan,
    pub backlog: u32,
}

/// How the notices of a day are recomputed: by the plain rules, or in bulk, by 1 to 64 shards of vehicles and over 1
/// to 64 workers.
#[derive(Clone, Copy, Debug, PartialEq)]
pub enum Recomputing {
    Plainly,
    InBulk { shards: u8, width: u8 },
}

/// What a comparison is told: the day, 70 to 1,000,000, by how many seconds its lines may come late, 0 to 120, how its
/// notices are recomputed, how many of the lines that differ are told, 1 to 1,000, and whether the notices of a second
/// may stand in any order.
#[derive(Clone, Copy, Debug, PartialEq)]
pub struct Comparison {
    pub day: u32,
    pub late: u8,
    pub how: Recomputing,
    pub show: u32,
    pub any_order: bool,
}

/// A command with its numbers, each in its range. Lines may come late by 0 to 120 seconds.
#[derive(Clone, Copy, Debug, PartialEq)]
pub enum Command {
    /// Answers the reports and requests of one day.
    Answers(DayRun),
    /// Imports a day: answers it and keeps it.
    Import(DayRun),
    /// Compares notices with those of a day, as `validate` and `audit` do.
    Compare(Comparison),
    /// Keeps a history, its days counted back from a base, 70 to 1,000,000.
    Past {
        base: u32,
    },
    /// States what is kept of a day.
    Day {
        day: u32,
    },
    /// States what is kept of a vehicle on the days `from` to `to`, both included, 1 to 1,000,000.
    Vehicle {
        vid: u32,
        from: u32,
        to: u32,
    },
    /// Lists the accidents of a day.
    Accidents {
        late: u8,
    },
    /// Exports the amounts of a day.
    Export {
        day: u32,
    },
    /// Gives an expressway a tariff.
    Tariff {
        xway: u8,
        crowd: u32,
        speed: u8,
        factor: u8,
    },
    /// Lists the tariffs.
    Tariffs,
    /// Generates traffic from a seed.
    Generate {
        seed: u64,
        size: Size,
    },
    /// Generates traffic from a seed and imports it as day 100, beside all that is kept.
    Rehearse {
        seed: u64,
        size: Size,
        run: DayRun,
    },
    /// Lists the kept days.
    Days,
    /// Exports what all vehicles were charged on the days `from` to `to`, both included, 1 to 1,000,000.
    Charges {
        from: u32,
        to: u32,
    },
    /// Names the lines of a day that are refused.
    Check {
        day: u32,
        late: u8,
    },
}

/// Why there is no command.
#[derive(Clone, Copy, Debug, PartialEq, Error)]
pub enum WordFault {
    /// The words are of no stated form.
    #[error("the words are of no stated form")]
    Words,
    /// Memory ran out.
    #[error("no memory")]
    NoMemory,
}
