// What is kept of a tuple that waits to be settled.
ghost use Rattle.std.specs.Prelude.{◌≡◌, ◌<◌, ◌==◌, ◌&&◌, not, List, None, length, slice_index, slice_set, slice_get};
ghost use Rattle.std.specs.Prelude.{Some};
ghost use Rattle.std.specs.VecDeque.{deque_len};
ghost use Rattle.road_time.specs.declared.road.Tuple.{Tuple as TupleValue};
ghost use Rattle.road_time.specs.declared.road.Tuple.TheVariants.{Report as ReportTuple};
ghost use Rattle.road_time.specs.Day.{no_finding};
ghost use Rattle.road_time.specs.Sights.{Sight};
ghost use Rattle.road_time.specs.Tolls.{StretchTold};
ghost use Rattle.road_time.specs.Tuples.{report_of};
ghost use Rattle.day_floor.specs.CrossingsLaws.{TellsOfDay};
ghost use Rattle.day_floor.specs.Slots.{slot_of, due_of, found_of};
ghost use Rattle.day_floor.specs.declared.due_slot.Due.TheVariants.{Report as ReportDue};
ghost use Rattle.day_floor.specs.declared.due_slot.Slot.{Slot as SlotValue};

use crate::tracked::{Charge, Tracked};
use road_time::{EXIT_LANE, Report, Tuple};
use std::collections::VecDeque;

/// What was found for a position: the toll, the average in whole miles per hour, -1 for none, and the segment of the
/// nearest accident ahead. Fields lie in memory as they are declared, so the large one is the first.
#[derive(Clone, Copy, Debug, PartialEq, Eq)]
pub struct Found {
    pub toll: u64,
    pub lav: i16,
    pub alert: Option<u8>,
}

/// What a tuple calls for when it is settled, as far as it is known when it comes.
#[derive(Clone, Copy, Debug, PartialEq, Eq)]
pub enum Due {
    Nothing,
    /// A report: the stay that it leaves with a charge, and whether it is told what was found.
    Report {
        time: u32,
        vid: u32,
        charge: Charge,
        told: bool,
    },
    Balance {
        time: u32,
        vid: u32,
        qid: u32,
    },
    Spent {
        time: u32,
        vid: u32,
        qid: u32,
        xway: u8,
        day: u8,
    },
}

/// A position that waits: what it calls for, and what was found for it.
#[derive(Clone, Copy, Debug, PartialEq, Eq)]
pub struct Slot {
    pub found: Found,
    pub due: Due,
}

impl Found {
    /// Nothing was found yet.
    #[inline(always)]
    pub fn none_yet() -> Found
        ensures { result ≡ found_of no_finding }
    {
        Found {
            lav: -1,
            toll: 0,
            alert: None,
        }
    }
}

impl Due {
    /// What a report calls for, by what the tracker told of it.
    #[inline(always)]
    pub fn of_report(report: &Report, tracked: &Tracked) -> Due
        ensures { result ≡ ReportDue report.now.time report.now.vid tracked.now.charge
            (tracked.now.begins && not (report.now.lane == 4)) }
    {
        Due::Report {
            time: report.time,
            vid: report.vid,
            charge: tracked.charge,
            told: tracked.begins && report.lane != EXIT_LANE,
        }
    }

    /// What a tuple calls for that is no report.
    #[inline(always)]
    pub fn of_request(tuple: &Tuple) -> Due
        ensures { (day : List TupleValue) → report_of tuple.now ≡ None → result ≡ due_of (day, tuple.now) }
    {
        match *tuple {
            Tuple::Balance { time, vid, qid } => Due::Balance { time, vid, qid },
            Tuple::Spent {
                time,
                vid,
                xway,
                qid,
                day,
            } => Due::Spent {
                time,
                vid,
                xway,
                qid,
                day,
            },
            _ => Due::Nothing,
        }
    }
}

impl Slot {
    /// The slot of a report, by what the tracker told of it.
    #[inline(always)]
    pub fn of_report(report: &Report, tracked: &Tracked) -> Slot
        ensures { (finding : Sight → StretchTold) (day : List TupleValue) → TellsOfDay tracked.now day report.now
            → finding (length day, report.now) ≡ no_finding
            → result ≡ slot_of finding (day, ReportTuple report.now) }
    {
        Slot {
            due: Due::of_report(report, tracked),
            found: Found::none_yet(),
        }
    }

    /// The slot of a tuple that is no report.
    #[inline(always)]
    pub fn of_request(tuple: &Tuple) -> Slot
        ensures { (finding : Sight → StretchTold) (day : List TupleValue) → report_of tuple.now ≡ None
            → result ≡ slot_of finding (day, tuple.now) }
    {
        Slot {
            due: Due::of_request(tuple),
            found: Found::none_yet(),
        }
    }
}

/// Puts what was found into the slot of its position.
#[inline(always)]
pub fn fill(slots: &mut VecDeque<Slot>, at: usize, found: Found)
    requires { at < deque_len slots.old }
    ensures len { deque_len slots.new ≡ deque_len slots.old }
    ensures filled { (slot : SlotValue) → slice_get slots.old.items at ≡ Some slot
        → slots.new.items ≡ slice_set slots.old.items at (record { due = slot.due; found = found }) }
{
    slots[at].found = found;
}
