// When each vehicle stands where: found once, from the whole list.
ghost use Rattle.std.specs.Prelude.{◌≡◌, ◌∷◌, ◌++◌, ◌==◌, ℕ, nat_eq, false, reverse, IfOk, OnOk, List, Some};
ghost use Rattle.std.specs.HashMap.{get};
ghost use Rattle.road_time.specs.declared.road.Report.{Report as ReportValue};
ghost use Rattle.road_time.specs.Tuples.{reports, place_of as defined_place_of};
ghost use Rattle.road_time.specs.Stops.{last_seen, stands};
ghost use Rattle.road_rules.specs.Halts.{marks_of, halt_if, halts_of, covers as defined_covers};

use crate::places::report_of;
use road_time::{LastSeen, NoMemory, Place, Report, STOPPED_RUN, Tuple};
use std::alloc::Global;
use std::collections::HashMap;

/// A report, and whether its vehicle stands after it.
#[derive(Clone, Copy, Debug, PartialEq, Eq)]
pub struct Mark {
    pub report: Report,
    pub stands: bool,
}

/// A vehicle stands at a place from a second on, and until another, at which it is reported again, or to the end.
#[derive(Clone, Copy, Debug, PartialEq, Eq)]
pub struct Halt {
    pub vid: u32,
    pub place: Place,
    pub from: u32,
    pub to: Option<u32>,
}

/// The run after one more report.
fn next(last: Option<LastSeen>, here: Place) -> LastSeen
    ensures { (own : List ReportValue) → (r : ReportValue) → last_seen own ≡ last → defined_place_of r ≡ here
        → last_seen (r ∷ own) ≡ Some result }
{
    match last {
        None => LastSeen {
            place: here,
            run: 1,
        },
        Some(seen) => {
            if seen.place != here {
                LastSeen {
                    place: here,
                    run: 1,
                }
            } else if seen.run < STOPPED_RUN {
                LastSeen {
                    place: here,
                    run: seen.run + 1,
                }
            } else {
                LastSeen {
                    place: here,
                    run: STOPPED_RUN,
                }
            }
        }
    }
}

/// Whether the vehicle stands after its next report.
fn see(seen: &mut HashMap<u32, LastSeen>, r: &Report) -> Result<bool, NoMemory>
    ensures stands { IfOk result (λ b. (own : List ReportValue) → last_seen own ≡ get nat_eq seen.old r.now.vid
        → b ≡ stands (r.now ∷ own) (defined_place_of r.now)) }
    ensures run { OnOk result ((own : List ReportValue) → last_seen own ≡ get nat_eq seen.old r.now.vid
        → last_seen (r.now ∷ own) ≡ get nat_eq seen.new r.now.vid) }
    ensures others { OnOk result ((v : ℕ) → (r.now.vid == v) ≡ false → get nat_eq seen.new v ≡ get nat_eq seen.old v) }
{
    let now = next(seen.get(&r.vid).copied(), r.place());
    seen.insert(r.vid, now)?;
    Ok(now.run == STOPPED_RUN)
}

/// The reports, each with whether its vehicle stands after it.
fn marks(alloc: Global, tuples: &[Tuple]) -> Result<Vec<Mark>, NoMemory>
    ensures { IfOk result (λ marks. reverse marks.items ≡ marks_of (reverse (reports tuples.now))) }
{
    let mut seen: HashMap<u32, LastSeen> = HashMap::new(alloc);
    let mut marks: Vec<Mark> = Vec::new(alloc);
    for tuple in tuples {
        if let Some(report) = report_of(tuple) {
            let stands = see(&mut seen, &report)?;
            marks.push(Mark { report, stands })?;
        }
    }
    Ok(marks)
}

/// Adds the time for which a vehicle stands after a report, if it does.
fn add_halt(halts: &mut Vec<Halt>, mark: &Mark, to: Option<u32>) -> Result<(), NoMemory>
    ensures { OnOk result (halts.new.items ≡ halts.old.items ++ halt_if mark.now.stands mark.now.report to) }
{
    if mark.stands {
        halts.push(Halt {
            vid: mark.report.vid,
            place: mark.report.place(),
            from: mark.report.time,
            to,
        })?;
    }
    Ok(())
}

/// When each vehicle stands where.
pub fn halts(alloc: Global, tuples: &[Tuple]) -> Result<Vec<Halt>, NoMemory>
    ensures { IfOk result (λ halts. halts.items ≡ halts_of (reports tuples.now)) }
{
    let marks = marks(alloc, tuples)?;
    let mut nexts: HashMap<u32, u32> = HashMap::new(alloc);
    let mut halts: Vec<Halt> = Vec::new(alloc);
    let mut rest = marks.as_slice();
    while let Some((mark, older)) = rest.split_last() {
        add_halt(&mut halts, mark, nexts.get(&mark.report.vid).copied())?;
        nexts.insert(mark.report.vid, mark.report.time)?;
        rest = older;
    }
    Ok(halts)
}

/// Whether the vehicle stands at the end of the second.
pub fn covers(second: u32, halt: &Halt) -> bool
    ensures { result ≡ defined_covers second halt.now }
{
    halt.from <= second
        && match halt.to {
            None => true,
            Some(to) => second < to,
        }
}
