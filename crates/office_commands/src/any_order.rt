// Comparing notices with the lines of an aside, where the notices of one second may stand in any order.
ghost use Rattle.std.specs.Prelude.{◌≡◌, ◌≢◌, ◌≤◌, ◌<◌, ◌+◌, ◌-◌, ◌^◌, [], ℕ, List, Some, Err, IfOk, IfErr, OnOk};
ghost use Rattle.std.specs.Prelude.{length, take, drop, true};
ghost use Rattle.road_time.specs.Lines.{lines_of};
ghost use Rattle.road_io.specs.Plans.{NeverFails};
ghost use Rattle.road_io.specs.Cutter.{ahead, line_of};
ghost use Rattle.road_io.specs.Within.{ReadsWithin};
ghost use Rattle.road_io.specs.Blame.{FaultsByPlan};
ghost use Rattle.day_reading.specs.declared.whole_day.ReadStop.TheVariants.{ReadFault};
ghost use Rattle.ways_audit.specs.Seconds.{seconds};
ghost use Rattle.office_commands.specs.declared.difference.Difference.{Difference as DifferenceValue};
ghost use Rattle.office_commands.specs.AnyOrder.{differences_by_second, compared_in, differences_in};
ghost use Rattle.office_commands.specs.Closings.{status_of};
ghost use Rattle.office_commands.specs.Differences.{told_before, differences};
ghost use Rattle.office_commands.specs.Entries.{entered, HasReadEntries, IsComparison, most_compared};
ghost use Rattle.office_commands.specs.Listings.{IsReady, StandsAt, ListsOn, most_listed};
ghost use Rattle.office_commands.specs.Turns.{ListsSeconds, ReachTo};

use crate::aside::{AsideEntry, next_entry};
use crate::closing::Closing;
use crate::difference::Difference;
use crate::listed::closing_by;
use crate::listing::{Spot, Step, next_step};
use crate::second::{Reach, one_second};
use day_reading::ReadStop;
use road_io::{LineCutter, Source};
use road_time::Notice;
use std::alloc::Global;
use ways_audit::first_second;

/// The notices of the first second.
fn first_some(notices: &[Notice], some: usize) -> &[Notice]
    requires { some ≤ length notices.now }
    ensures { result.now ≡ take some notices.now }
{
    &notices[..some]
}

/// The notices behind the first second.
fn behind_some(notices: &[Notice], some: usize) -> &[Notice]
    requires { some ≤ length notices.now }
    ensures { result.now ≡ drop some notices.now }
{
    &notices[some..]
}

/// Compares notices, second by second, with what an aside has next and what follows, and lists what differs, until so
/// many differences are listed.
fn all_seconds<A: Source>(
    alloc: Global,
    most: usize,
    wanted: &[Notice],
    spot: &mut Spot,
    cutter: &mut LineCutter,
    aside: &mut A,
    list: &mut Vec<Difference>,
) -> Result<Reach, ReadStop>
    requires empty { list.old.items ≡ [] }
    requires few { most ≤ 1000 }
    requires line { spot.old.line ≡ 1 }
    requires ready { IsReady spot.old.entry cutter.old spot.old.line }
    ensures exact { (all : List DifferenceValue)
        → ListsSeconds all list.old.items wanted.now spot.old.line spot.old.entry (line_of cutter.old)
        (ahead cutter.old (A.left aside.old))
        → IfOk result (λ r. ReachTo r most all list.new.items (λ m ks. differences [] m ks) spot.new.line spot.new.entry
        (line_of cutter.new) (ahead cutter.new (A.left aside.new))) }
    ensures few { IfOk result (λ r. length list.new.items ≤ most) }
    ensures line { IfOk result (λ r. spot.new.line ≤ 1 + length wanted.now + length list.new.items) }
    ensures ready { IfOk result (λ r. IsReady spot.new.entry cutter.new spot.new.line) }
    ensures read { (bytes : List ℕ) → HasReadEntries (ahead cutter.old (A.left aside.old)) 1 bytes
        → IfOk result (λ r. HasReadEntries (ahead cutter.new (A.left aside.new)) spot.new.line bytes) }
    ensures read_most { (bytes : List ℕ) → HasReadEntries (ahead cutter.old (A.left aside.old)) 1 bytes
        → HasReadEntries (ahead cutter.new (A.left aside.new)) (1 + length wanted.now + most) bytes }
    ensures aside { FaultsByPlan (A.faults aside.old) (A.faults aside.new) (A.plan aside.old) (result ≡ Err ReadFault) }
    ensures still { NeverFails (A.plan aside.old) → NeverFails (A.plan aside.new) }
{
    let mut rest = wanted;
    while !rest.is_empty() {
        let some = first_second(rest);
        let run = first_some(rest, some);
        match one_second(alloc, most, run, spot, cutter, aside, list) {
            Ok(Reach::Onward) => rest = behind_some(rest, some),
            Ok(Reach::Whole) => return Ok(Reach::Whole),
            Err(stop) => return Err(stop),
        }
    }
    Ok(Reach::Onward)
}

/// Lists the lines behind all notices, until so many differences are listed.
fn lines_over<A: Source>(
    most: usize,
    spot: &mut Spot,
    cutter: &mut LineCutter,
    aside: &mut A,
    room: &mut Vec<u8>,
    list: &mut Vec<Difference>,
) -> Result<(), ReadStop>
    requires few { length list.old.items ≤ most }
    requires line { spot.old.line + (most - length list.old.items) + 1 < 2 ^ 64 }
    requires ready { IsReady spot.old.entry cutter.old spot.old.line }
    ensures exact { (all : List DifferenceValue)
        → ListsOn all list.old.items [] spot.old.line spot.old.entry (line_of cutter.old)
        (ahead cutter.old (A.left aside.old))
        → OnOk result (list.new.items ≡ take most all) }
    ensures read { (bytes : List ℕ) → HasReadEntries (ahead cutter.old (A.left aside.old)) spot.old.line bytes
        → HasReadEntries (ahead cutter.new (A.left aside.new)) (spot.old.line + (most - length list.old.items)) bytes }
    ensures aside { FaultsByPlan (A.faults aside.old) (A.faults aside.new) (A.plan aside.old) (result ≡ Err ReadFault) }
{
    while list.as_slice().len() < most {
        match next_step(&[], spot, cutter, aside, room, list) {
            Ok(Step::Stayed) => {}
            Ok(Step::Ended) => return Ok(()),
            Ok(Step::Passed) => return Ok(()),
            Err(stop) => return Err(stop),
        }
    }
    Ok(())
}

/// Lists the first differences, at most so many, of notices from what an aside has next and what follows.
fn list_seconds<A: Source>(
    alloc: Global,
    most: usize,
    wanted: &[Notice],
    entry: AsideEntry,
    cutter: &mut LineCutter,
    aside: &mut A,
) -> Result<Vec<Difference>, ReadStop>
    requires few { most ≤ 1000 }
    requires ready { IsReady entry cutter.old 1 }
    ensures exact { (entries : List (List ℕ))
        → StandsAt entry (line_of cutter.old) (ahead cutter.old (A.left aside.old)) entries
        → IfOk result (λ list. list.items ≡ take most (differences_by_second (seconds wanted.now) 1 entries)) }
    ensures read { (bytes : List ℕ) → HasReadEntries (ahead cutter.old (A.left aside.old)) 1 bytes
        → HasReadEntries (ahead cutter.new (A.left aside.new)) (1 + length wanted.now + most) bytes }
    ensures aside { FaultsByPlan (A.faults aside.old) (A.faults aside.new) (A.plan aside.old) (result ≡ Err ReadFault) }
{
    let mut spot = Spot { line: 1, entry };
    let mut list = Vec::new(alloc);
    match all_seconds(alloc, most, wanted, &mut spot, cutter, aside, &mut list) {
        Ok(Reach::Onward) => {}
        Ok(Reach::Whole) => return Ok(list),
        Err(stop) => return Err(stop),
    }
    let mut room = Vec::new(alloc);
    match lines_over(most, &mut spot, cutter, aside, &mut room, &mut list) {
        Ok(()) => Ok(list),
        Err(stop) => Err(stop),
    }
}

/// The first differences of notices from the lines of an aside, at most so many.
fn first_by_second<A: Source>(
    alloc: Global,
    most: usize,
    wanted: &[Notice],
    aside: &mut A,
) -> Result<Vec<Difference>, ReadStop>
    requires few { most ≤ 1000 }
    ensures exact { (lines : List ℕ) → A.left aside.old ≡ Some lines
        → IfOk result (λ list. list.items
        ≡ take most (differences_by_second (seconds wanted.now) 1 (entered lines))) }
    ensures bounded { ReadsWithin (most_compared (length wanted.now + most)) (A.left aside.old) (A.left aside.new) }
    ensures aside { FaultsByPlan (A.faults aside.old) (A.faults aside.new) (A.plan aside.old) (result ≡ Err ReadFault) }
{
    let Ok(mut cutter) = LineCutter::new(alloc) else {
        return Err(ReadStop::NoMemory);
    };
    match next_entry(&mut cutter, aside) {
        Ok(entry) => list_seconds(alloc, most, wanted, entry, &mut cutter, aside),
        Err(stop) => Err(stop),
    }
}

/// Compares notices with the lines of an aside, those of one second in any order, and gives the first differences,
/// where more than one is asked for.
pub(crate) fn list_in_any_order<A: Source>(
    alloc: Global,
    show: u32,
    wanted: &[Notice],
    aside: &mut A,
    shown: &mut Vec<Difference>,
) -> Result<Closing, ReadStop>
    requires some { 1 ≤ show }
    requires few { show ≤ 1000 }
    requires empty { shown.old.items ≡ [] }
    ensures exact { (lines : List ℕ) → A.left aside.old ≡ Some lines
        → IfOk result (λ c. c ≡ compared_in true wanted.now (lines_of lines)) }
    ensures listed { (lines : List ℕ) → A.left aside.old ≡ Some lines
        → IfOk result (λ c. shown.new.items ≡ told_before show (differences_in true wanted.now (entered lines))) }
    ensures own { IfOk result IsComparison }
    ensures none { IfOk result (λ c. status_of c ≢ 7 → shown.new.items ≡ []) }
    ensures stopped { IfErr result (λ e. shown.new.items ≡ []) }
    ensures bounded { ReadsWithin (most_listed true show (length wanted.now)) (A.left aside.old) (A.left aside.new) }
    ensures aside { FaultsByPlan (A.faults aside.old) (A.faults aside.new) (A.plan aside.old) (result ≡ Err ReadFault) }
{
    let list = match first_by_second(alloc, show as usize, wanted, aside) {
        Ok(list) => list,
        Err(stop) => return Err(stop),
    };
    let closing = closing_by(wanted, list.as_slice());
    if show < 2 {
        return Ok(closing);
    }
    *shown = list;
    Ok(closing)
}
