// Comparing the notices of one second with what an aside has next, in any order.
ghost use Rattle.std.specs.Prelude.{◌≡◌, ◌≢◌, ◌≤◌, ◌<◌, ◌+◌, ◌-◌, ◌^◌, ◌++◌, ◌∷◌, [], ℕ, List, Err, IfOk, OnOk, length};
ghost use Rattle.road_io.specs.Plans.{NeverFails};
ghost use Rattle.road_io.specs.Cutter.{ahead, line_of};
ghost use Rattle.road_io.specs.Blame.{FaultsByPlan};
ghost use Rattle.day_reading.specs.declared.whole_day.ReadStop.TheVariants.{ReadFault};
ghost use Rattle.ways_audit.specs.Seconds.{count_in, still};
ghost use Rattle.office_commands.specs.declared.difference.Difference.{Difference as DifferenceValue};
ghost use Rattle.office_commands.specs.declared.difference.DifferenceKind.TheVariants.{Missing};
ghost use Rattle.office_commands.specs.declared.entry_text.EntryText.TheVariants.{Read};
ghost use Rattle.office_commands.specs.AnyOrder.{missing_at};
ghost use Rattle.office_commands.specs.Differences.{differs_at};
ghost use Rattle.office_commands.specs.Entries.{HasReadEntries};
ghost use Rattle.office_commands.specs.Listings.{IsReady};
ghost use Rattle.office_commands.specs.Turns.{Onward, ListsSecond, ReachTo, ToldTo};

use crate::difference::{Difference, DifferenceKind};
use crate::entry_text::EntryText;
use crate::listing::Spot;
use crate::turns::{Turn, found_at, next_turn};
use day_reading::ReadStop;
use road_io::{LineCutter, Source};
use road_time::Notice;
use std::alloc::Global;
use ways_audit::StillToCome;

/// How far a list came: behind a second and onward, or to its end, which is the end of all, or as many differences as
/// are asked for.
#[derive(Clone, Copy, Debug, PartialEq)]
pub enum Reach {
    Onward,
    Whole,
}

/// Lists a missing notice before the line of a number.
fn tell_missing(
    list: &mut Vec<Difference>,
    line: u64,
    notice: &Notice,
    found: EntryText,
) -> Result<(), ReadStop>
    ensures told { OnOk result (list.new.items
        ≡ list.old.items ++ differs_at Missing line (Read notice.now) found ∷ []) }
    ensures memory { result ≢ Err ReadFault }
{
    let missing = Difference {
        line,
        kind: DifferenceKind::Missing,
        wanted: EntryText::Read(*notice),
        found,
    };
    match list.push(missing) {
        Ok(()) => Ok(()),
        Err(_) => Err(ReadStop::NoMemory),
    }
}

/// Lists the notices of a second that did not come, until so many differences are listed.
fn missing(
    run: &[Notice],
    coming: &mut StillToCome,
    line: u64,
    found: EntryText,
    most: usize,
    list: &mut Vec<Difference>,
) -> Result<Reach, ReadStop>
    requires few { length list.old.items ≤ most }
    ensures exact { (all rest : List DifferenceValue)
        → all ≡ list.old.items ++ (missing_at line found (still coming.old) run.now ++ rest)
        → IfOk result (λ r. ToldTo r most all list.new.items rest) }
    ensures few { IfOk result (λ r. (length list.old.items ≤ length list.new.items)
        × (length list.new.items ≤ most)) }
    ensures memory { result ≢ Err ReadFault }
{
    for notice in run {
        if list.as_slice().len() == most {
            return Ok(Reach::Whole);
        }
        if !coming.take(notice) {
            continue;
        }
        match tell_missing(list, line, notice, found) {
            Ok(()) => {}
            Err(stop) => return Err(stop),
        }
    }
    Ok(Reach::Onward)
}

/// Compares the notices of a second with what an aside has next and what follows, and lists what differs, until so many
/// differences are listed.
pub(crate) fn one_second<A: Source>(
    alloc: Global,
    most: usize,
    run: &[Notice],
    spot: &mut Spot,
    cutter: &mut LineCutter,
    aside: &mut A,
    list: &mut Vec<Difference>,
) -> Result<Reach, ReadStop>
    requires few { length list.old.items ≤ most }
    requires line { spot.old.line + length run.now + (most - length list.old.items) + 1 < 2 ^ 64 }
    requires ready { IsReady spot.old.entry cutter.old spot.old.line }
    ensures exact { (all : List DifferenceValue) (behind : Onward)
        → ListsSecond all list.old.items run.now behind (length run.now) (count_in run.now) spot.old.line spot.old.entry
        (line_of cutter.old) (ahead cutter.old (A.left aside.old))
        → IfOk result (λ r. ReachTo r most all list.new.items behind spot.new.line spot.new.entry (line_of cutter.new)
        (ahead cutter.new (A.left aside.new))) }
    ensures few { IfOk result (λ r. (length list.old.items ≤ length list.new.items)
        × (length list.new.items ≤ most)) }
    ensures line { IfOk result (λ r. spot.new.line + length list.old.items
        ≤ spot.old.line + length run.now + length list.new.items) }
    ensures ready { IfOk result (λ r. IsReady spot.new.entry cutter.new spot.new.line) }
    ensures read { (bytes : List ℕ) → HasReadEntries (ahead cutter.old (A.left aside.old)) spot.old.line bytes
        → IfOk result (λ r. HasReadEntries (ahead cutter.new (A.left aside.new)) spot.new.line bytes) }
    ensures read_most { (bytes : List ℕ) → HasReadEntries (ahead cutter.old (A.left aside.old)) spot.old.line bytes
        → HasReadEntries (ahead cutter.new (A.left aside.new))
        (spot.old.line + length run.now + (most - length list.old.items)) bytes }
    ensures aside { FaultsByPlan (A.faults aside.old) (A.faults aside.new) (A.plan aside.old) (result ≡ Err ReadFault) }
    ensures still { NeverFails (A.plan aside.old) → NeverFails (A.plan aside.new) }
{
    let Ok(mut coming) = StillToCome::new(alloc, run) else {
        return Err(ReadStop::NoMemory);
    };
    let mut left = run.len();
    while left > 0 {
        if list.as_slice().len() == most {
            return Ok(Reach::Whole);
        }
        match next_turn(run, &mut coming, spot, cutter, aside, list) {
            Ok(Turn::Came) => left -= 1,
            Ok(Turn::Stayed) => {}
            Ok(Turn::Behind) => {
                let found = found_at(spot.entry, cutter.line());
                return missing(run, &mut coming, spot.line, found, most, list);
            }
            Ok(Turn::Ended) => return Ok(Reach::Whole),
            Err(stop) => return Err(stop),
        }
    }
    Ok(Reach::Onward)
}
