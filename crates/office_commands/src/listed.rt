// The first lines at which notices part from those of the rules, and the closing line of their comparison.
ghost use Rattle.std.specs.Prelude.{◌≡◌, ◌≢◌, ◌≤◌, ◌+◌, [], ℕ, List, Some, Err, IfOk, IfErr};
ghost use Rattle.std.specs.Prelude.{length, take, drop, false};
ghost use Rattle.road_time.specs.Lines.{lines_of};
ghost use Rattle.road_io.specs.Cutter.{ahead, line_of};
ghost use Rattle.road_io.specs.Within.{ReadsWithin};
ghost use Rattle.road_io.specs.Blame.{FaultsByPlan};
ghost use Rattle.day_reading.specs.declared.whole_day.ReadStop.TheVariants.{ReadFault};
ghost use Rattle.office_commands.specs.AnyOrder.{compared_in, differences_in};
ghost use Rattle.office_commands.specs.Asides.{compared, compared_from};
ghost use Rattle.office_commands.specs.Closings.{status_of};
ghost use Rattle.office_commands.specs.Entries.{entered, HasReadEntries, IsComparison, most_compared};
ghost use Rattle.office_commands.specs.Differences.{closed_by_first, differences, told_before};
ghost use Rattle.office_commands.specs.declared.closing.Closing.TheVariants.{Agree};
ghost use Rattle.office_commands.specs.Listings.{IsReady, StandsAt, most_listed};

use crate::any_order::list_in_any_order;
use crate::aside::{AsideEntry, compare, next_entry};
use crate::closing::Closing;
use crate::difference::Difference;
use crate::listing::{Spot, Step, next_step};
use day_reading::ReadStop;
use road_io::{LineCutter, Source};
use road_time::Notice;
use std::alloc::Global;

/// The notices behind the first.
fn behind_first(notices: &[Notice]) -> &[Notice]
    requires { 1 ≤ length notices.now }
    ensures { result.now ≡ drop 1 notices.now }
{
    &notices[1..]
}

/// Lists the first differences, at most so many, of notices from what an aside has next and what follows.
fn list_from<A: Source>(
    alloc: Global,
    most: usize,
    wanted: &[Notice],
    entry: AsideEntry,
    cutter: &mut LineCutter,
    aside: &mut A,
) -> Result<Vec<Difference>, ReadStop>
    requires few { most ≤ 1000 }
    requires ready { IsReady entry cutter.old 1 }
    ensures exact { (entries : List (List ℕ))
        → StandsAt entry (line_of cutter.old) (ahead cutter.old (A.left aside.old)) entries
        → IfOk result (λ list. list.items ≡ take most (differences wanted.now 1 entries)) }
    ensures read { (bytes : List ℕ) → HasReadEntries (ahead cutter.old (A.left aside.old)) 1 bytes
        → HasReadEntries (ahead cutter.new (A.left aside.new)) (1 + length wanted.now + most) bytes }
    ensures aside { FaultsByPlan (A.faults aside.old) (A.faults aside.new) (A.plan aside.old) (result ≡ Err ReadFault) }
{
    let mut spot = Spot { line: 1, entry };
    let mut list = Vec::new(alloc);
    let mut room = Vec::new(alloc);
    let mut rest = wanted;
    while list.as_slice().len() < most {
        match next_step(rest, &mut spot, cutter, aside, &mut room, &mut list) {
            Ok(Step::Passed) => rest = behind_first(rest),
            Ok(Step::Stayed) => {}
            Ok(Step::Ended) => return Ok(list),
            Err(stop) => return Err(stop),
        }
    }
    Ok(list)
}

/// The first differences of notices from the lines of an aside, at most so many.
fn first_differences<A: Source>(
    alloc: Global,
    most: usize,
    wanted: &[Notice],
    aside: &mut A,
) -> Result<Vec<Difference>, ReadStop>
    requires few { most ≤ 1000 }
    ensures exact { (lines : List ℕ) → A.left aside.old ≡ Some lines
        → IfOk result (λ list. list.items ≡ take most (differences wanted.now 1 (entered lines))) }
    ensures bounded { ReadsWithin (most_compared (length wanted.now + most)) (A.left aside.old) (A.left aside.new) }
    ensures aside { FaultsByPlan (A.faults aside.old) (A.faults aside.new) (A.plan aside.old) (result ≡ Err ReadFault) }
{
    let Ok(mut cutter) = LineCutter::new(alloc) else {
        return Err(ReadStop::NoMemory);
    };
    match next_entry(&mut cutter, aside) {
        Ok(entry) => list_from(alloc, most, wanted, entry, &mut cutter, aside),
        Err(stop) => Err(stop),
    }
}

/// The closing line of a comparison, by the first differences.
pub(crate) fn closing_by(wanted: &[Notice], list: &[Difference]) -> Closing
    ensures exact { (most : ℕ) (entries : List (List ℕ)) → 1 ≤ most
        → list.now ≡ take most (differences wanted.now 1 entries) → result ≡ compared_from 1 wanted.now entries }
    ensures first { result ≡ closed_by_first (Agree (length wanted.now)) list.now }
    ensures own { IsComparison result }
    ensures none { status_of result ≢ 7 → list.now ≡ [] }
{
    match list {
        [] => Closing::Agree {
            notices: wanted.len() as u64,
        },
        [first, ..] => Closing::DiffersLine {
            line: first.line,
            wanted: first.wanted,
            found: first.found,
        },
    }
}

/// Compares notices in their order with the lines of an aside as `compare` does, and gives the first differences, where
/// more than one is asked for.
fn list_in_order<A: Source>(
    alloc: Global,
    show: u32,
    wanted: &[Notice],
    aside: &mut A,
    shown: &mut Vec<Difference>,
) -> Result<Closing, ReadStop>
    requires few { show ≤ 1000 }
    requires empty { shown.old.items ≡ [] }
    ensures exact { (lines : List ℕ) → A.left aside.old ≡ Some lines
        → IfOk result (λ c. c ≡ compared wanted.now (lines_of lines)) }
    ensures listed { (lines : List ℕ) → A.left aside.old ≡ Some lines
        → IfOk result (λ c. shown.new.items ≡ told_before show (differences wanted.now 1 (entered lines))) }
    ensures own { IfOk result IsComparison }
    ensures none { IfOk result (λ c. status_of c ≢ 7 → shown.new.items ≡ []) }
    ensures stopped { IfErr result (λ e. shown.new.items ≡ []) }
    ensures bounded { ReadsWithin (most_listed false show (length wanted.now)) (A.left aside.old)
        (A.left aside.new) }
    ensures aside { FaultsByPlan (A.faults aside.old) (A.faults aside.new) (A.plan aside.old) (result ≡ Err ReadFault) }
{
    if show < 2 {
        return compare(alloc, wanted, aside);
    }
    let list = match first_differences(alloc, show as usize, wanted, aside) {
        Ok(list) => list,
        Err(stop) => return Err(stop),
    };
    let closing = closing_by(wanted, list.as_slice());
    *shown = list;
    Ok(closing)
}

/// Compares notices with the lines of an aside, in any order within a second or not, and gives the first differences,
/// where more than one is asked for.
pub(crate) fn compare_and_list<A: Source>(
    alloc: Global,
    any_order: bool,
    show: u32,
    wanted: &[Notice],
    aside: &mut A,
    shown: &mut Vec<Difference>,
) -> Result<Closing, ReadStop>
    requires some { 1 ≤ show }
    requires few { show ≤ 1000 }
    requires empty { shown.old.items ≡ [] }
    ensures exact { (lines : List ℕ) → A.left aside.old ≡ Some lines
        → IfOk result (λ c. c ≡ compared_in any_order wanted.now (lines_of lines)) }
    ensures listed { (lines : List ℕ) → A.left aside.old ≡ Some lines
        → IfOk result (λ c. shown.new.items ≡ told_before show (differences_in any_order wanted.now (entered lines))) }
    ensures own { IfOk result IsComparison }
    ensures none { IfOk result (λ c. status_of c ≢ 7 → shown.new.items ≡ []) }
    ensures stopped { IfErr result (λ e. shown.new.items ≡ []) }
    ensures bounded { ReadsWithin (most_listed any_order show (length wanted.now)) (A.left aside.old)
        (A.left aside.new) }
    ensures aside { FaultsByPlan (A.faults aside.old) (A.faults aside.new) (A.plan aside.old) (result ≡ Err ReadFault) }
{
    if any_order {
        return list_in_any_order(alloc, show, wanted, aside, shown);
    }
    list_in_order(alloc, show, wanted, aside, shown)
}
