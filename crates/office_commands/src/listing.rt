// Listing the lines at which notices part from those of the rules.
ghost use Rattle.std.specs.Prelude.{◌≡◌, ◌≢◌, ◌≤◌, ◌<◌, ◌+◌, ◌^◌, ◌++◌, ◌∷◌, [], ℕ, List, Some, None, Err, IfOk, OnOk};
ghost use Rattle.std.specs.Prelude.{◌-◌, Option, length, false};
ghost use Rattle.road_time.specs.declared.road.Notice.{Notice as NoticeValue};
ghost use Rattle.road_io.specs.Plans.{NeverFails};
ghost use Rattle.road_io.specs.Cutter.{ahead, line_of, line_number, fault_of};
ghost use Rattle.road_io.specs.Blame.{FaultsByPlan};
ghost use Rattle.day_reading.specs.declared.whole_day.ReadStop.TheVariants.{ReadFault};
ghost use Rattle.office_commands.specs.declared.difference.Difference.{Difference as DifferenceValue};
ghost use Rattle.office_commands.specs.declared.aside.AsideEntry.TheVariants.{Line, Long, End};
ghost use Rattle.office_commands.specs.declared.listing.Step.TheVariants.{Ended};
ghost use Rattle.office_commands.specs.Asides.{found_as};
ghost use Rattle.office_commands.specs.Asides.{is_text_of as is_its_text};
ghost use Rattle.office_commands.specs.Entries.{entered, HasReadEntries};
ghost use Rattle.office_commands.specs.Differences.{is_missing};
ghost use Rattle.office_commands.specs.Listings.{IsReady, StandsAt, ListsOn, StepsTo, StepCounts};

use crate::aside::{AsideEntry, entry_of, next_entry};
use crate::difference::{Difference, DifferenceKind};
use crate::entry_text::EntryText;
use crate::neighbours::{is_before, is_in_first, is_its_text, is_missing};
use day_reading::ReadStop;
use road_io::{LineCutter, Source};
use road_time::Notice;

/// Where a listing stands: the number of the next line, and what it is.
#[derive(Clone, Copy, Debug, PartialEq)]
pub struct Spot {
    pub line: u64,
    pub entry: AsideEntry,
}

/// How far a step came: behind a notice, to a further line before the same notice, or to the end of the list.
#[derive(Clone, Copy, Debug, PartialEq)]
pub enum Step {
    Passed,
    Stayed,
    Ended,
}

/// Lists a difference, and goes on by this step.
fn note(list: &mut Vec<Difference>, difference: Difference, step: Step) -> Result<Step, ReadStop>
    ensures noted { IfOk result (λ s. (s ≡ step) × (list.new.items ≡ list.old.items ++ difference ∷ [])) }
    ensures memory { result ≢ Err ReadFault }
{
    match list.push(difference) {
        Ok(()) => Ok(step),
        Err(_) => Err(ReadStop::NoMemory),
    }
}

/// Moves behind a line.
pub(crate) fn move_on<A: Source>(
    spot: &mut Spot,
    cutter: &mut LineCutter,
    aside: &mut A,
) -> Result<(), ReadStop>
    requires line { spot.old.line + 1 < 2 ^ 64 }
    requires whole { fault_of cutter.old ≡ None }
    requires number { line_number cutter.old + 1 < 2 ^ 64 }
    ensures stands { (now : List ℕ) → ahead cutter.old (A.left aside.old) ≡ Some now
        → OnOk result (StandsAt spot.new.entry (line_of cutter.new) (ahead cutter.new (A.left aside.new))
        (entered now)) }
    ensures ready { OnOk result (IsReady spot.new.entry cutter.new (line_number cutter.old + 1)) }
    ensures line { OnOk result (spot.new.line ≡ spot.old.line + 1) }
    ensures read { (lines : ℕ) (bytes : List ℕ) → HasReadEntries (ahead cutter.old (A.left aside.old)) lines bytes
        → HasReadEntries (ahead cutter.new (A.left aside.new)) (lines + 1) bytes }
    ensures aside { FaultsByPlan (A.faults aside.old) (A.faults aside.new) (A.plan aside.old) (result ≡ Err ReadFault) }
    ensures still { NeverFails (A.plan aside.old) → NeverFails (A.plan aside.new) }
{
    match next_entry(cutter, aside) {
        Ok(entry) => {
            spot.line += 1;
            spot.entry = entry;
            Ok(())
        }
        Err(stop) => Err(stop),
    }
}

/// Lists a line behind all notices.
fn over_line<A: Source>(
    spot: &mut Spot,
    cutter: &mut LineCutter,
    aside: &mut A,
    list: &mut Vec<Difference>,
) -> Result<Step, ReadStop>
    requires at_line { spot.old.entry ≡ Line }
    requires line { spot.old.line + 1 < 2 ^ 64 }
    requires whole { fault_of cutter.old ≡ None }
    requires short { length (line_of cutter.old) ≤ 200 }
    requires number { line_number cutter.old + 1 < 2 ^ 64 }
    ensures exact { (all : List DifferenceValue) → ListsOn all list.old.items [] spot.old.line spot.old.entry
        (line_of cutter.old) (ahead cutter.old (A.left aside.old))
        → IfOk result (λ s. StepsTo s all list.new.items [] spot.new.line spot.new.entry (line_of cutter.new)
        (ahead cutter.new (A.left aside.new))) }
    ensures counts { IfOk result (λ s. StepCounts s 0 (length list.old.items) (length list.new.items)) }
    ensures ready { IfOk result (λ s. IsReady spot.new.entry cutter.new (line_number cutter.old + 1)) }
    ensures line { IfOk result (λ s. spot.new.line ≤ spot.old.line + 1) }
    ensures read { (lines : ℕ) (bytes : List ℕ) → HasReadEntries (ahead cutter.old (A.left aside.old)) lines bytes
        → HasReadEntries (ahead cutter.new (A.left aside.new)) (lines + 1) bytes }
    ensures aside { FaultsByPlan (A.faults aside.old) (A.faults aside.new) (A.plan aside.old) (result ≡ Err ReadFault) }
    ensures still { NeverFails (A.plan aside.old) → NeverFails (A.plan aside.new) }
{
    let line = spot.line;
    let found = entry_of(cutter.line());
    let over = Difference {
        line,
        kind: DifferenceKind::Additional,
        wanted: EntryText::Nothing,
        found,
    };
    match move_on(spot, cutter, aside) {
        Ok(()) => note(list, over, Step::Stayed),
        Err(stop) => Err(stop),
    }
}

/// Lists a line that is another than a notice's, which is not missing before it.
fn unlike<A: Source>(
    notice: &Notice,
    found: EntryText,
    spot: &mut Spot,
    cutter: &mut LineCutter,
    aside: &mut A,
    room: &mut Vec<u8>,
    list: &mut Vec<Difference>,
) -> Result<Step, ReadStop>
    requires at_line { spot.old.entry ≡ Line }
    requires line { spot.old.line + 1 < 2 ^ 64 }
    requires whole { fault_of cutter.old ≡ None }
    requires short { length (line_of cutter.old) ≤ 200 }
    requires number { line_number cutter.old + 1 < 2 ^ 64 }
    requires named { found ≡ found_as (line_of cutter.old) }
    requires other { is_its_text notice.now (line_of cutter.old) ≡ false }
    ensures exact { (all : List DifferenceValue) (behind : List NoticeValue)
        → is_missing notice.now behind (line_of cutter.old) ≡ false
        → ListsOn all list.old.items (notice.now ∷ behind) spot.old.line spot.old.entry (line_of cutter.old)
        (ahead cutter.old (A.left aside.old))
        → IfOk result (λ s. StepsTo s all list.new.items (notice.now ∷ behind) spot.new.line spot.new.entry
        (line_of cutter.new) (ahead cutter.new (A.left aside.new))) }
    ensures counts { (notices : ℕ) → 1 ≤ notices
        → IfOk result (λ s. StepCounts s notices (length list.old.items) (length list.new.items)) }
    ensures ready { IfOk result (λ s. IsReady spot.new.entry cutter.new (line_number cutter.old + 1)) }
    ensures line { IfOk result (λ s. spot.new.line ≤ spot.old.line + 1) }
    ensures read { (lines : ℕ) (bytes : List ℕ) → HasReadEntries (ahead cutter.old (A.left aside.old)) lines bytes
        → HasReadEntries (ahead cutter.new (A.left aside.new)) (lines + 1) bytes }
    ensures aside { FaultsByPlan (A.faults aside.old) (A.faults aside.new) (A.plan aside.old) (result ≡ Err ReadFault) }
    ensures still { NeverFails (A.plan aside.old) → NeverFails (A.plan aside.new) }
{
    let line = spot.line;
    let wanted = EntryText::Read(*notice);
    let additional = Difference {
        line,
        kind: DifferenceKind::Additional,
        wanted,
        found,
    };
    let changed = Difference {
        line,
        kind: DifferenceKind::Changed,
        wanted,
        found,
    };
    match move_on(spot, cutter, aside) {
        Ok(()) => {}
        Err(stop) => return Err(stop),
    }
    if is_before(notice, found) {
        return note(list, additional, Step::Stayed);
    }
    match is_in_first(notice, spot.entry, cutter.line(), room) {
        Ok(true) => note(list, additional, Step::Stayed),
        Ok(false) => note(list, changed, Step::Passed),
        Err(_) => Err(ReadStop::NoMemory),
    }
}

/// Compares a notice, which these follow, with a line.
fn at_line<A: Source>(
    notice: &Notice,
    behind: &[Notice],
    spot: &mut Spot,
    cutter: &mut LineCutter,
    aside: &mut A,
    room: &mut Vec<u8>,
    list: &mut Vec<Difference>,
) -> Result<Step, ReadStop>
    requires at_line { spot.old.entry ≡ Line }
    requires line { spot.old.line + 1 < 2 ^ 64 }
    requires whole { fault_of cutter.old ≡ None }
    requires short { length (line_of cutter.old) ≤ 200 }
    requires number { line_number cutter.old + 1 < 2 ^ 64 }
    ensures exact { (all : List DifferenceValue) → ListsOn all list.old.items (notice.now ∷ behind.now) spot.old.line
        spot.old.entry (line_of cutter.old) (ahead cutter.old (A.left aside.old))
        → IfOk result (λ s. StepsTo s all list.new.items (notice.now ∷ behind.now) spot.new.line spot.new.entry
        (line_of cutter.new) (ahead cutter.new (A.left aside.new))) }
    ensures counts { (notices : ℕ) → 1 ≤ notices
        → IfOk result (λ s. StepCounts s notices (length list.old.items) (length list.new.items)) }
    ensures ready { IfOk result (λ s. IsReady spot.new.entry cutter.new (line_number cutter.old + 1)) }
    ensures line { IfOk result (λ s. spot.new.line ≤ spot.old.line + 1) }
    ensures read { (lines : ℕ) (bytes : List ℕ) → HasReadEntries (ahead cutter.old (A.left aside.old)) lines bytes
        → HasReadEntries (ahead cutter.new (A.left aside.new)) (lines + 1) bytes }
    ensures aside { FaultsByPlan (A.faults aside.old) (A.faults aside.new) (A.plan aside.old) (result ≡ Err ReadFault) }
    ensures still { NeverFails (A.plan aside.old) → NeverFails (A.plan aside.new) }
{
    match is_its_text(notice, cutter.line(), room) {
        Ok(true) => {
            return match move_on(spot, cutter, aside) {
                Ok(()) => Ok(Step::Passed),
                Err(stop) => Err(stop),
            };
        }
        Ok(false) => {}
        Err(_) => return Err(ReadStop::NoMemory),
    }
    let found = entry_of(cutter.line());
    match is_missing(notice, behind, found, cutter.line(), room) {
        Ok(true) => {
            let missing = Difference {
                line: spot.line,
                kind: DifferenceKind::Missing,
                wanted: EntryText::Read(*notice),
                found,
            };
            note(list, missing, Step::Passed)
        }
        Ok(false) => unlike(notice, found, spot, cutter, aside, room, list),
        Err(_) => Err(ReadStop::NoMemory),
    }
}

/// Compares what is left of notices with a line.
fn line_step<A: Source>(
    wanted: &[Notice],
    spot: &mut Spot,
    cutter: &mut LineCutter,
    aside: &mut A,
    room: &mut Vec<u8>,
    list: &mut Vec<Difference>,
) -> Result<Step, ReadStop>
    requires at_line { spot.old.entry ≡ Line }
    requires line { spot.old.line + 1 < 2 ^ 64 }
    requires whole { fault_of cutter.old ≡ None }
    requires short { length (line_of cutter.old) ≤ 200 }
    requires number { line_number cutter.old + 1 < 2 ^ 64 }
    ensures exact { (all : List DifferenceValue) → ListsOn all list.old.items wanted.now spot.old.line spot.old.entry
        (line_of cutter.old) (ahead cutter.old (A.left aside.old))
        → IfOk result (λ s. StepsTo s all list.new.items wanted.now spot.new.line spot.new.entry (line_of cutter.new)
        (ahead cutter.new (A.left aside.new))) }
    ensures counts { IfOk result
        (λ s. StepCounts s (length wanted.now) (length list.old.items) (length list.new.items)) }
    ensures ready { IfOk result (λ s. IsReady spot.new.entry cutter.new (line_number cutter.old + 1)) }
    ensures line { IfOk result (λ s. spot.new.line ≤ spot.old.line + 1) }
    ensures read { (lines : ℕ) (bytes : List ℕ) → HasReadEntries (ahead cutter.old (A.left aside.old)) lines bytes
        → HasReadEntries (ahead cutter.new (A.left aside.new)) (lines + 1) bytes }
    ensures aside { FaultsByPlan (A.faults aside.old) (A.faults aside.new) (A.plan aside.old) (result ≡ Err ReadFault) }
    ensures still { NeverFails (A.plan aside.old) → NeverFails (A.plan aside.new) }
{
    match wanted.split_first() {
        None => over_line(spot, cutter, aside, list),
        Some((notice, behind)) => at_line(notice, behind, spot, cutter, aside, room, list),
    }
}

/// Lists what a line of more than 200 bytes differs from, and ends there.
fn long_step(wanted: &[Notice], line: u64, list: &mut Vec<Difference>) -> Result<Step, ReadStop>
    ensures exact { (all : List DifferenceValue) (text : List ℕ) (after : Option (List ℕ))
        → ListsOn all list.old.items wanted.now line Long text after
        → IfOk result (λ s. (s ≡ Ended) × (all ≡ list.new.items)) }
    ensures counts { (notices : ℕ)
        → IfOk result (λ s. StepCounts s notices (length list.old.items) (length list.new.items)) }
    ensures memory { result ≢ Err ReadFault }
{
    let found = EntryText::Malformed;
    match wanted {
        [] => {
            let over = Difference {
                line,
                kind: DifferenceKind::Additional,
                wanted: EntryText::Nothing,
                found,
            };
            note(list, over, Step::Ended)
        }
        [notice, ..] => {
            let changed = Difference {
                line,
                kind: DifferenceKind::Changed,
                wanted: EntryText::Read(*notice),
                found,
            };
            note(list, changed, Step::Ended)
        }
    }
}

/// Lists a notice behind all lines, if there is one.
fn end_step(wanted: &[Notice], line: u64, list: &mut Vec<Difference>) -> Result<Step, ReadStop>
    ensures exact { (all : List DifferenceValue) (text : List ℕ) (after : Option (List ℕ))
        → ListsOn all list.old.items wanted.now line End text after
        → IfOk result (λ s. StepsTo s all list.new.items wanted.now line End text after) }
    ensures counts { IfOk result
        (λ s. StepCounts s (length wanted.now) (length list.old.items) (length list.new.items)) }
    ensures memory { result ≢ Err ReadFault }
{
    match wanted {
        [] => Ok(Step::Ended),
        [notice, ..] => {
            let absent = Difference {
                line,
                kind: DifferenceKind::Missing,
                wanted: EntryText::Read(*notice),
                found: EntryText::Nothing,
            };
            note(list, absent, Step::Passed)
        }
    }
}

/// One step of a list: compares what is left of notices with what an aside has next.
pub(crate) fn next_step<A: Source>(
    wanted: &[Notice],
    spot: &mut Spot,
    cutter: &mut LineCutter,
    aside: &mut A,
    room: &mut Vec<u8>,
    list: &mut Vec<Difference>,
) -> Result<Step, ReadStop>
    requires line { spot.old.line + 1 < 2 ^ 64 }
    requires ready { IsReady spot.old.entry cutter.old (2 ^ 64 - 2) }
    ensures exact { (all : List DifferenceValue) → ListsOn all list.old.items wanted.now spot.old.line spot.old.entry
        (line_of cutter.old) (ahead cutter.old (A.left aside.old))
        → IfOk result (λ s. StepsTo s all list.new.items wanted.now spot.new.line spot.new.entry (line_of cutter.new)
        (ahead cutter.new (A.left aside.new))) }
    ensures counts { IfOk result
        (λ s. StepCounts s (length wanted.now) (length list.old.items) (length list.new.items)) }
    ensures ready { (most : ℕ) → IsReady spot.old.entry cutter.old most
        → IfOk result (λ s. IsReady spot.new.entry cutter.new (most + 1)) }
    ensures line { IfOk result (λ s. spot.new.line ≤ spot.old.line + 1) }
    ensures read { (lines : ℕ) (bytes : List ℕ) → HasReadEntries (ahead cutter.old (A.left aside.old)) lines bytes
        → HasReadEntries (ahead cutter.new (A.left aside.new)) (lines + 1) bytes }
    ensures aside { FaultsByPlan (A.faults aside.old) (A.faults aside.new) (A.plan aside.old) (result ≡ Err ReadFault) }
    ensures still { NeverFails (A.plan aside.old) → NeverFails (A.plan aside.new) }
{
    match spot.entry {
        AsideEntry::Line => line_step(wanted, spot, cutter, aside, room, list),
        AsideEntry::Long => long_step(wanted, spot.line, list),
        AsideEntry::End => end_step(wanted, spot.line, list),
    }
}
