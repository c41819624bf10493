// One turn of a comparison in which the notices of one second may stand in any order.
ghost use Rattle.std.specs.Prelude.{◌≡◌, ◌≢◌, ◌≤◌, ◌<◌, ◌+◌, ◌^◌, ◌++◌, ◌∷◌, [], ℕ, List, Option, Ok, Err, IfOk, OnOk};
ghost use Rattle.std.specs.Prelude.{length, true, false};
ghost use Rattle.road_time.specs.declared.road.Notice.{Notice as NoticeValue};
ghost use Rattle.road_io.specs.Plans.{NeverFails};
ghost use Rattle.road_io.specs.Cutter.{ahead, line_of, line_number, fault_of};
ghost use Rattle.road_io.specs.Blame.{FaultsByPlan};
ghost use Rattle.day_reading.specs.declared.whole_day.ReadStop.TheVariants.{ReadFault};
ghost use Rattle.ways_audit.specs.Seconds.{still};
ghost use Rattle.office_commands.specs.declared.difference.Difference.{Difference as DifferenceValue};
ghost use Rattle.office_commands.specs.declared.difference.DifferenceKind.TheVariants.{Additional};
ghost use Rattle.office_commands.specs.declared.entry_text.EntryText.TheVariants.{Nothing};
ghost use Rattle.office_commands.specs.declared.aside.AsideEntry.TheVariants.{Line, Long, End};
ghost use Rattle.office_commands.specs.declared.turns.Turn.TheVariants.{Came, Stayed, Behind, Ended};
ghost use Rattle.office_commands.specs.Asides.{found_as};
ghost use Rattle.office_commands.specs.Entries.{HasReadEntries};
ghost use Rattle.office_commands.specs.Differences.{differs_at};
ghost use Rattle.office_commands.specs.AnyOrder.{is_later, is_wanted, without_found};
ghost use Rattle.office_commands.specs.Listings.{IsReady};
ghost use Rattle.office_commands.specs.Turns.{Onward, ListsSecond, TurnsTo, TurnCounts, found_at};

use crate::aside::{AsideEntry, entry_of};
use crate::difference::{Difference, DifferenceKind};
use crate::entry_text::EntryText;
use crate::listing::{Spot, move_on};
use crate::neighbours::is_after;
use day_reading::ReadStop;
use road_io::{LineCutter, Source};
use road_time::Notice;
use ways_audit::StillToCome;

/// How far a turn came: behind a line that is a notice of the second, or behind another one; or the second is over
/// before the line; or nothing is left to list.
#[derive(Clone, Copy, Debug, PartialEq)]
pub enum Turn {
    Came,
    Stayed,
    Behind,
    Ended,
}

/// Whether what was found is of a later second than these notices, which are of one.
fn is_later(run: &[Notice], found: EntryText) -> bool
    ensures { result ≡ is_later run.now found }
{
    match run {
        [] => false,
        [first, ..] => is_after(first, found),
    }
}

/// Takes what was found, where it is a notice that is still to come.
fn take_found(coming: &mut StillToCome, found: EntryText) -> bool
    ensures wanted { result ≡ is_wanted (still coming.old) found }
    ensures taken { result ≡ true → still coming.new ≡ without_found (still coming.old) found }
    ensures kept { result ≡ false → coming.new ≡ coming.old }
{
    match found {
        EntryText::Read(notice) => coming.take(&notice),
        EntryText::Nothing => false,
        EntryText::Malformed => false,
    }
}

/// Lists a line that is none of those to come.
fn tell_over(list: &mut Vec<Difference>, line: u64, found: EntryText) -> Result<(), ReadStop>
    ensures told { OnOk result (list.new.items ≡ list.old.items ++ differs_at Additional line Nothing found ∷ []) }
    ensures memory { result ≢ Err ReadFault }
{
    let over = Difference {
        line,
        kind: DifferenceKind::Additional,
        wanted: EntryText::Nothing,
        found,
    };
    match list.push(over) {
        Ok(()) => Ok(()),
        Err(_) => Err(ReadStop::NoMemory),
    }
}

/// Moves behind a line that is a notice of the second.
fn came_turn<A: Source>(
    spot: &mut Spot,
    cutter: &mut LineCutter,
    aside: &mut A,
) -> Result<Turn, ReadStop>
    requires at_line { spot.old.entry ≡ Line }
    requires line { spot.old.line + 1 < 2 ^ 64 }
    requires ready { IsReady spot.old.entry cutter.old spot.old.line }
    ensures exact { (all listed : List DifferenceValue) (run : List NoticeValue) (behind : Onward) (left : ℕ)
        (coming : NoticeValue → ℕ) → 1 ≤ left → is_later run (found_as (line_of cutter.old)) ≡ false
        → is_wanted coming (found_as (line_of cutter.old)) ≡ true
        → ListsSecond all listed run behind left coming spot.old.line spot.old.entry (line_of cutter.old)
        (ahead cutter.old (A.left aside.old))
        → IfOk result (λ t. TurnsTo t all listed run behind left
        (without_found coming (found_as (line_of cutter.old))) spot.new.line spot.new.entry (line_of cutter.new)
        (ahead cutter.new (A.left aside.new))) }
    ensures came { IfOk result (λ t. t ≡ Came) }
    ensures counts { (many : ℕ) → IfOk result (λ t. TurnCounts t spot.old.line spot.new.line many many) }
    ensures ready { IfOk result (λ t. IsReady spot.new.entry cutter.new spot.new.line) }
    ensures read { (bytes : List ℕ) → HasReadEntries (ahead cutter.old (A.left aside.old)) spot.old.line bytes
        → HasReadEntries (ahead cutter.new (A.left aside.new)) (spot.old.line + 1) bytes }
    ensures aside { FaultsByPlan (A.faults aside.old) (A.faults aside.new) (A.plan aside.old) (result ≡ Err ReadFault) }
    ensures still { NeverFails (A.plan aside.old) → NeverFails (A.plan aside.new) }
{
    match move_on(spot, cutter, aside) {
        Ok(()) => Ok(Turn::Came),
        Err(stop) => Err(stop),
    }
}

/// Lists a line that is none of those to come, and moves behind it.
fn over_turn<A: Source>(
    found: EntryText,
    spot: &mut Spot,
    cutter: &mut LineCutter,
    aside: &mut A,
    list: &mut Vec<Difference>,
) -> Result<Turn, ReadStop>
    requires at_line { spot.old.entry ≡ Line }
    requires line { spot.old.line + 1 < 2 ^ 64 }
    requires ready { IsReady spot.old.entry cutter.old spot.old.line }
    requires named { found ≡ found_as (line_of cutter.old) }
    ensures stayed { IfOk result (λ t. t ≡ Stayed) }
    ensures exact { (all : List DifferenceValue) (run : List NoticeValue) (behind : Onward) (left : ℕ)
        (coming : NoticeValue → ℕ) → 1 ≤ left → is_later run found ≡ false → is_wanted coming found ≡ false
        → ListsSecond all list.old.items run behind left coming spot.old.line spot.old.entry (line_of cutter.old)
        (ahead cutter.old (A.left aside.old))
        → IfOk result (λ t. TurnsTo t all list.new.items run behind left coming spot.new.line spot.new.entry
        (line_of cutter.new) (ahead cutter.new (A.left aside.new))) }
    ensures counts { IfOk result
        (λ t. TurnCounts t spot.old.line spot.new.line (length list.old.items) (length list.new.items)) }
    ensures ready { IfOk result (λ t. IsReady spot.new.entry cutter.new spot.new.line) }
    ensures read { (bytes : List ℕ) → HasReadEntries (ahead cutter.old (A.left aside.old)) spot.old.line bytes
        → HasReadEntries (ahead cutter.new (A.left aside.new)) (spot.old.line + 1) bytes }
    ensures aside { FaultsByPlan (A.faults aside.old) (A.faults aside.new) (A.plan aside.old) (result ≡ Err ReadFault) }
    ensures still { NeverFails (A.plan aside.old) → NeverFails (A.plan aside.new) }
{
    let line = spot.line;
    match move_on(spot, cutter, aside) {
        Ok(()) => {}
        Err(stop) => return Err(stop),
    }
    match tell_over(list, line, found) {
        Ok(()) => Ok(Turn::Stayed),
        Err(stop) => Err(stop),
    }
}

/// Compares a line with the notices of a second that are still to come.
fn line_turn<A: Source>(
    run: &[Notice],
    coming: &mut StillToCome,
    spot: &mut Spot,
    cutter: &mut LineCutter,
    aside: &mut A,
    list: &mut Vec<Difference>,
) -> Result<Turn, ReadStop>
    requires at_line { spot.old.entry ≡ Line }
    requires line { spot.old.line + 1 < 2 ^ 64 }
    requires ready { IsReady spot.old.entry cutter.old spot.old.line }
    ensures exact { (all : List DifferenceValue) (behind : Onward) (left : ℕ) → 1 ≤ left
        → ListsSecond all list.old.items run.now behind left (still coming.old) spot.old.line spot.old.entry
        (line_of cutter.old) (ahead cutter.old (A.left aside.old))
        → IfOk result (λ t. TurnsTo t all list.new.items run.now behind left (still coming.new) spot.new.line
        spot.new.entry (line_of cutter.new) (ahead cutter.new (A.left aside.new))) }
    ensures counts { IfOk result
        (λ t. TurnCounts t spot.old.line spot.new.line (length list.old.items) (length list.new.items)) }
    ensures ready { IfOk result (λ t. IsReady spot.new.entry cutter.new spot.new.line) }
    ensures read { (bytes : List ℕ) → HasReadEntries (ahead cutter.old (A.left aside.old)) spot.old.line bytes
        → HasReadEntries (ahead cutter.new (A.left aside.new)) (spot.old.line + 1) bytes }
    ensures unread { result ≡ Ok Behind → (cutter.new ≡ cutter.old) × (aside.new ≡ aside.old) }
    ensures going { result ≢ Ok Ended }
    ensures aside { FaultsByPlan (A.faults aside.old) (A.faults aside.new) (A.plan aside.old) (result ≡ Err ReadFault) }
    ensures still { NeverFails (A.plan aside.old) → NeverFails (A.plan aside.new) }
{
    let found = entry_of(cutter.line());
    if is_later(run, found) {
        return Ok(Turn::Behind);
    }
    if take_found(coming, found) {
        return came_turn(spot, cutter, aside);
    }
    over_turn(found, spot, cutter, aside, list)
}

/// Lists a line of more than 200 bytes, and ends there.
fn long_turn(line: u64, list: &mut Vec<Difference>) -> Result<Turn, ReadStop>
    ensures exact { (all : List DifferenceValue) (run : List NoticeValue) (behind : Onward) (left : ℕ)
        (coming : NoticeValue → ℕ) (text : List ℕ) (after : Option (List ℕ)) → 1 ≤ left
        → ListsSecond all list.old.items run behind left coming line Long text after
        → IfOk result (λ t. (t ≡ Ended) × (all ≡ list.new.items)) }
    ensures counts { IfOk result (λ t. TurnCounts t line line (length list.old.items) (length list.new.items)) }
    ensures memory { result ≢ Err ReadFault }
{
    match tell_over(list, line, EntryText::Malformed) {
        Ok(()) => Ok(Turn::Ended),
        Err(stop) => Err(stop),
    }
}

/// One turn: compares what an aside has next with the notices of a second that are still to come.
pub(crate) fn next_turn<A: Source>(
    run: &[Notice],
    coming: &mut StillToCome,
    spot: &mut Spot,
    cutter: &mut LineCutter,
    aside: &mut A,
    list: &mut Vec<Difference>,
) -> Result<Turn, ReadStop>
    requires line { spot.old.line + 1 < 2 ^ 64 }
    requires ready { IsReady spot.old.entry cutter.old spot.old.line }
    ensures exact { (all : List DifferenceValue) (behind : Onward) (left : ℕ) → 1 ≤ left
        → ListsSecond all list.old.items run.now behind left (still coming.old) spot.old.line spot.old.entry
        (line_of cutter.old) (ahead cutter.old (A.left aside.old))
        → IfOk result (λ t. TurnsTo t all list.new.items run.now behind left (still coming.new) spot.new.line
        spot.new.entry (line_of cutter.new) (ahead cutter.new (A.left aside.new))) }
    ensures counts { IfOk result
        (λ t. TurnCounts t spot.old.line spot.new.line (length list.old.items) (length list.new.items)) }
    ensures ready { IfOk result (λ t. IsReady spot.new.entry cutter.new spot.new.line) }
    ensures read { (bytes : List ℕ) → HasReadEntries (ahead cutter.old (A.left aside.old)) spot.old.line bytes
        → IfOk result (λ t. HasReadEntries (ahead cutter.new (A.left aside.new)) spot.new.line bytes) }
    ensures read_one { (bytes : List ℕ) → HasReadEntries (ahead cutter.old (A.left aside.old)) spot.old.line bytes
        → HasReadEntries (ahead cutter.new (A.left aside.new)) (spot.old.line + 1) bytes }
    ensures aside { FaultsByPlan (A.faults aside.old) (A.faults aside.new) (A.plan aside.old) (result ≡ Err ReadFault) }
    ensures still { NeverFails (A.plan aside.old) → NeverFails (A.plan aside.new) }
{
    match spot.entry {
        AsideEntry::Line => line_turn(run, coming, spot, cutter, aside, list),
        AsideEntry::Long => long_turn(spot.line, list),
        AsideEntry::End => Ok(Turn::Behind),
    }
}

/// What the current entry was found to be.
pub(crate) fn found_at(entry: AsideEntry, line: &[u8]) -> EntryText
    requires short { entry ≡ Line → length line.now ≤ 200 }
    ensures { result ≡ found_at entry line.now }
{
    match entry {
        AsideEntry::Line => entry_of(line),
        AsideEntry::Long => EntryText::Malformed,
        AsideEntry::End => EntryText::Nothing,
    }
}
