// Comparing notices with the lines of an aside.
ghost use Rattle.std.specs.Prelude.{◌≡◌, ◌≢◌, ◌≤◌, ◌<◌, ◌+◌, ◌^◌, [], ℕ, List, Some, None, Ok, Err, IfOk, length, drop};
ghost use Rattle.std.specs.Str.{bytes_eq};
ghost use Rattle.road_time.specs.Lines.{lines_of, without_cr};
ghost use Rattle.road_time.specs.Text.{notice_text, read_notice as defined_read_notice};
ghost use Rattle.road_io.specs.Plans.{NeverFails};
ghost use Rattle.road_io.specs.Cutter.{ahead, line_of, line_number, fault_of};
ghost use Rattle.road_io.specs.Within.{ReadsWithin};
ghost use Rattle.office_commands.specs.Asides.{entry_of, begins_with_hash, compared, compared_from};
ghost use Rattle.office_commands.specs.Entries.{Enters, entered, GoesOn, PartsAt, IsComparison, IsComparisonOr};
ghost use Rattle.office_commands.specs.Entries.{HasReadEntries, most_compared};
ghost use Rattle.office_commands.specs.declared.closing.Closing.{Closing as ClosingValue};
ghost use Rattle.office_commands.specs.declared.closing.Closing.TheVariants.{DiffersLine};
ghost use Rattle.day_reading.specs.declared.whole_day.ReadStop.TheVariants.{ReadFault, NoMemory as NoRoom};
ghost use Rattle.road_io.specs.Blame.{FaultsByPlan};

use crate::closing::Closing;
use crate::entry_text::EntryText;
use day_reading::ReadStop;
use road_io::{LineCutter, LineFault, Source};
use road_time::{NoMemory, Notice};
use std::alloc::Global;
use tuples_text::{put_notice, read_notice, trimmed};

/// What an aside has next.
#[derive(Clone, Copy, Debug, PartialEq)]
pub enum AsideEntry {
    Line,
    Long,
    End,
}

/// Whether a text begins with #.
fn is_marked(text: &[u8]) -> bool
    ensures { result ≡ begins_with_hash text.now }
{
    match text {
        [] => false,
        [first, ..] => *first == b'#',
    }
}

/// Moves to the next line of an aside. It ends with its bytes, or at a line that begins with #.
pub(crate) fn next_entry<A: Source>(
    cutter: &mut LineCutter,
    aside: &mut A,
) -> Result<AsideEntry, ReadStop>
    requires number { line_number cutter.old + 1 < 2 ^ 64 }
    requires whole { fault_of cutter.old ≡ None }
    ensures enters { IfOk result
        (λ entry. Enters entry (ahead cutter.old (A.left aside.old)) (ahead cutter.new (A.left aside.new))
        (line_of cutter.new)) }
    ensures next { IfOk result
        (λ entry. entry ≡ AsideEntry.Line → (line_number cutter.new ≡ line_number cutter.old + 1) ×
        (fault_of cutter.new ≡ None) × (length (line_of cutter.new) ≤ 200)) }
    ensures read { (lines : ℕ) (bytes : List ℕ) → HasReadEntries (ahead cutter.old (A.left aside.old)) lines bytes
        → HasReadEntries (ahead cutter.new (A.left aside.new)) (lines + 1) bytes }
    ensures memory { result ≢ Err NoRoom }
    ensures aside { FaultsByPlan (A.faults aside.old) (A.faults aside.new) (A.plan aside.old) (result ≡ Err ReadFault) }
    ensures still { NeverFails (A.plan aside.old) → NeverFails (A.plan aside.new) }
{
    match cutter.advance(aside) {
        Ok(true) => {
            if is_marked(cutter.line()) {
                Ok(AsideEntry::End)
            } else {
                Ok(AsideEntry::Line)
            }
        }
        Ok(false) => Ok(AsideEntry::End),
        Err(LineFault::LongLine(_)) => Ok(AsideEntry::Long),
        Err(LineFault::ReadFault) => Err(ReadStop::ReadFault),
    }
}

/// How a line of at most 200 bytes is named.
pub(crate) fn entry_of(line: &[u8]) -> EntryText
    ensures { result ≡ entry_of (defined_read_notice (without_cr line.now)) }
{
    match read_notice(trimmed(line)) {
        Some(notice) => EntryText::Read(notice),
        None => EntryText::Malformed,
    }
}

/// Whether a line is the text of a notice. The room is used again for each.
pub(crate) fn is_text_of(notice: &Notice, line: &[u8], room: &mut Vec<u8>) -> Result<bool, NoMemory>
    ensures { IfOk result (λ same. same ≡ bytes_eq (without_cr line.now) (notice_text notice.now)) }
{
    room.clear();
    put_notice(room, notice)?;
    room.pop();
    let same = trimmed(line) == room.as_slice();
    Ok(same)
}

/// The closing line of a difference.
fn differs(line: u64, wanted: EntryText, found: EntryText) -> Option<Closing>
    ensures { result ≡ Some (DiffersLine line wanted found) }
{
    Some(Closing::DiffersLine {
        line,
        wanted,
        found,
    })
}

/// Compares the notice of a line with the next entry of an aside.
fn compare_one<A: Source>(
    notice: &Notice,
    line: u64,
    cutter: &mut LineCutter,
    aside: &mut A,
    room: &mut Vec<u8>,
) -> Result<Option<Closing>, ReadStop>
    requires number { line_number cutter.old + 1 < 2 ^ 64 }
    requires whole { fault_of cutter.old ≡ None }
    ensures same { result ≡ Ok None
        → GoesOn line notice.now (ahead cutter.old (A.left aside.old)) (ahead cutter.new (A.left aside.new)) }
    ensures other { (c : ClosingValue) → result ≡ Ok (Some c)
        → PartsAt line notice.now (ahead cutter.old (A.left aside.old)) c }
    ensures own { IfOk result (IsComparisonOr) }
    ensures next { result ≡ Ok None → (line_number cutter.new ≡ line_number cutter.old + 1) ×
        (fault_of cutter.new ≡ None) }
    ensures read { (lines : ℕ) (bytes : List ℕ) → HasReadEntries (ahead cutter.old (A.left aside.old)) lines bytes
        → HasReadEntries (ahead cutter.new (A.left aside.new)) (lines + 1) bytes }
    ensures aside { FaultsByPlan (A.faults aside.old) (A.faults aside.new) (A.plan aside.old) (result ≡ Err ReadFault) }
    ensures still { NeverFails (A.plan aside.old) → NeverFails (A.plan aside.new) }
{
    match next_entry(cutter, aside) {
        Ok(AsideEntry::Line) => match is_text_of(notice, cutter.line(), room) {
            Ok(true) => Ok(None),
            Ok(false) => Ok(differs(line, EntryText::Read(*notice), entry_of(cutter.line()))),
            Err(_) => Err(ReadStop::NoMemory),
        },
        Ok(AsideEntry::Long) => Ok(differs(line, EntryText::Read(*notice), EntryText::Malformed)),
        Ok(AsideEntry::End) => Ok(differs(line, EntryText::Read(*notice), EntryText::Nothing)),
        Err(stop) => Err(stop),
    }
}

/// Compares no notice with the next entry of an aside: how many agreed before the line, or what is found there.
fn compare_end<A: Source>(
    line: u64,
    cutter: &mut LineCutter,
    aside: &mut A,
) -> Result<Closing, ReadStop>
    requires first { 1 ≤ line }
    requires number { line_number cutter.old + 1 < 2 ^ 64 }
    requires whole { fault_of cutter.old ≡ None }
    ensures exact { (lines : List ℕ) → ahead cutter.old (A.left aside.old) ≡ Some lines
        → IfOk result (λ c. c ≡ compared_from line [] (entered lines)) }
    ensures own { IfOk result IsComparison }
    ensures bounded { (lines : ℕ) (bytes : List ℕ) → HasReadEntries (ahead cutter.old (A.left aside.old)) lines bytes
        → (count : ℕ) × (count ≤ most_compared lines) × (A.left aside.new ≡ Some (drop count bytes)) }
    ensures aside { FaultsByPlan (A.faults aside.old) (A.faults aside.new) (A.plan aside.old) (result ≡ Err ReadFault) }
{
    match next_entry(cutter, aside) {
        Ok(AsideEntry::Line) => Ok(Closing::DiffersLine {
            line,
            wanted: EntryText::Nothing,
            found: entry_of(cutter.line()),
        }),
        Ok(AsideEntry::Long) => Ok(Closing::DiffersLine {
            line,
            wanted: EntryText::Nothing,
            found: EntryText::Malformed,
        }),
        Ok(AsideEntry::End) => Ok(Closing::Agree { notices: line - 1 }),
        Err(stop) => Err(stop),
    }
}

/// Compares notices with the lines of an aside, and answers the first line at which they part.
pub fn compare<A: Source>(
    alloc: Global,
    wanted: &[Notice],
    aside: &mut A,
) -> Result<Closing, ReadStop>
    ensures exact { (lines : List ℕ) → A.left aside.old ≡ Some lines
        → IfOk result (λ c. c ≡ compared wanted.now (lines_of lines)) }
    ensures own { IfOk result IsComparison }
    ensures bounded { ReadsWithin (most_compared (length wanted.now)) (A.left aside.old) (A.left aside.new) }
    ensures aside { FaultsByPlan (A.faults aside.old) (A.faults aside.new) (A.plan aside.old) (result ≡ Err ReadFault) }
{
    let Ok(mut cutter) = LineCutter::new(alloc) else {
        return Err(ReadStop::NoMemory);
    };
    let mut room = Vec::new(alloc);
    let mut line: u64 = 1;
    for notice in wanted {
        match compare_one(notice, line, &mut cutter, aside, &mut room) {
            Ok(None) => {}
            Ok(Some(closing)) => return Ok(closing),
            Err(stop) => return Err(stop),
        }
        line += 1;
    }
    compare_end(line, &mut cutter, aside)
}
