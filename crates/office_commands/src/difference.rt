// A line at which notices part from those of the rules, and how it is told.
ghost use Rattle.std.specs.Prelude.{◌≡◌, IfOk};
ghost use Rattle.std.specs.String.{string_bytes};
ghost use Rattle.office_commands.specs.Differences.{changed_line, missing_line, additional_line};
ghost use Rattle.office_commands.specs.Differences.{difference_line, differences_text};

use crate::entry_text::EntryText;
use road_time::NoMemory;
use std::alloc::Global;

/// How a line differs: another one is right there, or one is missing before it, or it is one too many.
#[derive(Clone, Copy, Debug, PartialEq)]
pub enum DifferenceKind {
    Changed,
    Missing,
    Additional,
}

/// A difference: the number of the line that was found, what is right there, and what was found.
#[derive(Clone, Copy, Debug, PartialEq)]
pub struct Difference {
    pub line: u64,
    pub kind: DifferenceKind,
    pub wanted: EntryText,
    pub found: EntryText,
}

/// The line that tells of another one than is right.
fn changed_line(
    alloc: Global,
    line: u64,
    wanted: EntryText,
    found: EntryText,
) -> Result<String, NoMemory>
    ensures { IfOk result (λ text. string_bytes text ≡ changed_line line wanted found) }
{
    let text = format!(in alloc; "{line} wanted {wanted} found {found}\n")?;
    Ok(text)
}

/// The line that tells of a missing one.
fn missing_line(alloc: Global, line: u64, wanted: EntryText) -> Result<String, NoMemory>
    ensures { IfOk result (λ text. string_bytes text ≡ missing_line line wanted) }
{
    let text = format!(in alloc; "{line} missing {wanted}\n")?;
    Ok(text)
}

/// The line that tells of one too many.
fn additional_line(alloc: Global, line: u64, found: EntryText) -> Result<String, NoMemory>
    ensures { IfOk result (λ text. string_bytes text ≡ additional_line line found) }
{
    let text = format!(in alloc; "{line} additional {found}\n")?;
    Ok(text)
}

/// The line of a difference.
fn difference_line(alloc: Global, difference: &Difference) -> Result<String, NoMemory>
    ensures { IfOk result (λ text. string_bytes text ≡ difference_line difference.now) }
{
    let Difference {
        line,
        kind,
        wanted,
        found,
    } = *difference;
    match kind {
        DifferenceKind::Changed => changed_line(alloc, line, wanted, found),
        DifferenceKind::Missing => missing_line(alloc, line, wanted),
        DifferenceKind::Additional => additional_line(alloc, line, found),
    }
}

/// The lines of differences.
pub fn differences_text(alloc: Global, differences: &[Difference]) -> Result<Vec<u8>, NoMemory>
    ensures { IfOk result (λ text. text.items ≡ differences_text differences.now) }
{
    let mut text = Vec::new(alloc);
    for difference in differences {
        let line = difference_line(alloc, difference)?;
        text.extend_from_slice(line.as_bytes())?;
    }
    Ok(text)
}
