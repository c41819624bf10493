// How a line that is not a notice's text stands to that notice and to those beside it.
ghost use Rattle.std.specs.Prelude.{◌≡◌, ◌≤◌, ℕ, List, Option, IfOk, length};
ghost use Rattle.office_commands.specs.declared.aside.AsideEntry.TheVariants.{Line};
ghost use Rattle.office_commands.specs.Asides.{found_as};
ghost use Rattle.office_commands.specs.Asides.{is_text_of as is_its_text};
ghost use Rattle.office_commands.specs.Differences.{is_after, is_before, is_missing};
ghost use Rattle.office_commands.specs.Differences.{is_text_of_first, is_in_first};
ghost use Rattle.office_commands.specs.Listings.{StandsAt};

use crate::aside::{AsideEntry, is_text_of};
use crate::entry_text::EntryText;
use road_time::{NoMemory, Notice};
use ways_audit::second_of;

/// Whether what was found is a notice of a later second.
pub(crate) fn is_after(notice: &Notice, found: EntryText) -> bool
    ensures { result ≡ is_after notice.now found }
{
    match found {
        EntryText::Read(other) => second_of(notice) < second_of(&other),
        EntryText::Nothing => false,
        EntryText::Malformed => false,
    }
}

/// Whether what was found is a notice of an earlier second.
pub(crate) fn is_before(notice: &Notice, found: EntryText) -> bool
    ensures { result ≡ is_before notice.now found }
{
    match found {
        EntryText::Read(other) => second_of(&other) < second_of(notice),
        EntryText::Nothing => false,
        EntryText::Malformed => false,
    }
}

/// Whether a line of at most 200 bytes is the text of a notice. The room is used again for each.
pub(crate) fn is_its_text(
    notice: &Notice,
    line: &[u8],
    room: &mut Vec<u8>,
) -> Result<bool, NoMemory>
    requires short { length line.now ≤ 200 }
    ensures { IfOk result (λ same. same ≡ is_its_text notice.now line.now) }
{
    is_text_of(notice, line, room)
}

/// Whether a line is the text of the first of some notices.
fn is_text_of_first(notices: &[Notice], line: &[u8], room: &mut Vec<u8>) -> Result<bool, NoMemory>
    requires short { length line.now ≤ 200 }
    ensures { IfOk result (λ same. same ≡ is_text_of_first notices.now line.now) }
{
    match notices {
        [] => Ok(false),
        [first, ..] => is_its_text(first, line, room),
    }
}

/// Whether the notice is missing before a line that is not its text, where these notices follow it.
pub(crate) fn is_missing(
    notice: &Notice,
    behind: &[Notice],
    found: EntryText,
    line: &[u8],
    room: &mut Vec<u8>,
) -> Result<bool, NoMemory>
    requires short { length line.now ≤ 200 }
    requires named { found ≡ found_as line.now }
    ensures { IfOk result (λ missing. missing ≡ is_missing notice.now behind.now line.now) }
{
    if is_after(notice, found) {
        return Ok(true);
    }
    is_text_of_first(behind, line, room)
}

/// Whether the notice stands in what an aside has next.
pub(crate) fn is_in_first(
    notice: &Notice,
    entry: AsideEntry,
    line: &[u8],
    room: &mut Vec<u8>,
) -> Result<bool, NoMemory>
    requires short { entry ≡ Line → length line.now ≤ 200 }
    ensures { (after : Option (List ℕ)) (entries : List (List ℕ)) → StandsAt entry line.now after entries
        → IfOk result (λ same. same ≡ is_in_first notice.now entries) }
{
    match entry {
        AsideEntry::Line => is_its_text(notice, line, room),
        AsideEntry::Long => Ok(false),
        AsideEntry::End => Ok(false),
    }
}
