// The closing lines, and the statuses that they go with.
ghost use Rattle.std.specs.Prelude.{◌≡◌, ◌==◌, IfOk, if◌then◌else◌};
ghost use Rattle.std.specs.String.{string_bytes};
ghost use Rattle.office_commands.specs.Closings.{closing_line, status_of};

use crate::day_lines::{
    already_line, checked_line, days_line, differs_day, rehearsal, stored_line, tariff_line,
};
use crate::entry_text::EntryText;
use crate::past_lines::{
    differs_past, past_already, past_kept, past_late, past_refused, past_stored,
};
use day_past::PastCause;
use road_digest::Digest;
use road_time::NoMemory;
use std::alloc::Global;
use tuples_text::Cause;

/// How a run ends, as its last line says.
#[derive(Clone, Copy, Debug, PartialEq)]
pub enum Closing {
    /// A day was answered: so many tuples were taken, so many notices written.
    Answered {
        day: u32,
        tuples: u64,
        notices: u64,
    },
    /// A day was answered and is kept from now on.
    Stored {
        day: u32,
        tuples: u64,
        notices: u64,
        total: u64,
    },
    /// A day was kept before, of the same bytes.
    Already {
        day: u32,
        tuples: u64,
        notices: u64,
        total: u64,
    },
    /// The notices that were found are those of the rules, so many.
    Agree {
        notices: u64,
    },
    /// An expressway has this tariff from now on.
    TariffPut {
        xway: u8,
        crowd: u32,
        speed: u8,
        factor: u8,
    },
    /// A history is kept from now on, with so many amounts.
    PastStored {
        base: u32,
        rows: u64,
    },
    /// A history was kept before, of the same bytes.
    PastAlready {
        base: u32,
        rows: u64,
    },
    /// The words are of no stated form.
    Words,
    /// This line of the source was refused.
    Refused {
        line: u64,
        cause: Cause,
    },
    /// This line of a history was refused.
    PastRefused {
        line: u64,
        cause: PastCause,
    },
    /// A day is not kept, and a later one is, or a history up to it.
    DayPassed {
        day: u32,
        last: u32,
    },
    /// A day is kept, of other bytes.
    DiffersDay {
        day: u32,
        kept: Digest,
        found: Digest,
    },
    /// A day is not kept.
    NoDay {
        day: u32,
    },
    /// No history is kept, and a day is, this one as the last.
    PastLate {
        last: u32,
    },
    /// A history of this base is kept.
    PastKept {
        base: u32,
    },
    /// A history of this base is kept, of other bytes.
    DiffersPast {
        base: u32,
        kept: Digest,
        found: Digest,
    },
    /// The source failed, or what it was compared with.
    ReadFault,
    /// The keeper failed.
    KeeperFault,
    /// At this line the notices that were found differ from those of the rules.
    DiffersLine {
        line: u64,
        wanted: EntryText,
        found: EntryText,
    },
    /// Memory ran out.
    NoMemory,
    /// Generated traffic was imported as a day, where nothing else is kept.
    Rehearsed {
        bytes: u64,
        digest: Digest,
        tuples: u64,
        notices: u64,
        notices_digest: Digest,
        total: u64,
    },
    /// So many days are kept, and this is the last that is, or the day before the history's base if none is.
    Listed {
        days: u64,
        last: u32,
    },
    /// The amounts that are kept of a day do not come to its total.
    Unsound {
        day: u32,
    },
    /// The lines of a day were checked: so many are good, so many refused.
    Checked {
        day: u32,
        good: u64,
        refused: u64,
    },
}

/// The status of a check by how many lines are refused.
fn status_of_check(refused: u64) -> u8
    ensures { result ≡ (if refused == 0 then 0 else 2) }
{
    if refused == 0 { 0 } else { 2 }
}

impl Closing {
    /// The status of the program.
    pub fn status(&self) -> u8
        ensures { result ≡ status_of self.now }
    {
        match *self {
            Closing::Answered { .. } => 0,
            Closing::Stored { .. } => 0,
            Closing::Already { .. } => 0,
            Closing::Agree { .. } => 0,
            Closing::TariffPut { .. } => 0,
            Closing::PastStored { .. } => 0,
            Closing::PastAlready { .. } => 0,
            Closing::Words => 1,
            Closing::Refused { .. } => 2,
            Closing::PastRefused { .. } => 2,
            Closing::DayPassed { .. } => 3,
            Closing::DiffersDay { .. } => 3,
            Closing::NoDay { .. } => 3,
            Closing::PastLate { .. } => 3,
            Closing::PastKept { .. } => 3,
            Closing::DiffersPast { .. } => 3,
            Closing::ReadFault => 4,
            Closing::KeeperFault => 6,
            Closing::DiffersLine { .. } => 7,
            Closing::NoMemory => 8,
            Closing::Rehearsed { .. } => 0,
            Closing::Listed { .. } => 0,
            Closing::Unsound { .. } => 7,
            Closing::Checked { refused, .. } => status_of_check(refused),
        }
    }

    /// The closing line, with its LF.
    pub fn line(&self, alloc: Global) -> Result<String, NoMemory>
        ensures { IfOk result (λ line. string_bytes line ≡ closing_line self.now) }
    {
        let line = match *self {
            Closing::Answered {
                day,
                tuples,
                notices,
            } => { format!(in alloc; "# answered day {day} tuples {tuples} notices {notices}\n")? }
            Closing::Stored {
                day,
                tuples,
                notices,
                total,
            } => return stored_line(alloc, day, tuples, notices, total),
            Closing::Already {
                day,
                tuples,
                notices,
                total,
            } => return already_line(alloc, day, tuples, notices, total),
            Closing::Agree { notices } => format!(in alloc; "# agree notices {notices}\n")?,
            Closing::TariffPut {
                xway,
                crowd,
                speed,
                factor,
            } => return tariff_line(alloc, xway, crowd, speed, factor),
            Closing::PastStored { base, rows } => return past_stored(alloc, base, rows),
            Closing::PastAlready { base, rows } => return past_already(alloc, base, rows),
            Closing::Words => format!(in alloc; "# words\n")?,
            Closing::Refused { line, cause } => {
                format!(in alloc; "# refused line {line} {cause}\n")?
            }
            Closing::PastRefused { line, cause } => return past_refused(alloc, line, cause),
            Closing::DayPassed { day, last } => {
                format!(in alloc; "# passed day {day} last {last}\n")?
            }
            Closing::DiffersDay { day, kept, found } => {
                return differs_day(alloc, day, &kept, &found);
            }
            Closing::NoDay { day } => format!(in alloc; "# no day {day}\n")?,
            Closing::PastLate { last } => return past_late(alloc, last),
            Closing::PastKept { base } => return past_kept(alloc, base),
            Closing::DiffersPast { base, kept, found } => {
                return differs_past(alloc, base, &kept, &found);
            }
            Closing::ReadFault => format!(in alloc; "# read fault\n")?,
            Closing::KeeperFault => format!(in alloc; "# keeper fault\n")?,
            Closing::DiffersLine {
                line,
                wanted,
                found,
            } => { format!(in alloc; "# differs line {line} wanted {wanted} found {found}\n")? }
            Closing::NoMemory => format!(in alloc; "# no memory\n")?,
            Closing::Rehearsed {
                bytes,
                digest,
                tuples,
                notices,
                notices_digest,
                total,
            } => {
                return rehearsal(
                    alloc,
                    bytes,
                    &digest,
                    tuples,
                    notices,
                    &notices_digest,
                    total,
                );
            }
            Closing::Listed { days, last } => return days_line(alloc, days, last),
            Closing::Unsound { day } => format!(in alloc; "# unsound day {day}\n")?,
            Closing::Checked { day, good, refused } => {
                return checked_line(alloc, day, good, refused);
            }
        };
        Ok(line)
    }
}
