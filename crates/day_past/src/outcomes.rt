// How keeping a history ends, and why a line of one is refused.
ghost use Rattle.std.specs.Prelude.{◌≡◌, Some};
ghost use Rattle.day_past.specs.Causes.{past_cause_text};
ghost use Rattle.day_past.specs.Imports.{past_refused};

use keep_office::{KeepFault, PastRecord};
use road_digest::Digest;
use std::fmt;

/// Why a line of a history is refused, and with it the whole history.
#[derive(Clone, Copy, Debug, PartialEq, Eq)]
pub enum PastCause {
    /// The line has more than 200 bytes.
    Long,
    /// The line's number is above this limit of lines.
    Many(u32),
    /// The line has so many fields.
    Fields(u32),
    /// This field, counted from 1, is no number.
    Number(u8),
    /// This field, counted from 1, is out of its range.
    Range(u8),
    /// An earlier line is of the same vehicle, day and expressway.
    Twice,
}

impl fmt::Display for PastCause {
    ghost output = { λ cause. Some (past_cause_text cause) };

    fn fmt<W: fmt::Write>(&self, f: &mut fmt::Formatter<W>) -> fmt::Result {
        match *self {
            PastCause::Long => f.write_str("long"),
            PastCause::Many(limit) => write!(f, "many {limit}"),
            PastCause::Fields(count) => write!(f, "fields {count}"),
            PastCause::Number(field) => write!(f, "number {field}"),
            PastCause::Range(field) => write!(f, "range {field}"),
            PastCause::Twice => f.write_str("twice"),
        }
    }
}

/// How keeping a history ends.
#[derive(Clone, Copy, Debug, PartialEq, Eq)]
pub enum PastOutcome {
    /// The history is kept from now on.
    Stored(PastRecord),
    /// The history was kept before, of the same bytes.
    Already(PastRecord),
    /// This line, counted from 1, is the first that is refused.
    Row { line: u64, cause: PastCause },
    /// No history is kept, and a day is, this one as the last.
    PastLate { last: u32 },
    /// A history is kept that is counted back from another day.
    OtherBase { kept: u32 },
    /// The history is kept, of other bytes.
    Differs { kept: Digest, found: Digest },
    /// The source failed.
    ReadFault,
    /// The keeper failed.
    KeeperFault,
    /// Memory ran out.
    NoMemory,
}

/// The outcome of a history whose keeper refused.
pub fn keeper_refused(fault: KeepFault) -> PastOutcome
    ensures { result ≡ past_refused fault }
{
    match fault {
        KeepFault::Failed => PastOutcome::KeeperFault,
        KeepFault::NoMemory => PastOutcome::NoMemory,
    }
}
