// How a day's import ends.
ghost use Rattle.std.specs.Prelude.{◌≡◌, ◌≢◌};
ghost use Rattle.day_import.specs.Runs.{stopped_outcome, refused_outcome};
ghost use Rattle.keep_office.specs.declared.kept.DayRecord.{DayRecord as DayRecordValue};
ghost use Rattle.day_import.specs.Imports.{IsOfNewDay, IsOfAnswers};
ghost use Rattle.day_import.specs.Stages.{run_sums};
ghost use Rattle.day_import.specs.declared.outcomes.Outcome.TheVariants.{Stored};

use crate::day::WorkedDay;
use crate::fault::DayFault;
use keep_office::{DayRecord, KeepFault};
use road_digest::Digest;
use tuples_text::Cause;

/// What a day that was answered comes to: its bytes, its tuples, its notices, and its charges added up.
#[derive(Clone, Copy, Debug, PartialEq, Eq)]
pub struct AnsweredDay {
    pub bytes: u64,
    pub tuples: u64,
    pub notices: u64,
    pub total: u64,
}

/// How the import of a day, or its answering, ends.
#[derive(Clone, Copy, Debug, PartialEq, Eq)]
pub enum Outcome {
    /// The day is kept from now on.
    Stored(DayRecord),
    /// The day was kept before, of the same bytes.
    Already(DayRecord),
    /// The day was answered and is not kept.
    Answered(AnsweredDay),
    /// This line, counted from 1, is the first that is refused.
    Refused { line: u64, cause: Cause },
    /// The day is not kept, and a later one is, or a history up to it.
    DayPassed { last: u32 },
    /// The day is kept, of other bytes.
    Differs { kept: Digest, found: Digest },
    /// The source failed.
    ReadFault,
    /// The sink failed.
    WriteFault,
    /// The keeper failed.
    KeeperFault,
    /// Memory ran out.
    NoMemory,
}

/// What a day of so many bytes that was worked comes to.
pub fn sums_of(bytes: u64, run: &WorkedDay) -> AnsweredDay
    ensures { result ≡ run_sums bytes run.now }
{
    AnsweredDay {
        bytes,
        tuples: run.tuples,
        notices: run.closed.notices,
        total: run.closed.total,
    }
}

/// The outcome of a day whose work was stopped.
pub fn stopped(fault: DayFault) -> Outcome
    ensures is { result ≡ stopped_outcome fault }
    ensures new_day { IsOfNewDay result }
    ensures answers { IsOfAnswers result }
    ensures unstored { (kept : DayRecordValue) → result ≢ Stored kept }
{
    match fault {
        DayFault::ReadFault => Outcome::ReadFault,
        DayFault::WriteFault => Outcome::WriteFault,
        DayFault::KeeperFault => Outcome::KeeperFault,
        DayFault::NoMemory => Outcome::NoMemory,
    }
}

/// The outcome of a day whose keeper refused.
pub fn refused(fault: KeepFault) -> Outcome
    ensures { result ≡ refused_outcome fault }
{
    match fault {
        KeepFault::Failed => Outcome::KeeperFault,
        KeepFault::NoMemory => Outcome::NoMemory,
    }
}
