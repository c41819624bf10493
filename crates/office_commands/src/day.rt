// A day that a command recomputes: it is read whole, and may have fewer lines than one that is imported.
ghost use Rattle.std.specs.Prelude.{◌≡◌, ◌≤◌, List, ℕ, Some, Err, IfOk};
ghost use Rattle.road_time.specs.Fits.{Fit, IsLimits};
ghost use Rattle.road_time.specs.Reads.{reads};
ghost use Rattle.day_reading.specs.Days.{most_of_day};
ghost use Rattle.road_io.specs.Within.{ReadsWithin};
ghost use Rattle.day_reading.specs.declared.whole_day.ReadStop.TheVariants.{ReadFault};
ghost use Rattle.office_commands.specs.Days.{most_lines, recomputed, refusal_of, refused_at};
ghost use Rattle.office_commands.specs.Endings.{stopping};
ghost use Rattle.office_commands.specs.Rests.{EndsAt};
ghost use Rattle.road_io.specs.Blame.{FaultsByPlan};

use crate::closing::Closing;
use day_reading::{DayEnd, ReadStop};
use office_words::Recomputing;
use road_io::Source;
use road_time::{Limits, Tuple};
use std::alloc::Global;
use std::thread::Threads;
use tuples_text::Cause;

/// The tuples of a day in the order of Time, and the first line that was refused, if one was.
#[derive(Drop)]
pub struct ReadDay {
    pub tuples: Vec<Tuple>,
    pub refused: Option<(u64, Cause)>,
}

/// The closing of a command that could not read.
pub fn stopped(stop: ReadStop) -> Closing
    ensures { result ≡ stopping stop }
{
    match stop {
        ReadStop::ReadFault => Closing::ReadFault,
        ReadStop::NoMemory => Closing::NoMemory,
    }
}

/// How many lines a day may have that is recomputed.
fn most_lines(how: Recomputing) -> u32
    ensures { result ≡ most_lines how }
{
    match how {
        Recomputing::Plainly => 1_000_000,
        Recomputing::InBulk { .. } => 4_000_000,
    }
}

/// The limits of a day that is recomputed.
fn recomputed(limits: &Limits, how: Recomputing) -> Limits
    ensures { result ≡ recomputed how limits.now }
{
    Limits {
        lines: limits.lines.min(most_lines(how)),
        ..*limits
    }
}

/// The line at which a reading ended, if one was refused.
fn refused_at(end: DayEnd) -> Option<(u64, Cause)>
    ensures { result ≡ refused_at end }
{
    match end {
        DayEnd::Whole { .. } => None,
        DayEnd::Refused { line, cause } => Some((line, cause)),
    }
}

/// Reads a day that is recomputed, to its end or to the first line that is refused.
pub fn read_day<S: Source, R: Threads>(
    rt: &R,
    alloc: Global,
    limits: &Limits,
    how: Recomputing,
    late: u8,
    source: &mut S,
) -> Result<ReadDay, ReadStop>
    requires within { IsLimits limits.now }
    requires soon { late ≤ 120 }
    ensures tuples { (bytes : List ℕ) → S.left source.old ≡ Some bytes
        → IfOk result (λ d. d.tuples.items ≡ (reads bytes (recomputed how limits.now) late).tuples) }
    ensures refused { (bytes : List ℕ) → S.left source.old ≡ Some bytes
        → IfOk result (λ d. d.refused ≡ refusal_of (reads bytes (recomputed how limits.now) late).refused) }
    ensures fit { IfOk result (λ d. Fit d.tuples.items (recomputed how limits.now)) }
    ensures ends { (bytes : List ℕ) → S.left source.old ≡ Some bytes
        → IfOk result
        (λ d. EndsAt d.refused (reads bytes (recomputed how limits.now) late).refused bytes (S.left source.new)) }
    ensures bounded { ReadsWithin (most_of_day (recomputed how limits.now)) (S.left source.old) (S.left source.new) }
    ensures source { FaultsByPlan (S.faults source.old) (S.faults source.new) (S.plan source.old)
        (result ≡ Err ReadFault) }
{
    let lesser = recomputed(limits, how);
    match day_reading::read_day(rt, alloc, &lesser, late, false, source) {
        Ok(day) => Ok(ReadDay {
            refused: refused_at(day.end),
            tuples: day.tuples,
        }),
        Err(stop) => Err(stop),
    }
}
