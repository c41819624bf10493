// One line of a day: judged, and its tuple put to those that wait.
ghost use Rattle.std.specs.Prelude.{◌≡◌, ◌≤◌, ◌≢◌, [], ℕ, List, Some, length, IfNone, false};
ghost use Rattle.road_time.specs.declared.day.Limits.{Limits as LimitsValue};
ghost use Rattle.tuples_text.specs.Gates.{StandsFor};
ghost use Rattle.tuples_text.specs.Sorting.{IsSorting};
ghost use Rattle.day_reading.specs.Lines.{TakesTuple, TakesLine, StopsAfter, refusal};
ghost use Rattle.day_reading.specs.declared.ending.Ending.TheVariants.{Stopped};
ghost use Rattle.day_reading.specs.declared.ending.ReadEnd.TheVariants.{ReadFault};

use crate::ending::{Ending, ReadEnd};
use road_time::{Limits, Tuple};
use std::alloc::Global;
use tuples_text::{AdmitFault, Cause, Gatekeeper, Sorter, read_line};

/// Judges the lines of a day and keeps the tuples that wait.
#[derive(Drop)]
pub struct Intake {
    pub line_limit: u32,
    pub gate: Gatekeeper,
    pub sorter: Sorter,
}

/// The end at a refused line.
pub fn refused(line: u64, cause: Cause) -> Ending
    ensures { result ≡ refusal line cause }
{
    Ending::Stopped(ReadEnd::Refused { line, cause })
}

/// Lets a tuple in and puts it to those that wait, or says how the reading ends.
fn take_tuple(
    gate: &mut Gatekeeper,
    sorter: &mut Sorter,
    line: u64,
    tuple: &Tuple,
) -> Option<Ending>
    ensures takes { (limits : LimitsValue) (late : ℕ)
        → TakesTuple limits late result line tuple.now gate.old gate.new sorter.old sorter.new }
    ensures after { StopsAfter result line }
    ensures unread { result ≢ Some (Stopped ReadFault) }
{
    match gate.admit(tuple) {
        Ok(()) => match sorter.put(tuple) {
            Ok(()) => None,
            Err(_) => Some(Ending::Stopped(ReadEnd::NoMemory)),
        },
        Err(AdmitFault::Refused(cause)) => Some(refused(line, cause)),
        Err(AdmitFault::NoMemory) => Some(Ending::Stopped(ReadEnd::NoMemory)),
    }
}

impl Intake {
    /// No line was taken. Lines may come late by up to so many seconds.
    pub fn new(alloc: Global, limits: &Limits, late: u8) -> Self
        requires { late ≤ 120 }
        ensures limit { result.line_limit ≡ limits.now.lines }
        ensures gate { StandsFor result.gate limits.now late [] }
        ensures sorter { IsSorting result.sorter late [] 0 false }
    {
        Intake {
            line_limit: limits.lines,
            gate: Gatekeeper::new(alloc, limits, late),
            sorter: Sorter::new(alloc, late),
        }
    }

    /// Takes the tuple of a line of at most 200 bytes, if it has one, or says how the reading ends.
    pub fn take(&mut self, line: u64, text: &[u8]) -> Option<Ending>
        requires { length text.now ≤ 200 }
        ensures takes { (limits : LimitsValue) (late : ℕ) → limits.lines ≡ self.old.line_limit
            → TakesLine limits late result line text.now self.old.gate self.new.gate self.old.sorter self.new.sorter }
        ensures after { StopsAfter result line }
        ensures unread { result ≢ Some (Stopped ReadFault) }
        ensures within { IfNone result (line ≤ self.old.line_limit) }
        ensures limit { self.new.line_limit ≡ self.old.line_limit }
    {
        if line > u64::from(self.line_limit) {
            return Some(refused(line, Cause::Many(self.line_limit)));
        }
        match read_line(text) {
            Ok(Some(tuple)) => take_tuple(&mut self.gate, &mut self.sorter, line, &tuple),
            Ok(None) => None,
            Err(cause) => Some(refused(line, cause)),
        }
    }
}
