// The tuples of a day in one list, read to the end of its bytes or to the first line that is refused.
ghost use Rattle.std.specs.Prelude.{◌≡◌, ◌≤◌, List, ℕ, Option, Some, None, Err, IfOk};
ghost use Rattle.road_time.specs.Fits.{Fit, IsLimits};
ghost use Rattle.road_time.specs.Reads.{reads};
ghost use Rattle.road_io.specs.Blame.{FaultsByPlan};
ghost use Rattle.road_io.specs.Plans.{NeverFails};
ghost use Rattle.road_io.specs.Cutter.{ahead};
ghost use Rattle.day_reading.specs.Days.{EndsReading, IsDigested, IsShortDay, LeavesBehind, most_of_day};
ghost use Rattle.road_io.specs.Within.{ReadsWithin};
ghost use Rattle.day_reading.specs.Readings.{HasTaken, HasRead};
ghost use Rattle.day_reading.specs.declared.whole_day.ReadStop.TheVariants.{ReadFault};

use crate::day_reader::DayReader;
use crate::ending::ReadEnd;
use road_digest::Digest;
use road_io::Source;
use road_time::{Limits, Tuple};
use std::alloc::Global;
use std::thread::Threads;
use thiserror::Error;
use tuples_text::Cause;

/// How the reading of a day ended.
#[derive(Clone, Copy, Debug, PartialEq, Eq)]
pub enum DayEnd {
    /// At the end of its bytes, of which this is the digest, if it was asked.
    Whole { bytes: u64, digest: Option<Digest> },
    /// At this line, counted from 1, the first that is refused.
    Refused { line: u64, cause: Cause },
}

/// The tuples of a day in the order of Time, and how its reading ended.
#[derive(Drop)]
pub struct Day {
    pub tuples: Vec<Tuple>,
    pub end: DayEnd,
}

/// Why a reading has no result.
#[derive(Clone, Copy, Debug, PartialEq, Eq, Error)]
pub enum ReadStop {
    #[error("a read failed")]
    ReadFault,
    #[error("no memory")]
    NoMemory,
}

/// How many bytes a reader that is done has taken, and their digest, if it was asked.
pub fn whole<R: Threads>(rt: &R, reader: DayReader) -> DayEnd
    ensures exact { (bytes : List ℕ) → HasTaken reader.consumed bytes → EndsReading result bytes None }
    ensures left { (left : Option (List ℕ)) (bytes : List ℕ) → HasTaken reader.consumed bytes
        → HasRead (ahead reader.cutter left) reader.consumed bytes → LeavesBehind result bytes left }
    ensures short { reader.intake.line_limit ≤ 16000000 → IsShortDay result }
    ensures digested { IsDigested reader.consumed.digested result }
{
    let bytes = reader.bytes();
    DayEnd::Whole {
        bytes,
        digest: reader.digest(rt),
    }
}

/// Reads a day to its end or to the first line that is refused, with or without the digest. Lines may come late by up
/// to so many seconds.
pub fn read_day<S: Source, R: Threads>(
    rt: &R,
    alloc: Global,
    limits: &Limits,
    late: u8,
    digested: bool,
    source: &mut S,
) -> Result<Day, ReadStop>
    requires within { IsLimits limits.now }
    requires soon { late ≤ 120 }
    ensures tuples { (bytes : List ℕ) → S.left source.old ≡ Some bytes
        → IfOk result (λ d. d.tuples.items ≡ (reads bytes limits.now late).tuples) }
    ensures end { (bytes : List ℕ) → S.left source.old ≡ Some bytes
        → IfOk result (λ d. EndsReading d.end bytes (reads bytes limits.now late).refused) }
    ensures fit { IfOk result (λ d. Fit d.tuples.items limits.now) }
    ensures short { IfOk result (λ d. IsShortDay d.end) }
    ensures digested { IfOk result (λ d. IsDigested digested d.end) }
    ensures left { (bytes : List ℕ) → S.left source.old ≡ Some bytes
        → IfOk result (λ d. LeavesBehind d.end bytes (S.left source.new)) }
    ensures bounded { ReadsWithin (most_of_day limits.now) (S.left source.old) (S.left source.new) }
    ensures same { S.name source.new ≡ S.name source.old }
    ensures source { FaultsByPlan (S.faults source.old) (S.faults source.new) (S.plan source.old)
        (result ≡ Err ReadFault) }
    ensures still { NeverFails (S.plan source.old) → NeverFails (S.plan source.new) }
{
    let Ok(mut reader) = DayReader::new(alloc, limits, late, digested) else {
        return Err(ReadStop::NoMemory);
    };
    // Read for the proof alone: it is a number of 32 bits.
    let _lines = limits.lines;
    let mut tuples = Vec::new(alloc);
    'reading: loop {
        match reader.next(rt, source) {
            Ok(Some(tuple)) => {
                if tuples.push(tuple).is_err() {
                    reader.close(rt);
                    return Err(ReadStop::NoMemory);
                }
            }
            Ok(None) => {
                let end = whole(rt, reader);
                return Ok(Day { tuples, end });
            }
            Err(ReadEnd::Refused { line, cause }) => {
                reader.close(rt);
                let end = DayEnd::Refused { line, cause };
                return Ok(Day { tuples, end });
            }
            Err(ReadEnd::ReadFault) => {
                reader.close(rt);
                return Err(ReadStop::ReadFault);
            }
            Err(ReadEnd::NoMemory) => {
                reader.close(rt);
                return Err(ReadStop::NoMemory);
            }
        }
    }
}
