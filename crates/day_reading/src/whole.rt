// A day whose lines are all checked.
ghost use Rattle.std.specs.Prelude.{◌≡◌, ◌≢◌, ◌≤◌, ◌<◌, [], ℕ, List, Some, Err, IfOk, length, false};
ghost use Rattle.road_time.specs.declared.day.Limits.{Limits as LimitsValue};
ghost use Rattle.road_time.specs.Lines.{lines_of};
ghost use Rattle.road_io.specs.Blame.{FaultsByPlan};
ghost use Rattle.road_io.specs.Plans.{NeverFails};
ghost use Rattle.road_io.specs.Within.{ReadsWithin};
ghost use Rattle.day_reading.specs.declared.whole.CheckStop.TheVariants.{ReadFault};
ghost use Rattle.day_reading.specs.Checked.{checked};
ghost use Rattle.day_reading.specs.Checking.{Tallies, ChecksOn, most_checked};

use crate::checker::Checker;
use crate::tally::Tally;
use road_io::Source;
use road_time::{Limits, NoMemory};
use std::alloc::Global;
use thiserror::Error;

/// Why a check has no result.
#[derive(Clone, Copy, Debug, PartialEq, Eq, Error)]
pub enum CheckStop {
    #[error("a read failed")]
    ReadFault,
    #[error("no memory")]
    NoMemory,
}

/// So many bytes are read at a time, at most.
const PIECE: usize = 65_536;

/// A buffer for a piece.
fn piece_buffer(alloc: Global) -> Result<Vec<u8>, NoMemory>
    ensures { IfOk result (λ buffer. length buffer.items ≡ 65536) }
{
    let buffer = vec![in alloc; 0u8; PIECE]?;
    Ok(buffer)
}

/// Reads some bytes and checks their lines; false at the end.
fn check_some<S: Source>(
    checker: &mut Checker,
    buffer: &mut [u8],
    source: &mut S,
) -> Result<bool, CheckStop>
    requires { 0 < length buffer.old }
    ensures checks { (limits : LimitsValue) (late : ℕ) (bytes : List ℕ)
        → ChecksOn checker.old limits late (S.left source.old) bytes
        → IfOk result (λ more. ChecksOn checker.new limits late (S.left source.new) bytes
        × (more ≡ false → S.left source.new ≡ Some [])) }
    ensures bounded { ReadsWithin (length buffer.old) (S.left source.old) (S.left source.new) }
    ensures len { length buffer.new ≡ length buffer.old }
    ensures same { S.name source.new ≡ S.name source.old }
    ensures source { FaultsByPlan (S.faults source.old) (S.faults source.new) (S.plan source.old)
        (result ≡ Err ReadFault) }
    ensures still { NeverFails (S.plan source.old) → NeverFails (S.plan source.new) }
{
    let count = match source.read(buffer) {
        Ok(count) => count,
        Err(_) => return Err(CheckStop::ReadFault),
    };
    match checker.take(&buffer[..count]) {
        Ok(()) => Ok(count > 0),
        Err(_) => Err(CheckStop::NoMemory),
    }
}

/// What was found of the lines of a day.
fn tally_of(checker: Checker) -> Result<Tally, CheckStop>
    ensures exact { (limits : LimitsValue) (late : ℕ) (bytes : List ℕ)
        → ChecksOn checker limits late (Some []) bytes
        → IfOk result (λ tally. Tallies tally (checked limits late (lines_of bytes))) }
    ensures read { result ≢ Err ReadFault }
{
    match checker.end() {
        Ok(tally) => Ok(tally),
        Err(_) => Err(CheckStop::NoMemory),
    }
}

/// Checks the lines of a day on, to the end of its source.
fn check_on<S: Source>(
    checker: Checker,
    buffer: &mut [u8],
    source: &mut S,
) -> Result<Tally, CheckStop>
    requires { length buffer.old ≡ 65536 }
    ensures exact { (limits : LimitsValue) (late : ℕ) (bytes : List ℕ)
        → ChecksOn checker limits late (S.left source.old) bytes
        → IfOk result (λ tally. Tallies tally (checked limits late (lines_of bytes))
        × (S.left source.new ≡ Some [])) }
    ensures bounded { ReadsWithin most_checked (S.left source.old) (S.left source.new) }
    ensures same { S.name source.new ≡ S.name source.old }
    ensures source { FaultsByPlan (S.faults source.old) (S.faults source.new) (S.plan source.old)
        (result ≡ Err ReadFault) }
    ensures still { NeverFails (S.plan source.old) → NeverFails (S.plan source.new) }
{
    let mut checker = checker;
    let mut pieces = u64::MAX;
    while pieces > 0 {
        match check_some(&mut checker, buffer, source) {
            Ok(true) => {}
            Ok(false) => return tally_of(checker),
            Err(stop) => return Err(stop),
        }
        pieces -= 1;
    }
    Err(CheckStop::NoMemory)
}

/// Checks the lines of a day, to the end of its source. They may come late by up to so many seconds.
pub fn check_day<S: Source>(
    alloc: Global,
    limits: &Limits,
    late: u8,
    source: &mut S,
) -> Result<Tally, CheckStop>
    requires { late ≤ 120 }
    ensures exact { (bytes : List ℕ) → S.left source.old ≡ Some bytes
        → IfOk result (λ tally. Tallies tally (checked limits.now late (lines_of bytes))) }
    ensures left { (bytes : List ℕ) → S.left source.old ≡ Some bytes
        → IfOk result (λ tally. S.left source.new ≡ Some []) }
    ensures bounded { ReadsWithin most_checked (S.left source.old) (S.left source.new) }
    ensures same { S.name source.new ≡ S.name source.old }
    ensures source { FaultsByPlan (S.faults source.old) (S.faults source.new) (S.plan source.old)
        (result ≡ Err ReadFault) }
    ensures still { NeverFails (S.plan source.old) → NeverFails (S.plan source.new) }
{
    let Ok(mut buffer) = piece_buffer(alloc) else {
        return Err(CheckStop::NoMemory);
    };
    let checker = Checker::new(alloc, limits, late);
    check_on(checker, buffer.as_mut_slice(), source)
}
