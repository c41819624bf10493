// The command `accidents`: the accident log of a day.
ghost use Rattle.std.specs.Prelude.{◌≡◌, ◌≢◌, ◌≤◌, ℕ, List, Some, Ok, IsErr};
ghost use Rattle.road_time.specs.Fits.{IsDay, IsLimits};
ghost use Rattle.keep_office.specs.Office.{Office};
ghost use Rattle.day_reading.specs.Days.{most_of_day};
ghost use Rattle.road_io.specs.Within.{ReadsWithin};
ghost use Rattle.office_words.specs.declared.command.Recomputing.TheVariants.{Plainly};
ghost use Rattle.office_commands.specs.Days.{recomputed};
ghost use Rattle.office_commands.specs.Commands.{accidents_command, accidents_of, unless_refused};
ghost use Rattle.office_commands.specs.Endings.{Wrote, code_of};
ghost use Rattle.office_commands.specs.Rests.{HasReadDay, SaysBy};
ghost use Rattle.office_commands.specs.declared.closing.Closing.TheVariants.{ReadFault, KeeperFault, Words};
ghost use Rattle.road_io.specs.Blame.{FaultsByPlan, FaultsByRoom};

use crate::closing::Closing;
use crate::day::{ReadDay, read_day, stopped};
use office_reports::{ReportFault, accident_log};
use office_words::Recomputing;
use road_io::{Failed, Sink, Source};
use road_time::Limits;
use std::alloc::Global;
use std::thread::Threads;

/// Writes the accident log of a day that was read whole.
fn write_accidents<O: Sink>(
    alloc: Global,
    day: &ReadDay,
    sink: &mut O,
) -> Result<Option<Closing>, Failed>
    requires { IsDay day.now.tuples.items }
    ensures wrote { (o : Office)
        → Wrote (unless_refused day.now.refused (accidents_of day.now.tuples.items o)) result (O.written sink.old)
        (O.written sink.new) }
    ensures unread { result ≢ Ok (Some ReadFault) }
    ensures unasked { result ≢ Ok (Some KeeperFault) }
    ensures said { result ≢ Ok (Some Words) }
    ensures says { SaysBy day.now.refused (code_of result) }
    ensures sink { FaultsByRoom (O.faults sink.old) (O.faults sink.new) (O.room sink.old) (O.room sink.new)
        (IsErr result) }
{
    if let Some((line, cause)) = day.refused {
        return Ok(Some(Closing::Refused { line, cause }));
    }
    match accident_log(alloc, day.tuples.as_slice(), sink) {
        Ok(()) => Ok(None),
        Err(ReportFault::WriteFault) => Err(Failed),
        Err(_) => Ok(Some(Closing::NoMemory)),
    }
}

/// Lists the accidents of what the source has, unless a line is refused.
pub fn accidents<S: Source, O: Sink, R: Threads>(
    rt: &R,
    alloc: Global,
    late: u8,
    limits: &Limits,
    source: &mut S,
    sink: &mut O,
) -> Result<Option<Closing>, Failed>
    requires soon { late ≤ 120 }
    requires limits { IsLimits limits.now }
    ensures wrote { (bytes : List ℕ) (o : Office) → S.left source.old ≡ Some bytes
        → Wrote (accidents_command limits.now late bytes o) result (O.written sink.old) (O.written sink.new) }
    ensures said { result ≢ Ok (Some Words) }
    ensures unasked { result ≢ Ok (Some KeeperFault) }
    ensures reads { HasReadDay (recomputed Plainly limits.now) late (code_of result) (S.left source.old)
        (S.left source.new) }
    ensures bounded { ReadsWithin (most_of_day (recomputed Plainly limits.now)) (S.left source.old)
        (S.left source.new) }
    ensures source { FaultsByPlan (S.faults source.old) (S.faults source.new) (S.plan source.old)
        (result ≡ Ok (Some ReadFault)) }
    ensures sink { FaultsByRoom (O.faults sink.old) (O.faults sink.new) (O.room sink.old) (O.room sink.new)
        (IsErr result) }
{
    match read_day(rt, alloc, limits, Recomputing::Plainly, late, source) {
        Ok(day) => write_accidents(alloc, &day, sink),
        Err(stop) => Ok(Some(stopped(stop))),
    }
}
