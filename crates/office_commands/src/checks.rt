// The command `check DAY`: each refused line of a day.
ghost use Rattle.std.specs.Prelude.{◌≡◌, ◌≢◌, ◌≤◌, ℕ, List, Some, Ok, IsErr};
ghost use Rattle.road_io.specs.Within.{ReadsWithin};
ghost use Rattle.road_io.specs.Blame.{FaultsByPlan, FaultsByRoom};
ghost use Rattle.keep_office.specs.Office.{Office};
ghost use Rattle.day_reading.specs.Checked.{Checked};
ghost use Rattle.day_reading.specs.Checking.{Tallies, most_checked};
ghost use Rattle.office_commands.specs.Commands.{check_command, check_answer};
ghost use Rattle.office_commands.specs.Endings.{Wrote, code_of, stopping_check};
ghost use Rattle.office_commands.specs.Rests.{ReadsToEnd};
ghost use Rattle.office_commands.specs.declared.closing.Closing.TheVariants.{ReadFault, KeeperFault, Words};

use crate::closing::Closing;
use day_reading::{CheckStop, Tally, check_day, refusals_text};
use road_io::{Failed, Sink, Source, put_all};
use road_time::{Limits, NoMemory};
use std::alloc::Global;

/// The closing of a check that could not read.
fn stopped(stop: CheckStop) -> Closing
    ensures { result ≡ stopping_check stop }
{
    match stop {
        CheckStop::ReadFault => Closing::ReadFault,
        CheckStop::NoMemory => Closing::NoMemory,
    }
}

/// Names the refused lines of a day that was checked, and says how many lines are good and how many refused.
fn write_refusals<O: Sink>(
    alloc: Global,
    day: u32,
    tally: &Tally,
    sink: &mut O,
) -> Result<Option<Closing>, Failed>
    ensures wrote { (c : Checked) (o : Office) → Tallies tally.now c
        → Wrote (check_answer day c o) result (O.written sink.old) (O.written sink.new) }
    ensures unread { result ≢ Ok (Some ReadFault) }
    ensures unasked { result ≢ Ok (Some KeeperFault) }
    ensures said { result ≢ Ok (Some Words) }
    ensures sink { FaultsByRoom (O.faults sink.old) (O.faults sink.new) (O.room sink.old) (O.room sink.new)
        (IsErr result) }
{
    let text = match refusals_text(alloc, tally.named.as_slice()) {
        Ok(text) => text,
        Err(NoMemory) => return Ok(Some(Closing::NoMemory)),
    };
    let good = tally.good();
    match put_all(sink, text.as_slice()) {
        Ok(()) => Ok(Some(Closing::Checked {
            day,
            good,
            refused: tally.refused,
        })),
        Err(failed) => Err(failed),
    }
}

/// Names the lines of what the source has that are refused.
pub fn check<S: Source, O: Sink>(
    alloc: Global,
    day: u32,
    late: u8,
    limits: &Limits,
    source: &mut S,
    sink: &mut O,
) -> Result<Option<Closing>, Failed>
    requires soon { late ≤ 120 }
    ensures wrote { (bytes : List ℕ) (o : Office) → S.left source.old ≡ Some bytes
        → Wrote (check_command limits.now day late bytes o) result (O.written sink.old) (O.written sink.new) }
    ensures said { result ≢ Ok (Some Words) }
    ensures unasked { result ≢ Ok (Some KeeperFault) }
    ensures reads { ReadsToEnd (code_of result) (S.left source.old) (S.left source.new) }
    ensures bounded { ReadsWithin most_checked (S.left source.old) (S.left source.new) }
    ensures source { FaultsByPlan (S.faults source.old) (S.faults source.new) (S.plan source.old)
        (result ≡ Ok (Some ReadFault)) }
    ensures sink { FaultsByRoom (O.faults sink.old) (O.faults sink.new) (O.room sink.old) (O.room sink.new)
        (IsErr result) }
{
    match check_day(alloc, limits, late, source) {
        Ok(tally) => write_refusals(alloc, day, &tally, sink),
        Err(stop) => Ok(Some(stopped(stop))),
    }
}
