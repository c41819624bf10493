// How an answer that streams ends.
ghost use Rattle.std.specs.Prelude.{◌≡◌, ◌≢◌, ◌≤◌, ℕ, string_bytes, IfOk};
ghost use Rattle.road_io.specs.Faults.{Rose};
ghost use Rattle.road_io.specs.Rooms.{Endless};
ghost use Rattle.day_import.specs.declared.outcomes.Outcome.TheVariants.{WriteFault, KeeperFault};
ghost use Rattle.serve_requests.specs.declared.session_end.SessionEnd.TheVariants.{Answered, LinkFault};
ghost use Rattle.serve_desk.specs.Answers.{TellsFault, wire_of};
ghost use Rattle.serve_desk.specs.Reading.{FitsRead, Skips};
ghost use Rattle.serve_desk.specs.Streams.{Closes, WritesLast, closing_of, end_of as end_by};

use crate::imported::{Imported, ReadTo};
use day_import::Outcome;
use road_io::{Link, Sink, put_all};
use road_time::NoMemory;
use serve_requests::{
    SessionEnd, answered_line, keeper_fault_line, memory_line, read_fault_line, refused_line,
    skip_body,
};
use std::alloc::Global;

/// The closing line of a day that was answered, where there is memory for it.
fn closing_line(alloc: Global, day: u32, outcome: &Outcome) -> Result<String, NoMemory>
    ensures { IfOk result (λ s. string_bytes s ≡ closing_of day outcome.now) }
{
    match *outcome {
        Outcome::Answered(sums) => answered_line(alloc, day, sums.tuples, sums.notices),
        Outcome::Refused { line, cause } => refused_line(alloc, line, cause),
        Outcome::ReadFault => read_fault_line(alloc),
        Outcome::KeeperFault => keeper_fault_line(alloc),
        Outcome::NoMemory => Err(NoMemory),
        Outcome::WriteFault => Err(NoMemory),
        Outcome::Stored(_) => Err(NoMemory),
        Outcome::Already(_) => Err(NoMemory),
        Outcome::DayPassed { .. } => Err(NoMemory),
        Outcome::Differs { .. } => Err(NoMemory),
    }
}

/// How a session ends whose closing line was written.
fn end_of(outcome: &Outcome) -> SessionEnd
    ensures { result ≡ end_by outcome.now }
{
    match *outcome {
        Outcome::KeeperFault => SessionEnd::Cut,
        Outcome::WriteFault => SessionEnd::LinkFault,
        Outcome::Answered(_) => SessionEnd::Answered(200),
        Outcome::Refused { .. } => SessionEnd::Answered(200),
        Outcome::ReadFault => SessionEnd::Answered(200),
        Outcome::NoMemory => SessionEnd::Answered(200),
        Outcome::Stored(_) => SessionEnd::Answered(200),
        Outcome::Already(_) => SessionEnd::Answered(200),
        Outcome::DayPassed { .. } => SessionEnd::Answered(200),
        Outcome::Differs { .. } => SessionEnd::Answered(200),
    }
}

/// Writes the last line of an answer that streams.
fn write_last<O: Sink>(out: &mut O, line: &[u8], wanted: SessionEnd) -> SessionEnd
    ensures sent { WritesLast line.now wanted (O.written out.old) (O.written out.new) result }
    ensures later { O.faults out.old ≤ O.faults out.new }
    ensures cause { wanted ≢ LinkFault → result ≡ LinkFault → Rose (O.faults out.old) (O.faults out.new) }
    ensures sure { O.room out.old ≡ Endless → wanted ≢ LinkFault → result ≢ LinkFault }
{
    match put_all(out, line) {
        Ok(()) => wanted,
        Err(_) => SessionEnd::LinkFault,
    }
}

/// Writes the closing line of a day that was answered, or that of want of memory; nothing where the link had failed.
fn close_stream<O: Sink>(alloc: Global, day: u32, outcome: &Outcome, out: &mut O) -> SessionEnd
    ensures closes { Closes day outcome.now (O.written out.old) (O.written out.new) result }
    ensures unavailable { result ≢ Answered 503 }
    ensures told { outcome.now ≡ KeeperFault → TellsFault result }
    ensures later { O.faults out.old ≤ O.faults out.new }
    ensures cause { (before : ℕ) → before ≤ O.faults out.old
        → (outcome.now ≡ WriteFault → Rose before (O.faults out.old))
        → result ≡ LinkFault → Rose before (O.faults out.new) }
    ensures sure { O.room out.old ≡ Endless → outcome.now ≢ WriteFault → result ≢ LinkFault }
{
    if let Outcome::WriteFault = *outcome {
        return SessionEnd::LinkFault;
    }
    let wanted = end_of(outcome);
    match closing_line(alloc, day, outcome) {
        Ok(line) => write_last(out, line.as_bytes(), wanted),
        Err(_) => write_last(out, memory_line(), wanted),
    }
}

/// Reads what is left of a body, if it can be read on.
fn skip_rest<L: Link>(early: &[u8], read: ReadTo, link: &mut L)
    requires { FitsRead early.now read }
    ensures skips { Skips early.now
        (wire_of (L.left link.old) (L.plan link.old) (L.written link.old) (L.room link.old))
        (wire_of (L.left link.new) (L.plan link.new) (L.written link.new) (L.room link.new)) read }
    ensures later { L.faults link.old ≤ L.faults link.new }
{
    match read {
        ReadTo::Open(left) => {
            let _ = skip_body(link, early, left);
        }
        ReadTo::Cut => {}
        ReadTo::LinkFault => {}
    }
}

/// Does what is left of a request whose notices were streamed: reads the rest of its body, and writes the closing line.
pub fn finish_stream<L: Link, O: Sink>(
    alloc: Global,
    day: u32,
    settled: Imported<'_>,
    link: &mut L,
    out: &mut O,
) -> SessionEnd
    requires { FitsRead settled.early.now settled.read }
    ensures closes { Closes day settled.entry.outcome (O.written out.old) (O.written out.new) result }
    ensures skips { Skips settled.entry.early.now
        (wire_of (L.left link.old) (L.plan link.old) (L.written link.old) (L.room link.old))
        (wire_of (L.left link.new) (L.plan link.new) (L.written link.new) (L.room link.new)) settled.entry.read }
    ensures unavailable { result ≢ Answered 503 }
    ensures told { settled.entry.outcome ≡ KeeperFault → TellsFault result }
    ensures later { L.faults link.old ≤ L.faults link.new }
    ensures out_later { O.faults out.old ≤ O.faults out.new }
    ensures cause { (before : ℕ) → before ≤ O.faults out.old
        → (settled.entry.outcome ≡ WriteFault → Rose before (O.faults out.old))
        → result ≡ LinkFault → Rose before (O.faults out.new) }
    ensures sure { O.room out.old ≡ Endless → settled.entry.outcome ≢ WriteFault → result ≢ LinkFault }
{
    skip_rest(settled.early, settled.read, link);
    close_stream(alloc, day, &settled.outcome, out)
}
