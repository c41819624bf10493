// Answers of imports.
ghost use Rattle.std.specs.Prelude.{◌≡◌, ◌≢◌, ◌≤◌, ◌<◌, ℕ, List, [], Some, length};
ghost use Rattle.std.specs.Io.KnownBytes.{prepend_known};
ghost use Rattle.road_io.specs.Faults.{Rose};
ghost use Rattle.road_io.specs.Plans.{NeverFails};
ghost use Rattle.road_io.specs.Rooms.{Endless};
ghost use Rattle.keep_office.specs.Office.{Office};
ghost use Rattle.day_import.specs.declared.outcomes.AnsweredDay.{AnsweredDay};
ghost use Rattle.day_import.specs.declared.outcomes.Outcome.TheVariants as outcomes;
ghost use Rattle.day_import.specs.declared.outcomes.Outcome.TheVariants.{ReadFault, WriteFault, KeeperFault};
ghost use Rattle.serve_requests.specs.declared.session_end.SessionEnd.TheVariants.{Answered, LinkFault};
ghost use Rattle.serve_desk.specs.Answers.{AnswersOutcome, TellsFault, wire_of};
ghost use Rattle.serve_desk.specs.Imports.{state_of, ImportsDay};
ghost use Rattle.serve_desk.specs.Reading.{FinishesBody, Finishes, FitsRead, IsStopped};
ghost use Rattle.serve_desk.specs.declared.imported.ReadTo.TheVariants as reading;

use crate::answers::{send_keeper_fault, send_made};
use crate::imported::{Imported, ReadTo};
use crate::importing::import_only;
use crate::work::DayWork;
use day_import::Outcome;
use http::StatusCode;
use keep_office::Keeper;
use road_io::Link;
use serve_board::BoardWriter;
use serve_requests::{
    BodyEnd, SessionEnd, differs_body, imported_body, passed_body, refused_body, send_no_memory,
    skip_body,
};
use std::alloc::Global;
use std::sync::Wait;
use std::thread::Threads;
use ways_crews::Crew;

/// Answers how an import ended.
fn send_outcome<L: Link>(alloc: Global, link: &mut L, outcome: Outcome) -> SessionEnd
    requires read { outcome ≢ ReadFault }
    requires written { outcome ≢ WriteFault }
    requires kept { (day : AnsweredDay) → outcome ≢ outcomes.Answered day }
    ensures sent { AnswersOutcome outcome (L.room link.old) (L.written link.old) (L.written link.new) result }
    ensures unavailable { result ≡ Answered 503 → outcome ≡ KeeperFault }
    ensures told { outcome ≡ KeeperFault → TellsFault result }
    ensures unread { L.left link.new ≡ L.left link.old }
    ensures sure { L.room link.old ≡ Endless → result ≢ LinkFault }
    ensures cause { result ≡ LinkFault → Rose (L.faults link.old) (L.faults link.new) }
    ensures later { L.faults link.old ≤ L.faults link.new }
{
    match outcome {
        Outcome::Stored(kept) => {
            send_made(
                alloc,
                link,
                StatusCode::OK,
                imported_body(alloc, &kept, "stored"),
            )
        }
        Outcome::Already(kept) => {
            send_made(
                alloc,
                link,
                StatusCode::OK,
                imported_body(alloc, &kept, "already"),
            )
        }
        Outcome::Refused { line, cause } => send_made(
            alloc,
            link,
            StatusCode::UNPROCESSABLE_ENTITY,
            refused_body(alloc, line, &cause),
        ),
        Outcome::DayPassed { last } => {
            send_made(alloc, link, StatusCode::CONFLICT, passed_body(alloc, last))
        }
        Outcome::Differs { kept, found } => send_made(
            alloc,
            link,
            StatusCode::CONFLICT,
            differs_body(alloc, &kept, &found),
        ),
        Outcome::KeeperFault => send_keeper_fault(link),
        Outcome::NoMemory => send_no_memory(link),
        Outcome::Answered(_) => unreachable!(),
        Outcome::ReadFault => unreachable!(),
        Outcome::WriteFault => unreachable!(),
    }
}

/// Reads what is left of a body, and answers how its import ended.
fn finish_body<L: Link>(
    alloc: Global,
    outcome: Outcome,
    early: &[u8],
    left: u64,
    link: &mut L,
) -> SessionEnd
    requires few { length early.now ≤ left }
    requires read { outcome ≢ ReadFault }
    requires written { outcome ≢ WriteFault }
    requires kept { (day : AnsweredDay) → outcome ≢ outcomes.Answered day }
    ensures ends { (rest : List ℕ) → prepend_known early.now (L.left link.old) ≡ Some rest
        → FinishesBody left rest outcome
        (wire_of (L.left link.old) (L.plan link.old) (L.written link.old) (L.room link.old))
        (wire_of (L.left link.new) (L.plan link.new) (L.written link.new) (L.room link.new)) result }
    ensures unavailable { result ≡ Answered 503 → outcome ≡ KeeperFault }
    ensures told { outcome ≡ KeeperFault → TellsFault result }
    ensures sure { NeverFails (L.plan link.old) → L.room link.old ≡ Endless → result ≢ LinkFault }
    ensures cause { result ≡ LinkFault → Rose (L.faults link.old) (L.faults link.new) }
    ensures later { L.faults link.old ≤ L.faults link.new }
{
    if left == 0 {
        return send_outcome(alloc, link, outcome);
    }
    match skip_body(link, early, left) {
        BodyEnd::Whole => send_outcome(alloc, link, outcome),
        BodyEnd::Cut => SessionEnd::Cut,
        BodyEnd::LinkFault => SessionEnd::LinkFault,
    }
}

/// Does what is left of a request whose day was imported: reads the rest of its body, and answers how the import ended.
/// It needs the link alone.
pub fn finish_import<L: Link>(alloc: Global, imported: Imported<'_>, link: &mut L) -> SessionEnd
    requires fits { FitsRead imported.early.now imported.read }
    requires read { imported.outcome ≡ ReadFault → IsStopped imported.read }
    requires written { imported.outcome ≢ WriteFault }
    requires kept { (day : AnsweredDay) → imported.outcome ≢ outcomes.Answered day }
    ensures ends { Finishes imported.entry.early.now imported.entry.outcome
        (wire_of (L.left link.old) (L.plan link.old) (L.written link.old) (L.room link.old))
        (wire_of (L.left link.new) (L.plan link.new) (L.written link.new) (L.room link.new))
        imported.entry.read result }
    ensures unavailable { result ≡ Answered 503 → imported.entry.outcome ≡ KeeperFault }
    ensures told { imported.entry.outcome ≡ KeeperFault → TellsFault result }
    ensures sure { imported.entry.read ≢ reading.LinkFault → NeverFails (L.plan link.old)
        → L.room link.old ≡ Endless → result ≢ LinkFault }
    ensures cause { imported.entry.read ≢ reading.LinkFault → result ≡ LinkFault
        → Rose (L.faults link.old) (L.faults link.new) }
    ensures later { L.faults link.old ≤ L.faults link.new }
{
    match imported.read {
        ReadTo::Open(left) => finish_body(alloc, imported.outcome, imported.early, left, link),
        ReadTo::Cut => SessionEnd::Cut,
        ReadTo::LinkFault => SessionEnd::LinkFault,
    }
}

/// Imports a day from the body of a request, publishes its charges, and answers how that ended.
pub fn answer_import<L: Link, K: Keeper, C: Crew, R: Wait + Threads + Drop>(
    rt: &R,
    alloc: Global,
    work: DayWork,
    early: &[u8],
    count: u64,
    keeper: &mut K,
    crew: &mut C,
    writer: &mut BoardWriter<R>,
    link: &mut L,
) -> SessionEnd
    requires idle { C.out crew.old ≡ [] }
    requires few { length early.now ≤ count }
    ensures imports { (all : List ℕ) (o : Office) → prepend_known early.now (L.left link.old) ≡ Some all
        → K.told keeper.old ≡ Some o → ImportsDay K.refuses C.exact work.day work.limits count all o
        (state_of (K.told keeper.old) (K.faults keeper.old) writer.old.posted)
        (state_of (K.told keeper.new) (K.faults keeper.new) writer.new.posted)
        (wire_of (L.left link.old) (L.plan link.old) (L.written link.old) (L.room link.old))
        (wire_of (L.left link.new) (L.plan link.new) (L.written link.new) (L.room link.new)) result }
    ensures idle { C.out crew.new ≡ [] }
    ensures crew { C.which crew.new ≡ C.which crew.old }
    ensures board { writer.new.board ≡ writer.old.board }
    ensures unavailable { result ≡ Answered 503 → Rose (K.faults keeper.old) (K.faults keeper.new) }
    ensures failed { K.faults keeper.old < K.faults keeper.new → TellsFault result }
    ensures sure { NeverFails (L.plan link.old) → L.room link.old ≡ Endless → result ≢ LinkFault }
    ensures cause { result ≡ LinkFault → Rose (L.faults link.old) (L.faults link.new) }
    ensures later { L.faults link.old ≤ L.faults link.new }
    ensures keeper_later { K.faults keeper.old ≤ K.faults keeper.new }
{
    let imported = import_only(rt, alloc, work, early, count, link, keeper, crew, writer);
    finish_import(alloc, imported, link)
}
