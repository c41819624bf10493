// One request of a link, and its answer.
ghost use Rattle.std.specs.Prelude.{◌≡◌, ◌≢◌, ◌≤◌, ◌<◌, true, false, ℕ, List, Some};
ghost use Rattle.road_io.specs.Faults.{Rose};
ghost use Rattle.road_io.specs.Plans.{NeverFails};
ghost use Rattle.road_io.specs.Rooms.{Endless};
ghost use Rattle.keep_office.specs.Office.{Office};
ghost use Rattle.serve_board.specs.Passes.{StartsWith};
ghost use Rattle.serve_requests.specs.ReadRequests.{IsAsked};
ghost use Rattle.serve_requests.specs.declared.session_end.SessionEnd.TheVariants.{Answered, LinkFault};
ghost use Rattle.serve_desk.specs.Answers.{wire_of, TellsFault};
ghost use Rattle.serve_desk.specs.Imports.{state_of};
ghost use Rattle.serve_desk.specs.Desk.{AnswersKept, IsOfKept};
ghost use Rattle.serve_desk.specs.Live.{IsOfLive};
ghost use Rattle.serve_desk.specs.Sessions.{Serves, Learns};

use crate::desk::Desk;
use crate::live::live_answer;
use keep_office::Keeper;
use road_io::TwoWay;
use serve_board::{BoardReader, BoardWriter};
use serve_requests::{Asked, Routes, SessionEnd, read_asked};
use std::alloc::Global;
use std::sync::Wait;
use std::thread::Threads;
use ways_crews::Crew;

/// Whether it is asked of the live board.
pub fn is_live(asked: &Asked) -> bool
    ensures live { result ≡ true → IsOfLive asked.now }
    ensures kept { result ≡ false → IsOfKept asked.now }
{
    match asked {
        Asked::Live(_) => true,
        Asked::LiveTotal => true,
        Asked::Day(_) => false,
        Asked::Spent { .. } => false,
        Asked::Import { .. } => false,
        Asked::Vehicle { .. } => false,
        Asked::Days => false,
        Asked::Page => false,
        Asked::Health => false,
        Asked::Answers { .. } => false,
    }
}

/// Answers a request of what is kept, and tells the reader all that is published then.
fn answer_and_learn<L: TwoWay, K: Keeper, C: Crew, R: Wait + Threads + Drop>(
    alloc: Global,
    link: &mut L,
    asked: &Asked,
    reader: &mut BoardReader,
    desk: &mut Desk<K, C, R>,
) -> SessionEnd
    requires asked { IsAsked asked.now }
    requires kept { IsOfKept asked.now }
    requires board { reader.old.board ≡ desk.old.writer.board }
    ensures answers { (o : Office) → K.told desk.old.keeper ≡ Some o
        → AnswersKept K.refuses C.exact asked.now desk.old.limits o
        (state_of (K.told desk.old.keeper) (K.faults desk.old.keeper) desk.old.writer.posted)
        (state_of (K.told desk.new.keeper) (K.faults desk.new.keeper) desk.new.writer.posted)
        (wire_of (L.left link.old) (L.plan link.old) (L.written link.old) (L.room link.old))
        (wire_of (L.left link.new) (L.plan link.new) (L.written link.new) (L.room link.new)) result }
    ensures learned { StartsWith reader.new.seen desk.new.writer.posted.published }
    ensures reader { reader.new.board ≡ reader.old.board }
    ensures had { StartsWith reader.new.seen reader.old.seen }
    ensures unavailable { result ≡ Answered 503 → Rose (K.faults desk.old.keeper) (K.faults desk.new.keeper) }
    ensures failed { K.faults desk.old.keeper < K.faults desk.new.keeper → TellsFault result }
    ensures plan { desk.new.plan ≡ desk.old.plan }
    ensures limits { desk.new.limits ≡ desk.old.limits }
    ensures crew { C.which desk.new.crew ≡ C.which desk.old.crew }
    ensures board { desk.new.writer.board ≡ desk.old.writer.board }
    ensures sure { NeverFails (L.plan link.old) → L.room link.old ≡ Endless → result ≢ LinkFault }
    ensures cause { result ≡ LinkFault → Rose (L.faults link.old) (L.faults link.new) }
    ensures later { L.faults link.old ≤ L.faults link.new }
    ensures keeper_later { K.faults desk.old.keeper ≤ K.faults desk.new.keeper }
{
    let end = desk.answer(alloc, asked, link);
    reader.learn(desk.writer.tell());
    end
}

/// Tells a reader all that is published.
fn learn_all<R: Wait + Drop>(reader: &mut BoardReader, writer: &mut BoardWriter<R>)
    requires board { reader.old.board ≡ writer.old.board }
    ensures learns { Learns writer.old.posted.published reader.old reader.new }
    ensures kept { writer.new ≡ writer.old }
{
    reader.learn(writer.tell());
}

/// Reads one request and answers it. The reader is of the board of the desk's writer, and is told what is published
/// before the request is read, and with each answer of what is kept.
pub fn session<L: TwoWay, K: Keeper, C: Crew, R: Wait + Threads + Drop>(
    alloc: Global,
    routes: &Routes,
    link: &mut L,
    reader: &mut BoardReader,
    desk: &mut Desk<K, C, R>,
) -> SessionEnd
    requires board { reader.old.board ≡ desk.old.writer.board }
    ensures serves { (bytes : List ℕ) (o : Office) → L.left link.old ≡ Some bytes → K.told desk.old.keeper ≡ Some o
        → Serves K.refuses C.exact bytes desk.old.limits o
        (state_of (K.told desk.old.keeper) (K.faults desk.old.keeper) desk.old.writer.posted)
        (state_of (K.told desk.new.keeper) (K.faults desk.new.keeper) desk.new.writer.posted) reader.old reader.new
        (wire_of (L.left link.old) (L.plan link.old) (L.written link.old) (L.room link.old))
        (wire_of (L.left link.new) (L.plan link.new) (L.written link.new) (L.room link.new)) result }
    ensures unavailable { result ≡ Answered 503 → Rose (K.faults desk.old.keeper) (K.faults desk.new.keeper) }
    ensures failed { K.faults desk.old.keeper < K.faults desk.new.keeper → TellsFault result }
    ensures learns { StartsWith reader.new.seen desk.new.writer.posted.published }
    ensures reader { reader.new.board ≡ reader.old.board }
    ensures had { StartsWith reader.new.seen reader.old.seen }
    ensures plan { desk.new.plan ≡ desk.old.plan }
    ensures limits { desk.new.limits ≡ desk.old.limits }
    ensures crew { C.which desk.new.crew ≡ C.which desk.old.crew }
    ensures board { desk.new.writer.board ≡ desk.old.writer.board }
    ensures sure { NeverFails (L.plan link.old) → L.room link.old ≡ Endless → result ≢ LinkFault }
    ensures cause { result ≡ LinkFault → Rose (L.faults link.old) (L.faults link.new) }
    ensures later { L.faults link.old ≤ L.faults link.new }
    ensures keeper_later { K.faults desk.old.keeper ≤ K.faults desk.new.keeper }
{
    learn_all(reader, &mut desk.writer);
    match read_asked(alloc, routes, link) {
        Err(end) => end,
        Ok(asked) => {
            if is_live(&asked) {
                live_answer(alloc, reader, &asked, link)
            } else {
                answer_and_learn(alloc, link, &asked, reader, desk)
            }
        }
    }
}
