// Serving over an open door.
ghost use Rattle.std.specs.Prelude.{◌≡◌, ◌≤◌, ◌<◌, ◌^◌, [], All, length, vec_len, vec_capacity, true, false};
ghost use Rattle.road_time.specs.Fits.{IsLimits};
ghost use Rattle.serve_loops.specs.declared.serve_end.ServeEnd.TheVariants.{Served, ListenFault};
ghost use Rattle.serve_loops.specs.Wires.{wire_by};
ghost use Rattle.serve_loops.specs.Acceptors.{TurnOf};
ghost use Rattle.serve_top.specs.Doors.{accepted_in, has_fault};
ghost use Rattle.serve_top.specs.Endings.{counts_of, EndsServing};
ghost use Rattle.serve_top.specs.Served.{ServedBy, ServedAt};
ghost use Rattle.serve_top.specs.declared.ending.ServerEnd.TheVariants as server;

use crate::desk_crew::DeskCrew;
use crate::door::{Door, DoorFault};
use crate::ears::Ears;
use crate::ending::ServerEnd;
use crate::seats::{rise, seat};
use crate::served_words::Serving;
use day_plan::Plan;
use road_time::Limits;
use serve_board::{BoardNaming, NamedBoard, NamedHistory, NamedReader, NamedWriter, named_board};
use serve_desk::Routes;
use serve_loops::{Acceptor, Listener, ServeEnd, serve};
use std::alloc::Global;
use std::sync::Wait;
use std::thread::Threads;

/// How a day's work is done that is posted: over four workers, in no drawn order.
const PLAN: Plan = Plan {
    width: 4,
    turns: None,
};

/// Serves over ears, each of which has a reader of the board, by routes that are kept for all of them, and gives the
/// ears and the keeper back. It ends the board's writer.
fn serve_over<
    N: Listener + Send + Drop,
    K,
    J: BoardNaming + Send + Sync,
    C: DeskCrew<K, NamedWriter<J, R>, NamedReader<J>, Q, R> + Drop,
    R: Wait + Threads + Drop + Copy + Send + Sync,
    Q: Drop + Send,
>(
    rt: R,
    alloc: Global,
    sessions: u64,
    limits: &Limits,
    ears: Ears<N>,
    board: NamedBoard<J, R>,
    acceptors: Vec<Acceptor<N, Q>>,
    room: Vec<N>,
    routes: Routes,
    keeper: K,
    crew: C,
) -> (ServeEnd, Ears<N>, K)
    requires some { 1 ≤ length ears }
    requires few { length ears ≤ 64 }
    requires fresh { All (λ ear. (N.accepted ear ≡ 0) × (N.faults ear ≡ 0)) ears }
    requires readers { length board.readers ≡ length ears }
    requires no_acceptors { acceptors.items ≡ [] }
    requires none_yet { vec_len acceptors ≡ 0 }
    requires for_acceptors { length ears ≤ vec_capacity acceptors }
    requires no_ears { room.items ≡ [] }
    requires none_back { vec_len room ≡ 0 }
    requires for_ears { length ears ≤ vec_capacity room }
    requires within { IsLimits limits.now }
    requires idle { C.out crew ≡ [] }
    ensures most { accepted_in N.accepted result.1 ≤ sessions }
    ensures served { result.0 ≡ Served → accepted_in N.accepted result.1 ≡ sessions }
    ensures desk { ServedBy N.faults N.accepted
        (λ (desk : C.Shared). TurnOf N.gives N.takes
        (wire_by N.Line.left N.Line.plan N.Line.written N.Line.room N.Line.faults) (C.Shared.attends desk))
        C.works C.bounds limits.now ears result.1 }
    ensures fault { result.0 ≡ ListenFault → has_fault N.faults result.1 ≡ true }
    ensures sound { result.0 ≡ Served → has_fault N.faults result.1 ≡ false }
{
    let NamedBoard { writer, readers } = board;
    let mut acceptors = seat::<N, K, NamedWriter<J, R>, NamedReader<J>, C, R, Q>(
        acceptors,
        ears,
        readers.into_vec(),
        &keeper,
    );
    let desk = crew.share(rt, keeper, writer, PLAN, *limits, routes);
    let end = serve(&rt, alloc, &mut acceptors, &desk, sessions);
    let keeper = C::end(desk);
    (end, rise(room, acceptors), keeper)
}

/// Opens a door for so many acceptors, serves over it, and closes it.
fn serve_behind<
    D: Door,
    K,
    J: BoardNaming + Send + Sync,
    C: DeskCrew<K, NamedWriter<J, R>, NamedReader<J>, Q, R> + Drop,
    R: Wait + Threads + Drop + Copy + Send + Sync,
    Q: Drop + Send,
>(
    rt: R,
    alloc: Global,
    serving: &Serving,
    count: u8,
    limits: &Limits,
    door: &mut D,
    board: NamedBoard<J, R>,
    acceptors: Vec<Acceptor<D::Ear, Q>>,
    room: Vec<D::Ear>,
    routes: Routes,
    keeper: K,
    crew: C,
) -> (ServerEnd, K)
    requires some { 1 ≤ count }
    requires few { count ≤ 64 }
    requires readers { length board.readers ≡ count }
    requires no_acceptors { acceptors.items ≡ [] }
    requires none_yet { vec_len acceptors ≡ 0 }
    requires for_acceptors { count ≤ vec_capacity acceptors }
    requires no_ears { room.items ≡ [] }
    requires none_back { vec_len room ≡ 0 }
    requires for_ears { count ≤ vec_capacity room }
    requires within { IsLimits limits.now }
    requires idle { C.out crew ≡ [] }
    requires unused { D.accepted door.old ≡ 0 }
    ensures ends { EndsServing serving.now (counts_of (D.refused door.old) (D.faults door.old) (D.accepted door.old))
        (counts_of (D.refused door.new) (D.faults door.new) (D.accepted door.new)) result.0 }
    ensures desk { result.0 ≡ server.Served → ServedAt D.hears D.Ear.faults D.Ear.accepted
        (λ (desk : C.Shared). TurnOf D.Ear.gives D.Ear.takes
        (wire_by D.Ear.Line.left D.Ear.Line.plan D.Ear.Line.written D.Ear.Line.room D.Ear.Line.faults)
        (C.Shared.attends desk))
        C.works C.bounds limits.now serving.now }
    ensures refused { D.refused door.old ≤ D.refused door.new }
    ensures faults { D.faults door.old ≤ D.faults door.new }
{
    match door.open(alloc, serving.port, count) {
        Err(DoorFault::Failed) => (ServerEnd::Refused, keeper),
        Err(DoorFault::NoMemory) => (ServerEnd::NoMemory, keeper),
        Ok(ears) => {
            let (end, ears, keeper) = serve_over(
                rt,
                alloc,
                serving.sessions,
                limits,
                ears,
                board,
                acceptors,
                room,
                routes,
                keeper,
                crew,
            );
            door.close(ears);
            match end {
                ServeEnd::Served => (ServerEnd::Served, keeper),
                ServeEnd::ListenFault => (ServerEnd::EarFault, keeper),
            }
        }
    }
}

/// Serves as told, over as many acceptors as the door has for the readers: makes the board of this history, room for the
/// acceptors and the desk's routes, and then serves behind the door.
pub fn serve_as<
    D: Door,
    K,
    J: BoardNaming + Send + Sync,
    C: DeskCrew<K, NamedWriter<J, R>, NamedReader<J>, Q, R> + Drop,
    R: Wait + Threads + Drop + Copy + Send + Sync,
    Q: Drop + Send,
>(
    rt: R,
    alloc: Global,
    serving: &Serving,
    limits: &Limits,
    door: &mut D,
    history: NamedHistory<J>,
    keeper: K,
    crew: C,
) -> (ServerEnd, K)
    requires some { 1 ≤ serving.now.readers }
    requires few { serving.now.readers ≤ 64 }
    requires within { IsLimits limits.now }
    requires idle { C.out crew ≡ [] }
    requires unused { D.accepted door.old ≡ 0 }
    ensures ends { EndsServing serving.now (counts_of (D.refused door.old) (D.faults door.old) (D.accepted door.old))
        (counts_of (D.refused door.new) (D.faults door.new) (D.accepted door.new)) result.0 }
    ensures desk { result.0 ≡ server.Served → ServedAt D.hears D.Ear.faults D.Ear.accepted
        (λ (desk : C.Shared). TurnOf D.Ear.gives D.Ear.takes
        (wire_by D.Ear.Line.left D.Ear.Line.plan D.Ear.Line.written D.Ear.Line.room D.Ear.Line.faults)
        (C.Shared.attends desk))
        C.works C.bounds limits.now serving.now }
    ensures refused { D.refused door.old ≤ D.refused door.new }
    ensures faults { D.faults door.old ≤ D.faults door.new }
{
    let count = door.acceptors(serving.readers);
    let Ok(acceptors) = Vec::with_capacity(alloc, count as usize) else {
        return (ServerEnd::NoMemory, keeper);
    };
    let Ok(room) = Vec::with_capacity(alloc, count as usize) else {
        return (ServerEnd::NoMemory, keeper);
    };
    let Ok(routes) = Routes::new(alloc) else {
        return (ServerEnd::NoMemory, keeper);
    };
    let Ok(board) = named_board(rt, alloc, history, count) else {
        return (ServerEnd::NoMemory, keeper);
    };
    serve_behind(
        rt, alloc, serving, count, limits, door, board, acceptors, room, routes, keeper, crew,
    )
}
