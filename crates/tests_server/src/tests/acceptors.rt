// Serving over acceptors in memory.
ghost use Rattle.std.specs.Prelude.{◌≡◌, [], length, vec_len, All, IfOk};
ghost use Rattle.serve_loops.specs.MemListeners.{accepted_by};

use super::keepers::{has_day, kept_as, new_keeper};
use day_plan::Plan;
use keep_office::MemKeeper;
use road_io::MemLink;
use road_time::{Limits, NoMemory};
use serve_board::{
    BoardHistory, BoardNaming, NamedBoard, NamedHistory, NamedReader, NamedWriter, named_board,
};
use serve_desk::{Kept, Naming, Opened, Routes, Seat};
use serve_top::{Acceptor, Acceptors, DeskCrew, MemListener, ServeEnd, serve};
use std::alloc::Global;
use std::marker::Brand;
use std::sync::Wait;
use std::thread::Threads;
use ways_crews::{InlineCrew, NoGate, ThreadCrew};

const EMPTY_DAY: &[u8] = b"POST /days/100 HTTP/1.1\r\nContent-Length: 0\r\n\r\n";

const KEPT_DAY: &[u8] = b"GET /days/100 HTTP/1.1\r\n\r\n";

/// Each day's work is done by four workers, in no drawn order.
const PLAN: Plan = Plan {
    width: 4,
    turns: None,
};

/// A listener of a POST of an empty day, and then of requests for it.
fn listener_of(alloc: Global, links: u8) -> Result<MemListener, NoMemory>
    ensures { IfOk result (λ l. accepted_by l ≡ 0) }
{
    let mut all = Vec::new(alloc);
    all.push(MemLink::new(alloc, EMPTY_DAY, 100, 1000, &[])?)?;
    for _ in 1..links {
        all.push(MemLink::new(alloc, KEPT_DAY, 100, 1000, &[])?)?;
    }
    MemListener::new(alloc, all, &[])
}

/// An acceptor for each reader, at what the keeper is now, each with such a listener.
fn acceptors_of<J: Naming + BoardNaming>(
    alloc: Global,
    kept: &Kept<J, MemKeeper>,
    mut readers: Vec<NamedReader<J>>,
    links: u8,
) -> Result<Acceptors<MemListener, Seat<J, MemKeeper>>, NoMemory>
    ensures len { IfOk result (λ acceptors. length acceptors ≡ vec_len readers) }
    ensures unused { IfOk result (λ acceptors. All (λ acceptor. accepted_by acceptor.listener ≡ 0) acceptors) }
{
    let mut acceptors = Vec::new(alloc);
    while let Some(reader) = readers.pop() {
        acceptors.push(Acceptor {
            listener: listener_of(alloc, links)?,
            reader: kept.seat(reader),
            failed: true,
        })?;
    }
    Ok(Acceptors::from_vec(acceptors))
}

/// How serving so many sessions ends, over acceptors of so many links each, and whether day 100 is kept then.
fn serve_links<
    J: Naming + BoardNaming + Send + Sync,
    R: Threads + Wait + Drop + Copy + Send + Sync,
    C: DeskCrew<Kept<J, MemKeeper>, NamedWriter<J, R>, NamedReader<J>, Seat<J, MemKeeper>, R>
        + Drop,
>(
    rt: R,
    alloc: Global,
    crew: C,
    history: NamedHistory<J>,
    kept: Kept<J, MemKeeper>,
    acceptors: u8,
    links: u8,
    sessions: u64,
) -> Result<(ServeEnd, bool), NoMemory>
    requires { C.out crew ≡ [] }
{
    let routes = Routes::new(alloc)?;
    let NamedBoard { writer, readers } = named_board(rt, alloc, history, acceptors.clamp(1, 64))?;
    let mut acceptors = acceptors_of(alloc, &kept, readers.into_vec(), links)?;
    let desk = crew.share(rt, kept, writer, PLAN, Limits::DAY, routes);
    let end = serve(&rt, alloc, &mut acceptors, &desk, sessions);
    Ok((end, has_day(C::end(desk))))
}

/// The same of a desk that runs each job as it is started.
fn serve_inline<
    J: Naming + BoardNaming + Send + Sync,
    R: Threads + Wait + Drop + Copy + Send + Sync,
>(
    rt: R,
    alloc: Global,
    history: BoardHistory,
    opened: Opened<MemKeeper>,
    acceptors: u8,
    links: u8,
    sessions: u64,
) -> Result<(ServeEnd, bool), NoMemory>
    requires named { history ≡ J.board }
    requires book { opened.seen.book ≡ J.book }
{
    let crew = InlineCrew::new(alloc, false);
    serve_links(
        rt,
        alloc,
        crew,
        history.named::<J>(),
        kept_as::<J>(opened),
        acceptors,
        links,
        sessions,
    )
}

/// The same of a new keeper.
fn serve_new<R: Threads + Wait + Drop + Copy + Send + Sync>(
    rt: R,
    alloc: Global,
    acceptors: u8,
    links: u8,
    sessions: u64,
) -> Result<(ServeEnd, bool), NoMemory> {
    let opened = new_keeper(alloc, &[])?;
    let history = BoardHistory::new();
    serve_inline::<Brand, R>(rt, alloc, history, opened, acceptors, links, sessions)
}

/// Acceptors accept as many connections as there are sessions, whichever acceptor comes first; where a listener has none left,
/// that is told. What was posted is kept in each case.
#[test]
fn acceptors_share_the_sessions(rt: HostRuntime) -> Result<(), NoMemory> {
    let alloc = rt.alloc();
    let rows = [
        (1, 1, 1, ServeEnd::Served),
        (1, 1, 2, ServeEnd::ListenFault),
        (1, 2, 2, ServeEnd::Served),
        (1, 2, 3, ServeEnd::ListenFault),
        (2, 3, 3, ServeEnd::Served),
        (2, 1, 3, ServeEnd::ListenFault),
    ];
    for (acceptors, links, sessions, end) in rows {
        let came = serve_new(rt, alloc, acceptors, links, sessions)?;
        assert_eq!(rt;
            came,
            (end, true),
            "{acceptors} acceptors of {links} links, {sessions} sessions"
        );
    }
    Ok(())
}

/// The same of two acceptors of three links each, with a thread for each job.
fn serve_by_threads<
    J: Naming + BoardNaming + Send + Sync,
    R: Threads + Wait + Drop + Copy + Send + Sync,
>(
    rt: R,
    alloc: Global,
    history: BoardHistory,
    opened: Opened<MemKeeper>,
) -> Result<(ServeEnd, bool), NoMemory>
    requires named { history ≡ J.board }
    requires book { opened.seen.book ≡ J.book }
{
    let crew = ThreadCrew::new(rt, alloc, NoGate);
    serve_links(
        rt,
        alloc,
        crew,
        history.named::<J>(),
        kept_as::<J>(opened),
        2,
        3,
        3,
    )
}

/// So it is where each job has a thread.
#[test]
fn jobs_may_have_threads(rt: HostRuntime) -> Result<(), NoMemory> {
    let alloc = rt.alloc();
    let opened = new_keeper(alloc, &[])?;
    let came = serve_by_threads::<Brand, _>(rt, alloc, BoardHistory::new(), opened)?;
    assert_eq!(rt; came, (ServeEnd::Served, true));
    Ok(())
}
