// A new desk that acceptors share, of each crew, and what is done at it. Whatever is done, the calls that name a crew and
// a keeper stand here once: a call of a generic function at types that are known is dear to prove.
ghost use Rattle.std.specs.Prelude.{◌≡◌, ◌<◌, ◌≤◌, []};

use super::beside::{Beside, post_beside};
use super::in_line::{Behind, post_behind};
use super::over_acceptors::{Asking, answers};
use day_plan::Plan;
use keep_office::{Keeper, MemKeeper};
use road_time::{Limits, NoMemory};
use serve_board::{
    BoardHistory, BoardNaming, NamedBoard, NamedHistory, NamedReader, NamedWriter, named_board,
};
use serve_desk::{Kept, Naming, Opened, Routes, Seat};
use serve_loops::Host;
use serve_top::DeskCrew;
use std::alloc::Global;
use std::marker::Brand;
use std::sync::Wait;
use std::thread::Threads;
use ways_crews::{InlineCrew, NoGate, ThreadCrew};

const PLAN: Plan = Plan {
    width: 4,
    turns: None,
};

/// What is done at a new desk.
#[derive(Clone, Copy)]
pub enum Doing<'a> {
    /// A day is posted while another asks.
    PostsBeside,
    /// A passed day is posted while another posts the next one: its answer is held, or a read of its body.
    PostsBehind { writes: bool },
    /// This is asked.
    Asks(Asking<'a>),
}

/// What came of what was done.
#[derive(Drop)]
pub enum Done {
    Beside(Beside),
    Behind(Behind),
    Asked(bool),
}

/// The same, and whether day 100 is kept when the desk has ended.
#[derive(Drop)]
pub struct Came {
    pub done: Done,
    pub kept: bool,
}

/// How many callers it takes.
fn callers(doing: &Doing<'_>) -> u8
    ensures some { 0 < result }
    ensures few { result ≤ 64 }
{
    match doing {
        Doing::PostsBeside => 2,
        Doing::PostsBehind { .. } => 2,
        Doing::Asks(_) => 1,
    }
}

/// Does it, with two callers.
fn does_beside<Q: Drop + Send, H: Host<Q> + Sync, R: Threads + Wait + Sync>(
    rt: &R,
    alloc: Global,
    host: &H,
    first: &mut Q,
    second: &mut Q,
    doing: Doing<'_>,
) -> Result<Done, NoMemory> {
    match doing {
        Doing::PostsBeside => Ok(Done::Beside(post_beside(rt, alloc, host, first, second)?)),
        Doing::PostsBehind { writes } => {
            Ok(Done::Behind(post_behind(rt, alloc, host, first, second, writes)?))
        }
        Doing::Asks(_) => Err(NoMemory),
    }
}

/// Does it, with as many callers as it takes.
fn does<Q: Drop + Send, H: Host<Q> + Sync, R: Threads + Wait + Sync>(
    rt: &R,
    alloc: Global,
    host: &H,
    seats: &mut Vec<Q>,
    doing: Doing<'_>,
) -> Result<Done, NoMemory> {
    match (seats.pop(), seats.pop()) {
        (Some(mut first), Some(mut second)) => {
            does_beside(rt, alloc, host, &mut first, &mut second, doing)
        }
        (Some(mut alone), None) => match doing {
            Doing::Asks(asking) => Ok(Done::Asked(answers(alloc, host, &mut alone, asking)?)),
            Doing::PostsBeside => Err(NoMemory),
            Doing::PostsBehind { .. } => Err(NoMemory),
        },
        _ => Err(NoMemory),
    }
}

/// A seat for each reader, at what the keeper is now.
fn seats_of<J: Naming + BoardNaming>(
    alloc: Global,
    kept: &Kept<J, MemKeeper>,
    mut readers: Vec<NamedReader<J>>,
) -> Result<Vec<Seat<J, MemKeeper>>, NoMemory> {
    let mut seats = Vec::new(alloc);
    while let Some(reader) = readers.pop() {
        seats.push(kept.seat(reader))?;
    }
    Ok(seats)
}

/// What comes of it at a new desk of a crew.
fn share_for<
    J: Naming + BoardNaming + Send + Sync,
    R: Threads + Wait + Drop + Copy + Send + Sync,
    C: DeskCrew<Kept<J, MemKeeper>, NamedWriter<J, R>, NamedReader<J>, Seat<J, MemKeeper>, R>
        + Drop,
>(
    rt: R,
    alloc: Global,
    crew: C,
    history: NamedHistory<J>,
    kept: Kept<J, MemKeeper>,
    doing: Doing<'_>,
) -> Result<Came, NoMemory>
    requires { C.out crew ≡ [] }
{
    let routes = Routes::new(alloc)?;
    let NamedBoard { writer, readers } = named_board(rt, alloc, history, callers(&doing))?;
    let mut seats = seats_of(alloc, &kept, readers.into_vec())?;
    let desk = crew.share(rt, kept, writer, PLAN, Limits::DAY, routes);
    let done = does(&rt, alloc, &desk, &mut seats, doing);
    let mut keeper = C::end(desk).into_keeper();
    let kept = matches!(keeper.day(100), Ok(Some(_)));
    Ok(Came { done: done?, kept })
}

/// A new keeper in memory, which fails at these calls, with its history.
fn new_keeper(alloc: Global, fails: &[u32]) -> Result<Opened<MemKeeper>, NoMemory> {
    let keeper = MemKeeper::new(alloc, fails)?;
    Ok(Opened::new(keeper))
}

/// It, under the name of its history.
fn kept_as<J: Naming>(opened: Opened<MemKeeper>) -> Kept<J, MemKeeper>
    requires book { opened.seen.book ≡ J.book }
{
    opened.named::<J>()
}

/// The same of a desk that runs each job as it is started.
fn share_inline<
    J: Naming + BoardNaming + Send + Sync,
    R: Threads + Wait + Drop + Copy + Send + Sync,
>(
    rt: R,
    alloc: Global,
    history: BoardHistory,
    opened: Opened<MemKeeper>,
    doing: Doing<'_>,
) -> Result<Came, NoMemory>
    requires named { history ≡ J.board }
    requires book { opened.seen.book ≡ J.book }
{
    share_for(
        rt,
        alloc,
        InlineCrew::new(alloc, false),
        history.named::<J>(),
        kept_as::<J>(opened),
        doing,
    )
}

/// The same with a thread for each job.
fn share_by_threads<
    J: Naming + BoardNaming + Send + Sync,
    R: Threads + Wait + Drop + Copy + Send + Sync,
>(
    rt: R,
    alloc: Global,
    history: BoardHistory,
    opened: Opened<MemKeeper>,
    doing: Doing<'_>,
) -> Result<Came, NoMemory>
    requires named { history ≡ J.board }
    requires book { opened.seen.book ≡ J.book }
{
    share_for(
        rt,
        alloc,
        ThreadCrew::new(rt, alloc, NoGate),
        history.named::<J>(),
        kept_as::<J>(opened),
        doing,
    )
}

/// What comes of it at a new desk that runs each job as it is started, and at one with a thread for each, with a new
/// keeper each, which fails at these calls.
pub fn share_new<R: Threads + Wait + Drop + Copy + Send + Sync>(
    rt: R,
    alloc: Global,
    fails: &[u32],
    doing: Doing<'_>,
) -> Result<[Came; 2], NoMemory> {
    let inline = new_keeper(alloc, fails)?;
    let inline = share_inline::<Brand, R>(rt, alloc, BoardHistory::new(), inline, doing)?;
    let threads = new_keeper(alloc, fails)?;
    let threads = share_by_threads::<Brand, R>(rt, alloc, BoardHistory::new(), threads, doing)?;
    Ok([inline, threads])
}
