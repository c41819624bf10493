// One import of a day.
ghost use Rattle.std.specs.Prelude.{◌≡◌, ◌≤◌, []};

use day_floor::NoPublisher;
use day_import::{DayTerms, Outcome, import};
use day_plan::Plan;
use keep_office::MemKeeper;
use road_io::{MemSink, MemSource, Sink, Source};
use road_time::Limits;
use std::alloc::Global;
use std::thread::Threads;
use ways_crews::Crew;

/// By how many workers a day is worked on, in turns that a number draws or in rounds, and how many lines may wait.
#[derive(Clone, Copy)]
pub struct Way {
    pub width: u8,
    pub turns: Option<u64>,
    pub backlog: u32,
}

/// How the import of day 100 ends, over a keeper in memory, where nothing is kept and these calls fail. A check takes
/// long at `import`, which says much of its source, its sink and its crew: only this function calls it.
pub fn imported<S: Source, O: Sink, C: Crew, R: Threads>(
    rt: &R,
    alloc: Global,
    way: Way,
    source: &mut S,
    sink: &mut O,
    fails: &[u32],
    crew: &mut C,
) -> Outcome
    requires idle { C.out crew.old ≡ [] }
{
    let Way {
        width,
        turns,
        backlog,
    } = way;
    if width < 1 || width > 64 || backlog < 1 || backlog > 65_536 {
        return Outcome::NoMemory;
    }
    let limits = Limits {
        backlog,
        ..Limits::DAY
    };
    let terms = DayTerms {
        day: 100,
        plan: Plan { width, turns },
        late: 0,
        limits,
    };
    let Ok(mut keeper) = MemKeeper::new(alloc, fails) else {
        return Outcome::NoMemory;
    };
    import(
        rt,
        alloc,
        terms,
        source,
        sink,
        &mut keeper,
        crew,
        &mut NoPublisher,
    )
}

/// What a day in memory reads and writes at once, and which calls of its keeper fail.
#[derive(Clone, Copy)]
pub struct Given<'a> {
    pub input: &'a [u8],
    pub read: usize,
    pub written: usize,
    pub fails: &'a [u32],
}

/// How the import of a day in memory ends.
pub fn imported_day<C: Crew, R: Threads>(
    rt: &R,
    alloc: Global,
    way: Way,
    given: Given<'_>,
    sink: &mut MemSink,
    crew: &mut C,
) -> Outcome
    requires idle { C.out crew.old ≡ [] }
{
    match MemSource::new(alloc, given.input, given.read.max(1), &[]) {
        Ok(mut source) => imported(rt, alloc, way, &mut source, sink, given.fails, crew),
        Err(_) => Outcome::NoMemory,
    }
}

/// Whether a day is stored with so many tuples and notices and this total.
pub fn is_stored(outcome: Outcome, counts: [u64; 3]) -> bool {
    match outcome {
        Outcome::Stored(kept) => [kept.tuples, kept.notices, kept.total] == counts,
        _ => false,
    }
}
