// The day is answered, audited, imported, and imported again.
ghost use Rattle.std.specs.Prelude.{◌≡◌, ◌≤◌, []};

use day_floor::NoPublisher;
use day_import::{DayTerms, Outcome, answers, import};
use day_plan::Plan;
use keep_office::MemKeeper;
use office_commands::office;
use road_io::{MemSink, MemSource};
use road_time::{Limits, NoMemory};
use std::alloc::Global;
use std::thread::Threads;
use ways_crews::{InlineCrew, NoGate, ThreadCrew};

/// The day's number.
const NUMBER: u32 = 100;

/// How many bytes a source gives and a sink takes at once.
const PIECE: usize = 65_536;

/// Room for more than the day's notices.
const ROOM: usize = 16_000_000;

/// Room for more than a closing line.
const LINE: usize = 200;

/// How each run of the day ends: its answering, its audit with the text that it writes and its status, its import and
/// its second import.
#[derive(Drop)]
pub(crate) struct Runs {
    pub(crate) answered: Outcome,
    pub(crate) audit: Vec<u8>,
    pub(crate) status: u8,
    pub(crate) imported: [Outcome; 2],
}

/// How the answering ends, by one worker whose jobs run as they are started, and the notices.
fn answered<R: Threads>(
    rt: &R,
    alloc: Global,
    lines: &[u8],
    keeper: &mut MemKeeper,
) -> Result<(Outcome, MemSink), NoMemory> {
    let terms = DayTerms {
        day: NUMBER,
        plan: Plan {
            width: 1,
            turns: None,
        },
        late: 0,
        limits: Limits::DAY,
    };
    let mut source = MemSource::new(alloc, lines, PIECE, &[])?;
    let mut sink = MemSink::new(alloc, ROOM, PIECE)?;
    let mut crew = InlineCrew::new(alloc, false);
    let outcome = answers(rt, alloc, terms, &mut source, &mut sink, keeper, &mut crew);
    Ok((outcome, sink))
}

/// What the audit of the day with some notices writes, and its status: by three shards of the vehicles, and three
/// workers whose jobs run in threads.
fn audited<R: Threads + Sync + Copy + Drop>(
    rt: &R,
    threads: R,
    alloc: Global,
    lines: &[u8],
    notices: &[u8],
    keeper: &mut MemKeeper,
) -> Result<(Vec<u8>, u8), NoMemory> {
    let mut words = Vec::new(alloc);
    for word in ["audit", "100", "--shards=3", "--workers=3"] {
        words.push(String::from_str(alloc, word)?)?;
    }
    let mut source = MemSource::new(alloc, lines, PIECE, &[])?;
    let mut aside = MemSource::new(alloc, notices, PIECE, &[])?;
    let mut sink = MemSink::new(alloc, LINE, PIECE)?;
    let mut crew = ThreadCrew::new(threads, alloc, NoGate);
    let status = office(
        rt,
        alloc,
        words.as_slice(),
        &Limits::DAY,
        &mut source,
        &mut aside,
        &mut sink,
        keeper,
        &mut crew,
    );
    Ok((Vec::from_slice(alloc, sink.bytes())?, status))
}

/// How an import ends, by three workers whose jobs run in threads.
fn imported<R: Threads + Copy + Drop>(
    rt: &R,
    threads: R,
    alloc: Global,
    lines: &[u8],
    keeper: &mut MemKeeper,
) -> Result<Outcome, NoMemory> {
    let terms = DayTerms {
        day: NUMBER,
        plan: Plan {
            width: 3,
            turns: None,
        },
        late: 0,
        limits: Limits::DAY,
    };
    let mut source = MemSource::new(alloc, lines, PIECE, &[])?;
    let mut sink = MemSink::new(alloc, ROOM, PIECE)?;
    let mut crew = ThreadCrew::new(threads, alloc, NoGate);
    Ok(import(
        rt,
        alloc,
        terms,
        &mut source,
        &mut sink,
        keeper,
        &mut crew,
        &mut NoPublisher,
    ))
}

/// How the answering of the day, its audit, its import and its second import end.
pub(crate) fn runs_of<R: Threads + Sync + Copy + Drop>(
    rt: &R,
    threads: R,
    alloc: Global,
    lines: &[u8],
) -> Result<Runs, NoMemory> {
    let mut keeper = MemKeeper::new(alloc, &[])?;
    let (answered, notices) = answered(rt, alloc, lines, &mut keeper)?;
    let (audit, status) = audited(rt, threads, alloc, lines, notices.bytes(), &mut keeper)?;
    let first = imported(rt, threads, alloc, lines, &mut keeper)?;
    let second = imported(rt, threads, alloc, lines, &mut keeper)?;
    Ok(Runs {
        answered,
        audit,
        status,
        imported: [first, second],
    })
}
