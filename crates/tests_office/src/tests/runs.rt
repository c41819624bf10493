// Commands of `office` over sources, a sink, a keeper in memory and a crew that does each job at once.
//
// A check takes by far the most time at what a function does besides one call. So a row is a step, its tests say which
// steps, and only the functions below run them.
ghost use Rattle.std.specs.Prelude.{◌≤◌};
ghost use Rattle.road_time.specs.Fits.{IsLimits};

use keep_office::{Keeper, MemKeeper};
use office_commands::office;
use road_io::{MemSink, MemSource};
use road_time::Limits;
use std::alloc::Global;
use std::process::Abort;
use std::test::Fail;
use std::thread::Threads;
use ways_crews::InlineCrew;

pub const ONE: &[u8] = b"0,0,7,30,0,0,0,10,52800,-1,-1,-1,-1,-1,-1\n";

pub const ANSWERED: &str = "0,7,0,-1,0\n# answered day 100 tuples 1 notices 1\n";

/// A command: its words, what it reads of a source and an aside, which reads of them fail, how many bytes a read of the
/// source gives, how many its sink takes in all and at once, what it writes, and its status.
#[derive(Clone, Copy)]
pub struct Step<'a> {
    pub words: &'a [&'a str],
    pub input: &'a [u8],
    pub aside: &'a [u8],
    pub input_fails: &'a [u32],
    pub aside_fails: &'a [u32],
    pub input_piece: usize,
    pub room: usize,
    pub output_piece: usize,
    pub text: &'a str,
    pub status: u8,
}

/// No words, and nothing to read: no read fails, and there is room.
pub const STEP: Step<'static> = Step {
    words: &[],
    input: b"",
    aside: b"",
    input_fails: &[],
    aside_fails: &[],
    input_piece: 7,
    room: 2000,
    output_piece: 5,
    text: "",
    status: 0,
};

/// What words are to write, and their status, of an input and an aside. References that do not live equally long come
/// together in a call, and not where a struct is made.
pub fn one_step<'a>(
    words: &'a [&'a str],
    input: &'a [u8],
    aside: &'a [u8],
    text: &'a str,
    status: u8,
) -> Step<'a> {
    Step {
        words,
        input,
        aside,
        text,
        status,
        ..STEP
    }
}

/// What a step writes over a keeper, and its status.
pub fn run_on<K: Keeper, R: Threads + Sync>(
    rt: &R,
    alloc: Global,
    limits: &Limits,
    step: &Step<'_>,
    keeper: &mut K,
) -> Result<(MemSink, u8), Fail>
    requires { IsLimits limits.now }
{
    let mut words = Vec::new(alloc);
    for word in step.words {
        words.push(String::from_str(alloc, word)?)?;
    }
    let mut source = MemSource::new(alloc, step.input, step.input_piece.max(1), step.input_fails)?;
    let mut aside = MemSource::new(alloc, step.aside, 5, step.aside_fails)?;
    let mut sink = MemSink::new(alloc, step.room, step.output_piece.max(1))?;
    let mut crew = InlineCrew::new(alloc, false);
    let status = office(
        rt,
        alloc,
        words.as_slice(),
        limits,
        &mut source,
        &mut aside,
        &mut sink,
        keeper,
        &mut crew,
    );
    Ok((sink, status))
}

/// What a step writes where nothing is kept, and its status.
pub fn run<R: Threads + Sync>(
    rt: &R,
    alloc: Global,
    step: &Step<'_>,
) -> Result<(MemSink, u8), Fail> {
    let mut keeper = MemKeeper::new(alloc, &[])?;
    run_on(rt, alloc, &Limits::DAY, step, &mut keeper)
}

/// Whether a step over a keeper writes its text and has its status.
pub fn is_right<K: Keeper, R: Threads + Sync>(
    rt: &R,
    alloc: Global,
    limits: &Limits,
    step: &Step<'_>,
    keeper: &mut K,
) -> Result<bool, Fail>
    requires { IsLimits limits.now }
{
    let (sink, status) = run_on(rt, alloc, limits, step, keeper)?;
    Ok(sink.bytes() == step.text.as_bytes() && status == step.status)
}

/// Whether a step does where nothing is kept.
pub fn ends_so<R: Threads + Sync>(
    rt: &R,
    alloc: Global,
    limits: &Limits,
    step: &Step<'_>,
) -> Result<bool, Fail>
    requires { IsLimits limits.now }
{
    let mut keeper = MemKeeper::new(alloc, &[])?;
    is_right(rt, alloc, limits, step, &mut keeper)
}

/// Each step does where nothing is kept.
pub fn each_ends<R: Abort + Threads + Sync>(
    rt: &R,
    alloc: Global,
    steps: &[Step<'_>],
) -> Result<(), Fail> {
    for step in steps {
        let text = step.text;
        assert!(rt; ends_so(rt, alloc, &Limits::DAY, step)?, "{text}");
    }
    Ok(())
}

/// Each step, one after the other over one keeper, writes its text and has its status.
pub fn each_writes<K: Keeper, R: Abort + Threads + Sync>(
    rt: &R,
    alloc: Global,
    keeper: &mut K,
    steps: &[Step<'_>],
) -> Result<(), Fail> {
    for step in steps {
        let text = step.text;
        assert!(rt; is_right(rt, alloc, &Limits::DAY, step, keeper)?, "{text}");
    }
    Ok(())
}

/// Each step does over a new keeper, of which these calls fail.
pub fn each_of_new<R: Abort + Threads + Sync>(
    rt: &R,
    alloc: Global,
    fails: &[u32],
    steps: &[Step<'_>],
) -> Result<(), Fail> {
    let mut keeper = MemKeeper::new(alloc, fails)?;
    each_writes(rt, alloc, &mut keeper, steps)
}
