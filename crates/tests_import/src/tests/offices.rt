// One run of `office` over a crew.
ghost use Rattle.std.specs.Prelude.{◌≡◌, ◌≤◌, []};
ghost use Rattle.road_time.specs.Fits.{IsLimits};

use keep_office::{Keeper, MemKeeper};
use office_commands::office;
use road_io::{MemSink, MemSource};
use road_time::{Limits, NoMemory};
use std::alloc::Global;
use std::thread::Threads;
use ways_crews::{Crew, InlineCrew};

/// What a run of `office` reads: an input in pieces of so many bytes, and the reads of it that fail.
#[derive(Clone, Copy)]
pub struct Input<'a> {
    pub bytes: &'a [u8],
    pub piece: usize,
    pub fails: &'a [u32],
}

/// Reads all of an input.
pub fn whole(bytes: &[u8]) -> Input<'_> {
    Input {
        bytes,
        piece: 65_536,
        fails: &[],
    }
}

/// What `office` writes, and its status, over a keeper and a crew, into room for so many bytes.
pub fn run<K: Keeper, C: Crew, R: Threads + Sync>(
    rt: &R,
    alloc: Global,
    words: &[&str],
    limits: &Limits,
    input: Input<'_>,
    room: usize,
    keeper: &mut K,
    crew: &mut C,
) -> Result<(MemSink, u8), NoMemory>
    requires limits { IsLimits limits.now }
    requires idle { C.out crew.old ≡ [] }
    ensures idle { C.out crew.new ≡ [] }
{
    let mut owned = Vec::new(alloc);
    for word in words {
        owned.push(String::from_str(alloc, word)?)?;
    }
    let mut source = MemSource::new(alloc, input.bytes, input.piece.max(1), input.fails)?;
    let mut aside = MemSource::new(alloc, b"", 1, &[])?;
    let mut sink = MemSink::new(alloc, room, 65_536)?;
    let status = office(
        rt,
        alloc,
        owned.as_slice(),
        limits,
        &mut source,
        &mut aside,
        &mut sink,
        keeper,
        crew,
    );
    Ok((sink, status))
}

/// What `office` writes, and its status, by a crew where nothing is kept.
pub fn run_by<C: Crew, R: Threads + Sync>(
    rt: &R,
    alloc: Global,
    words: &[&str],
    input: &[u8],
    room: usize,
    crew: &mut C,
) -> Result<(MemSink, u8), NoMemory>
    requires idle { C.out crew.old ≡ [] }
{
    let mut keeper = MemKeeper::new(alloc, &[])?;
    run(
        rt,
        alloc,
        words,
        &Limits::DAY,
        whole(input),
        room,
        &mut keeper,
        crew,
    )
}

/// The same by a crew that runs a job as it is started.
pub fn run_soon<R: Threads + Sync>(
    rt: &R,
    alloc: Global,
    words: &[&str],
    input: &[u8],
    room: usize,
) -> Result<(MemSink, u8), NoMemory> {
    let mut crew = InlineCrew::new(alloc, false);
    run_by(rt, alloc, words, input, room, &mut crew)
}
