// A source that makes its reader wait: when the notices of each round are written.
ghost use Rattle.std.specs.Prelude.{◌≡◌, []};

use super::crews::{Kind, Task, by};
use super::importing::{Way, imported};
use day_import::Outcome;
use road_io::{Failed, MemSink, MemSource, Sink, Source};
use road_time::NoMemory;
use std::alloc::Global;
use std::sync::Wait;
use std::sync::atomic::{AtomicUsize, Ordering};
use std::thread::Threads;
use ways_crews::Crew;

/// Twelve vehicles, a second apart. The lines are of one length.
const TWELVE: &[u8] = b"0,100,10,30,0,1,0,10,52800,-1,-1,-1,-1,-1,-1\n\
0,101,11,30,0,1,0,10,52800,-1,-1,-1,-1,-1,-1\n\
0,102,12,30,0,1,0,10,52800,-1,-1,-1,-1,-1,-1\n\
0,103,13,30,0,1,0,10,52800,-1,-1,-1,-1,-1,-1\n\
0,104,14,30,0,1,0,10,52800,-1,-1,-1,-1,-1,-1\n\
0,105,15,30,0,1,0,10,52800,-1,-1,-1,-1,-1,-1\n\
0,106,16,30,0,1,0,10,52800,-1,-1,-1,-1,-1,-1\n\
0,107,17,30,0,1,0,10,52800,-1,-1,-1,-1,-1,-1\n\
0,108,18,30,0,1,0,10,52800,-1,-1,-1,-1,-1,-1\n\
0,109,19,30,0,1,0,10,52800,-1,-1,-1,-1,-1,-1\n\
0,110,20,30,0,1,0,10,52800,-1,-1,-1,-1,-1,-1\n\
0,111,21,30,0,1,0,10,52800,-1,-1,-1,-1,-1,-1\n";

/// What they are told.
const TWELVE_TOLD: &[u8] = b"0,10,100,-1,0\n0,11,101,-1,0\n0,12,102,-1,0\n0,13,103,-1,0\n\
0,14,104,-1,0\n0,15,105,-1,0\n0,16,106,-1,0\n0,17,107,-1,0\n\
0,18,108,-1,0\n0,19,109,-1,0\n0,20,110,-1,0\n0,21,111,-1,0\n";

/// The bytes of a line.
const LINE: usize = 45;

/// A day of vehicles that come once each, and what they are told; how many lines it has; how many bytes a read gives at
/// most; and how many notices were written when each read was made.
#[derive(Clone, Copy)]
pub struct Waited<'a> {
    pub input: &'a [u8],
    pub told: &'a [u8],
    pub lines: u64,
    pub piece: usize,
    pub seen: &'a [usize],
}

/// Gives what another source has, and keeps how many notices were written when each read was made.
#[derive(Drop)]
struct LookingSource<'a, S> {
    source: S,
    written: &'a AtomicUsize,
    seen: Vec<usize>,
}

impl<'a, S: Source> Source for LookingSource<'a, S> {
    ghost left = { λ s. S.left s.source };

    ghost faults = { λ s. S.faults s.source };

    ghost plan = { λ s. S.plan s.source };

    ghost most = { λ s. S.most s.source };

    ghost name = { λ s. S.name s.source };

    fn read(&mut self, buf: &mut [u8]) -> Result<usize, Failed> {
        if self.seen.push(self.written.load(Ordering::SeqCst)).is_err() {}
        self.source.read(buf)
    }
}

/// Has another sink take the bytes, and counts the notices.
#[derive(Drop)]
struct CountingSink<'a, O> {
    sink: O,
    written: &'a AtomicUsize,
}

impl<'a, O: Sink> Sink for CountingSink<'a, O> {
    ghost written = { λ s. O.written s.sink };

    ghost room = { λ s. O.room s.sink };

    ghost faults = { λ s. O.faults s.sink };

    ghost most = { λ s. O.most s.sink };

    fn write(&mut self, piece: &[u8]) -> Result<usize, Failed> {
        match self.sink.write(piece) {
            Ok(count) => {
                let ends = piece[..count].iter().filter(|byte| **byte == b'\n');
                self.written.fetch_add(ends.count(), Ordering::SeqCst);
                Ok(count)
            }
            Err(failed) => Err(failed),
        }
    }
}

/// Whether a day is stored by a crew with its notices, which were written by the time of each read.
pub fn is_seen<C: Crew, R: Threads>(
    rt: &R,
    alloc: Global,
    waited: Waited<'_>,
    way: Way,
    crew: &mut C,
) -> bool
    requires idle { C.out crew.old ≡ [] }
{
    let Ok(source) = MemSource::new(alloc, waited.input, waited.piece.max(1), &[]) else {
        return false;
    };
    let Ok(sink) = MemSink::new(alloc, 65_536, 65_536) else {
        return false;
    };
    let written = AtomicUsize::new(0);
    let mut source = LookingSource {
        source,
        written: &written,
        seen: Vec::new(alloc),
    };
    let mut sink = CountingSink {
        sink,
        written: &written,
    };
    let stored = match imported(rt, alloc, way, &mut source, &mut sink, &[], crew) {
        Outcome::Stored(kept) => (kept.tuples, kept.notices) == (waited.lines, waited.lines),
        _ => false,
    };
    stored && sink.sink.bytes() == waited.told && source.seen.as_slice() == waited.seen
}

/// The same by a crew that runs a job as it is started, and by one that runs it as it is finished, by one worker and by
/// three.
fn is_seen_by_each<R: Threads + Wait + Sync + Copy + Drop>(
    rt: R,
    alloc: Global,
    waited: Waited<'_>,
    backlog: u32,
) -> bool {
    let one = Way {
        width: 1,
        turns: None,
        backlog,
    };
    let three = Way { width: 3, ..one };
    by(rt, alloc, Kind::Soon, Task::Waited(waited, one), None)
        && by(rt, alloc, Kind::Late, Task::Waited(waited, one), None)
        && by(rt, alloc, Kind::Soon, Task::Waited(waited, three), None)
        && by(rt, alloc, Kind::Late, Task::Waited(waited, three), None)
}

/// Four thousand vehicles at one time, in lines of 46 bytes, and what they are told.
fn thousands(alloc: Global) -> Result<(Vec<u8>, Vec<u8>), NoMemory> {
    let mut input = Vec::new(alloc);
    let mut told = Vec::new(alloc);
    for vid in 1000..5000u32 {
        let line = format!(in alloc; "0,60,{vid},30,0,1,0,10,52800,-1,-1,-1,-1,-1,-1\n")?;
        input.extend_from_slice(line.as_bytes())?;
        let notice = format!(in alloc; "0,{vid},60,-1,0\n")?;
        told.extend_from_slice(notice.as_bytes())?;
    }
    Ok((input, told))
}

/// A line a read, four lines in a round: the fifth is read to know that the second round comes.
const BY_LINES: Waited<'static> = Waited {
    input: TWELVE,
    told: TWELVE_TOLD,
    lines: 12,
    piece: LINE,
    seen: &[0, 0, 0, 0, 0, 4, 4, 4, 4, 8, 8, 8, 8],
};

/// Six lines a read, and then the end: a round is told though more lines are there.
const BY_SIXES: Waited<'static> = Waited {
    piece: 270,
    seen: &[0, 4, 8],
    ..BY_LINES
};

#[test]
fn a_round_is_told_before_the_source_is_waited_for(rt: HostRuntime) {
    let lines = is_seen_by_each(rt, rt.alloc(), BY_LINES, 4);
    let sixes = is_seen_by_each(rt, rt.alloc(), BY_SIXES, 4);
    assert_eq!(rt; [lines, sixes], [true; 2]);
}

/// The first two reads fill the buffer: 2,848 lines and a part. The third, of the rest, is made beside the jobs of the
/// first round; the last finds the end once that is told.
fn are_read_meanwhile<R: Threads + Wait + Sync + Copy + Drop>(rt: R, alloc: Global) -> bool {
    let Ok((input, told)) = thousands(alloc) else {
        return false;
    };
    let waited = Waited {
        input: input.as_slice(),
        told: told.as_slice(),
        lines: 4000,
        piece: 65_536,
        seen: &[0, 0, 0, 2000],
    };
    is_seen_by_each(rt, alloc, waited, 2000)
}

#[test]
fn a_source_that_does_not_wait_is_read_meanwhile(rt: HostRuntime) {
    assert!(rt; are_read_meanwhile(rt, rt.alloc()));
}
