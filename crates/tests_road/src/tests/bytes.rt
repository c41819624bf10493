// Lines at their greatest length, the same ones however reads are cut; faults where they are told; files and
// interruptions.
ghost use Rattle.std.specs.Prelude.{◌≡◌, IfOk};

use road_io::{
    Failed, FileSource, LineCutter, LineFault, Link, MemLink, MemSink, MemSource, Reading, Sink,
    Source, VoidSink, Writing, put_all, send_all,
};
use road_time::NoMemory;
use std::alloc::Global;
use std::io::{self, Read, Write};

/// Bytes, the reads of them that fail, how long their lines are, how many bytes these take, and how they end.
struct Row {
    bytes: &'static [u8],
    fails: &'static [u32],
    lengths: &'static [usize],
    taken: usize,
    end: Result<bool, LineFault>,
}

/// However they come in pieces.
const ROWS: [Row; 5] = [
    Row {
        bytes: &[b'1'; 200],
        fails: &[],
        lengths: &[200],
        taken: 200,
        end: Ok(false),
    },
    Row {
        bytes: &[b'1'; 201],
        fails: &[],
        lengths: &[],
        taken: 0,
        end: Err(LineFault::LongLine(1)),
    },
    Row {
        bytes: b"ab\n\nc\r\n",
        fails: &[],
        lengths: &[2, 0, 2],
        taken: 7,
        end: Ok(false),
    },
    Row {
        bytes: b"",
        fails: &[],
        lengths: &[],
        taken: 0,
        end: Ok(false),
    },
    Row {
        bytes: b"ab\nc",
        fails: &[0],
        lengths: &[],
        taken: 0,
        end: Err(LineFault::ReadFault),
    },
];

/// Byte by byte.
const LATER: Row = Row {
    bytes: b"ab\nc",
    fails: &[3],
    lengths: &[2],
    taken: 3,
    end: Err(LineFault::ReadFault),
};

/// Whether a row's bytes are cut as they are to be, in pieces of this size.
fn is_cut(alloc: Global, piece: usize, row: &Row) -> bool {
    let Ok(mut source) = MemSource::new(alloc, row.bytes, piece.max(1), row.fails) else {
        return false;
    };
    match LineCutter::new(alloc) {
        Ok(mut cutter) => cuts(&mut cutter, &mut source, row),
        Err(_) => false,
    }
}

/// Whether a cutter has a row's lines next, and its end.
fn cuts(cutter: &mut LineCutter, source: &mut MemSource, row: &Row) -> bool {
    let mut taken: usize = 0;
    for length in row.lengths {
        if cutter.number() > 1000 || cutter.advance(source) != Ok(true) {
            return false;
        }
        if cutter.line().len() != *length {
            return false;
        }
        taken = taken.saturating_add(cutter.rest().len());
    }
    cutter.number() <= 1000 && (cutter.advance(source), taken) == (row.end, row.taken)
}

/// Whether each row's bytes are cut as they are to be, however they come in pieces.
fn are_cut(alloc: Global, rows: &[Row]) -> bool {
    for row in rows {
        if !is_cut(alloc, 1, row) || !is_cut(alloc, 7, row) || !is_cut(alloc, 65_536, row) {
            return false;
        }
    }
    true
}

#[test]
fn lines_at_their_limits(rt: HostRuntime) {
    let rows = [are_cut(rt.alloc(), &ROWS), is_cut(rt.alloc(), 1, &LATER)];
    assert_eq!(rt; rows, [true; 2]);
}

/// Whether a sink with room for five bytes takes five, two at a time, and no more.
fn fills_up(alloc: Global) -> bool {
    let Ok(mut sink) = MemSink::new(alloc, 5, 2) else {
        return false;
    };
    put_all(&mut sink, b"abc") == Ok(())
        && put_all(&mut sink, b"def") == Err(Failed)
        && sink.write(b"g") == Err(Failed)
        && sink.bytes() == b"abcde".as_slice()
}

/// Whether a source gives three bytes, two at a time, and fails at its second read.
fn gives_out(alloc: Global) -> bool {
    let Ok(mut source) = MemSource::new(alloc, b"abc", 2, &[1]) else {
        return false;
    };
    let mut buf = [0u8; 8];
    let came = [
        source.read(&mut buf),
        source.read(&mut buf),
        source.read(&mut buf),
        source.read(&mut buf),
    ];
    came == [Ok(2), Err(Failed), Ok(1), Ok(0)]
}

/// Whether a sink of nothing takes all.
fn takes_all() -> bool {
    put_all(&mut VoidSink, b"abc") == Ok(()) && VoidSink.write(b"abc") == Ok(3)
}

#[test]
fn bytes_in_and_out(rt: HostRuntime) {
    let rows = [fills_up(rt.alloc()), gives_out(rt.alloc()), takes_all()];
    assert_eq!(rt; rows, [true; 3]);
}

/// Whether a link of three bytes, two at a time, with room for three fails at its second read, and takes three bytes of
/// four.
fn goes_both_ways(link: &mut MemLink) -> bool {
    let mut buf = [0u8; 8];
    let read = [link.read(&mut buf), link.read(&mut buf)];
    let written = link.write(b"xyz");
    let last = link.read(&mut buf);
    let sent = send_all(link, b"st");
    let came = [read[0], read[1], written, last] == [Ok(2), Err(Failed), Ok(2), Ok(1)];
    came && sent == Err(Failed) && link.bytes() == b"xys".as_slice()
}

#[test]
fn bytes_both_ways(rt: HostRuntime) {
    let right = match MemLink::new(rt.alloc(), b"abc", 2, 3, &[1]) {
        Ok(mut link) => goes_both_ways(&mut link),
        Err(_) => false,
    };
    assert!(rt; right);
}

/// A reader and a writer of one byte a call, whose first calls are interrupted.
#[derive(Drop)]
struct Interrupted {
    times: u8,
}

impl Interrupted {
    fn turn(&mut self) -> io::Result<usize>
        ensures { IfOk result (λ n. n ≡ 1) }
    {
        if self.times > 0 {
            self.times -= 1;
            return Err(io::Error::from(io::ErrorKind::Interrupted));
        }
        Ok(1)
    }
}

impl Read for Interrupted {
    fn read(&mut self, buf: &mut [u8]) -> io::Result<usize> {
        if buf.is_empty() {
            return Ok(0);
        }
        self.turn()
    }
}

impl Write for Interrupted {
    fn write(&mut self, piece: &[u8]) -> io::Result<usize> {
        if piece.is_empty() {
            return Ok(0);
        }
        self.turn()
    }

    fn flush(&mut self) -> io::Result<()> {
        Ok(())
    }
}

/// Whether a read and a write that are interrupted three times are made again.
fn are_made_again() -> bool {
    let mut source = Reading::new(Interrupted { times: 3 });
    let mut sink = Writing::new(Interrupted { times: 3 });
    source.read(&mut [0u8; 8]) == Ok(1) && sink.write(b"abc") == Ok(1)
}

#[test]
fn an_interrupted_call_is_made_again(rt: HostRuntime) {
    assert!(rt; are_made_again());
}

/// Whether a source gives the three bytes of its file, and then its end.
fn gives_its_file<S: Source>(source: &mut S) -> bool {
    let mut buf = [0u8; 8];
    let came = source.read(&mut buf);
    let ended = source.read(&mut [0u8; 8]);
    came == Ok(3) && ended == Ok(0) && &buf[..3] == b"abc".as_slice()
}

/// Whether a read of a source fails.
fn fails<S: Source>(source: &mut S) -> bool {
    source.read(&mut [0u8; 8]) == Err(Failed)
}

#[test]
fn a_file_is_opened_once_at_its_first_read(rt: HostRuntime) -> Result<(), NoMemory> {
    let path = "a_file_that_road_io_reads";
    let mut later = FileSource::at(rt.alloc(), rt, path)?;
    let mut missing = FileSource::at(rt.alloc(), rt, path)?;
    let missed = fails(&mut missing);
    let made = std::fs::write(&rt, path, b"abc").is_ok();
    let again = fails(&mut missing);
    let came = gives_its_file(&mut later);
    let removed = std::fs::remove_file(&rt, path).is_ok();
    assert!(rt; made && removed, "the file");
    assert!(rt; missed && again && came, "the reads");
    Ok(())
}
