// The notices of a day that is sent, streamed over a link in memory.
ghost use Rattle.std.specs.Prelude.{◌≡◌};

use super::{LEAVING, ask, desk_of, end_desk};
use keep_office::MemKeeper;
use road_io::{BothWays, MemLink, MemSink};
use road_time::NoMemory;
use serve_board::{Board, BoardReader, board};
use serve_desk::{Desk, Routes, SessionEnd, session};
use std::alloc::Global;
use std::sync::Wait;
use std::thread::Threads;
use ways_crews::InlineCrew;

const HEAD: &[u8] = b"HTTP/1.1 200 OK\r\nContent-Type: text/plain\r\nConnection: close\r\n\r\n";

/// The lines of a body, and what is sent behind the head.
#[derive(Clone, Copy)]
pub struct Streamed {
    pub lines: &'static [u8],
    pub sent: &'static [u8],
}

pub const STREAMED: [Streamed; 4] = [
    Streamed {
        lines: b"",
        sent: b"# answered day 100 tuples 0 notices 0\n",
    },
    Streamed {
        lines: b"0,0,7,30,0,0,0,10,52800,-1,-1,-1,-1,-1,-1\n",
        sent: b"0,7,0,-1,0\n# answered day 100 tuples 1 notices 1\n",
    },
    Streamed {
        lines: b"0,10,1,30,0,1,0,10,52800,-1,-1,-1,-1,-1,-1\n0,10,2,30,0,1,0,10,52800,-1,-1,-1,-1,-1,-1\n\
            0,9,3,30,0,1,0,10,52800,-1,-1,-1,-1,-1,-1\n",
        sent: b"0,1,10,-1,0\n0,2,10,-1,0\n# refused line 3 late 10 9\n",
    },
    Streamed {
        lines: b"abc",
        sent: b"# refused line 1 fields 1\n",
    },
];

/// What came of a session over a link of these bytes: its end, all that was sent, and whether the day was kept.
#[derive(Drop)]
struct Seen {
    end: SessionEnd,
    sent: Vec<u8>,
    kept: bool,
}

/// A request for the notices of day 100, whose body is as long as it says, or as many bytes shorter.
pub fn request_of(alloc: Global, lines: &[u8], missing: usize) -> Result<Vec<u8>, NoMemory> {
    let count = lines.len().saturating_add(missing);
    let head = format!(in alloc; "POST /answers/100 HTTP/1.1\r\nContent-Length: {count}\r\n\r\n")?;
    let mut request = Vec::from_slice(alloc, head.as_bytes())?;
    request.extend_from_slice(lines)?;
    Ok(request)
}

/// What comes of a request of a desk, whose reply goes out apart from its link, and then of a question for the day.
fn stream<R: Wait + Threads + Drop>(
    alloc: Global,
    desk: &mut Desk<MemKeeper, InlineCrew, R>,
    reader: &mut BoardReader,
    request: &[u8],
    piece: usize,
) -> Result<Seen, NoMemory>
    requires board { reader.old.board ≡ desk.old.writer.board }
{
    let input = MemLink::new(alloc, request, piece.max(1), 0, &[])?;
    let output = MemSink::new(alloc, 10_000, piece.max(1))?;
    let mut link = BothWays::new(input, output);
    let routes = Routes::new(alloc)?;
    let end = session(alloc, &routes, &mut link, reader, desk);
    let sent = Vec::from_slice(alloc, link.bytes())?;
    let (day, _) = ask(alloc, desk, reader, b"GET /days/100 HTTP/1.1\r\n\r\n", 100)?;
    Ok(Seen {
        end,
        sent,
        kept: day != SessionEnd::Answered(404),
    })
}

/// The same of a new desk whose keeper fails at these calls.
fn stream_anew<R: Wait + Threads + Drop + Copy>(
    rt: R,
    alloc: Global,
    fails: &[u32],
    request: &[u8],
    piece: usize,
) -> Result<Seen, NoMemory> {
    let keeper = MemKeeper::new(alloc, fails)?;
    let Board { writer, readers } = board(rt, alloc, 1)?;
    let mut readers = readers.into_vec();
    let mut desk = desk_of(rt, alloc, keeper, writer);
    let seen = match readers.pop() {
        Some(mut reader) => stream(alloc, &mut desk, &mut reader, request, piece),
        None => Err(NoMemory),
    };
    end_desk(desk);
    seen
}

/// Whether all that was sent is the head, and this behind it.
pub fn is_stream(all: &[u8], sent: &[u8]) -> bool {
    all.len() == HEAD.len().saturating_add(sent.len())
        && all.starts_with(HEAD)
        && all.ends_with(sent)
}

/// Whether a session ended so, sent this behind the head, and kept nothing.
fn is_seen(seen: &Seen, end: SessionEnd, sent: &[u8]) -> bool {
    seen.end == end && !seen.kept && is_stream(seen.sent.as_slice(), sent)
}

/// Notices are sent behind the head, and a closing line behind them, in whatever pieces bytes come and go.
#[test]
fn notices_are_streamed(rt: HostRuntime) -> Result<(), NoMemory> {
    for piece in [1, 7, 1000] {
        for row in &STREAMED {
            let request = request_of(rt.alloc(), row.lines, 0)?;
            let seen = stream_anew(rt, rt.alloc(), &[], request.as_slice(), piece)?;
            assert!(rt; is_seen(&seen, SessionEnd::Answered(200), row.sent));
        }
    }
    Ok(())
}

/// The lines of the day on which vehicle 100 is charged as it leaves a crowded stretch, and its notices.
pub fn charged_day(alloc: Global) -> Result<(Vec<u8>, Vec<u8>), NoMemory> {
    let mut lines = Vec::new(alloc);
    let mut sent = Vec::new(alloc);
    for v in 1..52u32 {
        let line = format!(in alloc; "0,0,{v},30,0,1,0,10,52800,-1,-1,-1,-1,-1,-1\n")?;
        lines.extend_from_slice(line.as_bytes())?;
        let notice = format!(in alloc; "0,{v},0,-1,0\n")?;
        sent.extend_from_slice(notice.as_bytes())?;
    }
    lines.extend_from_slice(LEAVING)?;
    sent.extend_from_slice(b"0,100,60,30,2\n0,100,90,-1,0\n0,100,150,-1,0\n2,160,9,2\n")?;
    sent.extend_from_slice(b"# answered day 100 tuples 56 notices 55\n")?;
    Ok((lines, sent))
}

/// A day with a toll, a charge and a balance is answered whole.
#[test]
fn a_charged_day_is_streamed(rt: HostRuntime) -> Result<(), NoMemory> {
    let (lines, sent) = charged_day(rt.alloc())?;
    let request = request_of(rt.alloc(), lines.as_slice(), 0)?;
    let seen = stream_anew(rt, rt.alloc(), &[], request.as_slice(), 100)?;
    assert!(rt; is_seen(&seen, SessionEnd::Answered(200), sent.as_slice()));
    Ok(())
}

/// A body that is cut is told behind the head; so is a keeper that fails, and then the session is cut.
#[test]
fn a_stream_tells_its_faults(rt: HostRuntime) -> Result<(), NoMemory> {
    let cut = request_of(rt.alloc(), b"\n\n\n", 2)?;
    let seen = stream_anew(rt, rt.alloc(), &[], cut.as_slice(), 100)?;
    assert!(rt; is_seen(&seen, SessionEnd::Answered(200), b"# read fault\n"));
    let empty = request_of(rt.alloc(), b"", 0)?;
    let seen = stream_anew(rt, rt.alloc(), &[0], empty.as_slice(), 100)?;
    assert!(rt; is_seen(&seen, SessionEnd::Cut, b"# keeper fault\n"));
    Ok(())
}
