// Links and keepers that fail, and what is answered after them.
ghost use Rattle.std.specs.Prelude.{◌≡◌};

use super::{EMPTY_DAY, ask, ask_over, desk_of, end_desk};
use keep_office::MemKeeper;
use road_io::MemLink;
use road_time::NoMemory;
use serve_board::{Board, BoardReader, board};
use serve_desk::{Desk, SessionEnd};
use std::alloc::Global;
use std::sync::Wait;
use std::thread::Threads;
use ways_crews::InlineCrew;

const FOUR_LINES: &[u8] = b"POST /days/100 HTTP/1.1\r\nContent-Length: 4\r\n\r\n\n\n\n\n";

/// How a session over a link ends, whether nothing was written, and how a POST of an empty day ends after it.
fn then_an_empty_day<R: Wait + Threads + Drop>(
    alloc: Global,
    desk: &mut Desk<MemKeeper, InlineCrew, R>,
    reader: &mut BoardReader,
    link: &mut MemLink,
) -> Result<(SessionEnd, bool, SessionEnd), NoMemory>
    requires board { reader.old.board ≡ desk.old.writer.board }
{
    let end = ask_over(alloc, desk, reader, link)?;
    let silent = link.bytes().is_empty();
    let (next, _) = ask(alloc, desk, reader, EMPTY_DAY, 100)?;
    Ok((end, silent, next))
}

/// The same, of a new desk whose keeper fails at these calls.
fn over_a_new_desk<R: Wait + Threads + Drop + Copy>(
    rt: R,
    alloc: Global,
    fails: &[u32],
    link: &mut MemLink,
) -> Result<(SessionEnd, bool, SessionEnd), NoMemory> {
    let keeper = MemKeeper::new(alloc, fails)?;
    let Board { writer, readers } = board(rt, alloc, 1)?;
    let mut readers = readers.into_vec();
    let mut desk = desk_of(rt, alloc, keeper, writer);
    let came = match readers.pop() {
        Some(mut reader) => then_an_empty_day(alloc, &mut desk, &mut reader, link),
        None => Err(NoMemory),
    };
    end_desk(desk);
    came
}

/// Whether a session over a link of these bytes, of a new desk, ends so, silent or not, and a POST is answered then.
fn ends_so<R: Wait + Threads + Drop + Copy>(
    rt: R,
    alloc: Global,
    link: &mut MemLink,
    fails: &[u32],
    end: SessionEnd,
    silent: bool,
) -> Result<bool, NoMemory> {
    let came = over_a_new_desk(rt, alloc, fails, link)?;
    Ok(came == (end, silent, SessionEnd::Answered(200)))
}

/// A POST that is cut at any byte is cut, answers nothing and stores nothing.
#[test]
fn a_cut_post_stores_nothing(rt: HostRuntime) -> Result<(), NoMemory> {
    for at in 0..FOUR_LINES.len() {
        let mut link = MemLink::new(rt.alloc(), &FOUR_LINES[..at], 100, 1000, &[])?;
        assert!(rt;
            ends_so(rt, rt.alloc(), &mut link, &[], SessionEnd::Cut, true)?,
            "{at}"
        );
    }
    Ok(())
}

/// A POST whose link fails at a read, then at a write, and whose keeper fails at a call: the next POST is answered.
#[test]
fn a_fault_is_told(rt: HostRuntime) -> Result<(), NoMemory> {
    for call in 0..3u32 {
        let mut link = MemLink::new(rt.alloc(), FOUR_LINES, 23, 1000, &[call])?;
        assert!(rt;
            ends_so(rt, rt.alloc(), &mut link, &[], SessionEnd::LinkFault, true)?,
            "{call}"
        );
    }
    let mut narrow = MemLink::new(rt.alloc(), EMPTY_DAY, 100, 300, &[])?;
    assert!(rt;
        ends_so(
            rt,
            rt.alloc(),
            &mut narrow,
            &[],
            SessionEnd::LinkFault,
            false
        )?
    );
    Ok(())
}

/// The same where the keeper fails.
#[test]
fn a_keeper_that_fails_is_told(rt: HostRuntime) -> Result<(), NoMemory> {
    for call in 0..3u32 {
        let mut link = MemLink::new(rt.alloc(), EMPTY_DAY, 100, 1000, &[])?;
        let end = SessionEnd::Answered(503);
        assert!(rt;
            ends_so(rt, rt.alloc(), &mut link, &[call], end, false)?,
            "{call}"
        );
    }
    Ok(())
}

/// What is asked of what is kept, each by its first call of the keeper.
pub const KEPT: [&[u8]; 5] = [
    b"GET /days/104 HTTP/1.1\r\n\r\n",
    b"GET /spent/104/5/177 HTTP/1.1\r\n\r\n",
    b"GET /vehicles/177/101/104 HTTP/1.1\r\n\r\n",
    b"GET /days HTTP/1.1\r\n\r\n",
    b"GET /health HTTP/1.1\r\n\r\n",
];

/// A GET of what is kept is answered with 503 where the keeper fails, and so is one of all days at its second call.
#[test]
fn a_keeper_that_fails_is_told_to_those_who_ask(rt: HostRuntime) -> Result<(), NoMemory> {
    for request in KEPT {
        let mut link = MemLink::new(rt.alloc(), request, 100, 1000, &[])?;
        let end = SessionEnd::Answered(503);
        assert!(rt; ends_so(rt, rt.alloc(), &mut link, &[0], end, false)?);
    }
    let mut link = MemLink::new(rt.alloc(), KEPT[3], 100, 1000, &[])?;
    let end = SessionEnd::Answered(503);
    assert!(rt; ends_so(rt, rt.alloc(), &mut link, &[1], end, false)?);
    Ok(())
}
