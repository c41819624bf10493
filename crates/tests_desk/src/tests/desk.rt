// What comes of each request, byte for byte, over a desk in memory and its board.
ghost use Rattle.std.specs.Prelude.{◌≡◌, IfOk};

mod beside;
mod caller;
mod faults;
mod held;
mod in_line;
mod listing;
mod over_acceptors;
mod rows;
mod sharing;
mod streaming;

use day_plan::Plan;
use keep_office::MemKeeper;
use listing::{AFTER_TWO_DAYS, LISTED, charged_on_five};
use road_io::MemLink;
use road_time::{Limits, NoMemory};
use rows::{ROWS, Row};
use serve_board::{Board, BoardReader, BoardWriter, board};
use serve_desk::{Desk, Routes, SessionEnd, session};
use std::alloc::Global;
use std::sync::Wait;
use std::thread::Threads;
use ways_crews::InlineCrew;

pub const LEAVING: &[u8] =
    b"0,60,100,30,0,1,0,10,52800,-1,-1,-1,-1,-1,-1\n0,90,100,30,0,1,0,11,58080,-1,-1,-1,-1,-1,-1\n\
        0,120,100,30,0,4,0,11,60000,-1,-1,-1,-1,-1,-1\n0,150,100,30,1,0,0,5,26400,-1,-1,-1,-1,-1,-1\n\
        2,160,100,-1,-1,-1,-1,-1,-1,9,-1,-1,-1,-1,-1\n";

/// A POST of a day with these lines.
fn post_of(alloc: Global, day: u32, lines: &[u8]) -> Result<Vec<u8>, NoMemory> {
    let count = lines.len();
    let head = format!(in alloc; "POST /days/{day} HTTP/1.1\r\nContent-Length: {count}\r\n\r\n")?;
    let mut request = Vec::from_slice(alloc, head.as_bytes())?;
    request.extend_from_slice(lines)?;
    Ok(request)
}

/// A POST of a day on which a stretch of an expressway is crowded, and then a vehicle leaves it.
fn charged_on(alloc: Global, day: u32, xway: u8, leaving: &[u8]) -> Result<Vec<u8>, NoMemory> {
    let mut lines = Vec::new(alloc);
    for v in 1..52u32 {
        let line = format!(in alloc; "0,0,{v},30,{xway},1,0,10,52800,-1,-1,-1,-1,-1,-1\n")?;
        lines.extend_from_slice(line.as_bytes())?;
    }
    lines.extend_from_slice(leaving)?;
    post_of(alloc, day, lines.as_slice())
}

/// A POST of the day on which vehicle 100 is charged as it leaves a crowded stretch.
fn charged_on_leaving(alloc: Global) -> Result<Vec<u8>, NoMemory> {
    charged_on(alloc, 100, 0, LEAVING)
}

/// The answer of a status line and a body; none without a status.
fn answer_of(alloc: Global, status: &str, body: &str) -> Result<String, NoMemory> {
    if status.is_empty() {
        return Ok(String::new(alloc));
    }
    let count = body.len();
    Ok(format!(in alloc;
        "HTTP/1.1 {status}\r\nContent-Length: {count}\r\nContent-Type: application/json\r\nConnection: close\r\n\r\n\
            {body}"
    )?)
}

/// A desk of width 4, each job run as it is started.
fn desk_of<R: Wait + Threads + Drop>(
    rt: R,
    alloc: Global,
    keeper: MemKeeper,
    writer: BoardWriter<R>,
) -> Desk<MemKeeper, InlineCrew, R>
    ensures writer { result.writer ≡ writer }
{
    Desk {
        rt,
        keeper,
        crew: InlineCrew::new(alloc, false),
        writer,
        plan: Plan {
            width: 4,
            turns: None,
        },
        limits: Limits::DAY,
    }
}

/// Ends a desk. The calls of a desk that name its keeper and its crew stand once in a function: each is dear to prove.
fn end_desk<R: Wait + Threads + Drop>(desk: Desk<MemKeeper, InlineCrew, R>) {
    desk.end();
}

/// How a session over a link ends.
fn ask_over<R: Wait + Threads + Drop>(
    alloc: Global,
    desk: &mut Desk<MemKeeper, InlineCrew, R>,
    reader: &mut BoardReader,
    link: &mut MemLink,
) -> Result<SessionEnd, NoMemory>
    requires board { reader.old.board ≡ desk.old.writer.board }
    ensures board { IfOk result (λ _. reader.new.board ≡ desk.new.writer.board) }
{
    let routes = Routes::new(alloc)?;
    Ok(session(alloc, &routes, link, reader, desk))
}

/// How a session over a link of these bytes ends, and what was written.
fn ask<R: Wait + Threads + Drop>(
    alloc: Global,
    desk: &mut Desk<MemKeeper, InlineCrew, R>,
    reader: &mut BoardReader,
    input: &[u8],
    piece: usize,
) -> Result<(SessionEnd, Vec<u8>), NoMemory>
    requires board { reader.old.board ≡ desk.old.writer.board }
    ensures board { IfOk result (λ _. reader.new.board ≡ desk.new.writer.board) }
{
    let mut link = MemLink::new(alloc, input, piece.max(1), 40_000, &[])?;
    let end = ask_over(alloc, desk, reader, &mut link)?;
    let written = Vec::from_slice(alloc, link.bytes())?;
    Ok((end, written))
}

/// The number of the first row that is not answered as it is to be, their count where all are.
fn first_wrong<R: Wait + Threads + Drop>(
    alloc: Global,
    desk: &mut Desk<MemKeeper, InlineCrew, R>,
    reader: &mut BoardReader,
    rows: &[Row],
    piece: usize,
) -> Result<usize, NoMemory>
    requires board { reader.old.board ≡ desk.old.writer.board }
{
    let mut at = 0;
    while at < rows.len() {
        let (end, written) = ask(alloc, desk, reader, rows[at].request, piece)?;
        let wanted = answer_of(alloc, rows[at].status, rows[at].body)?;
        if end != rows[at].end || written.as_slice() != wanted.as_bytes() {
            return Ok(at);
        }
        at += 1;
    }
    Ok(at)
}

/// What is asked after the day of a charge.
const AFTER_A_CHARGE: [Row; 4] = [
    Row {
        request: b"GET /live/100 HTTP/1.1\r\n\r\n",
        end: SessionEnd::Answered(200),
        status: "200 OK",
        body: "{\"as_of\":56,\"balance\":2,\"day\":100}",
    },
    Row {
        request: b"GET /live HTTP/1.1\r\n\r\n",
        end: SessionEnd::Answered(200),
        status: "200 OK",
        body: "{\"as_of\":56,\"day\":100,\"total\":2}",
    },
    Row {
        request: b"GET /spent/100/0/100 HTTP/1.1\r\n\r\n",
        end: SessionEnd::Answered(200),
        status: "200 OK",
        body: "{\"spent\":2}",
    },
    Row {
        request: b"GET /vehicles/100/1/100 HTTP/1.1\r\n\r\n",
        end: SessionEnd::Answered(200),
        status: "200 OK",
        body: "{\"amounts\":[{\"day\":100,\"tolls\":2,\"xway\":0}],\"from\":1,\"to\":100,\"total\":2,\"vid\":100}",
    },
];

/// Posts the day of a charge, and then asks for it.
fn post_and_ask<R: Wait + Threads + Drop>(
    alloc: Global,
    desk: &mut Desk<MemKeeper, InlineCrew, R>,
    reader: &mut BoardReader,
) -> Result<usize, NoMemory>
    requires board { reader.old.board ≡ desk.old.writer.board }
{
    let request = charged_on_leaving(alloc)?;
    let (end, _) = ask(alloc, desk, reader, request.as_slice(), 100)?;
    if end != SessionEnd::Answered(200) {
        return Ok(usize::MAX);
    }
    first_wrong(alloc, desk, reader, &AFTER_A_CHARGE, 100)
}

/// How the first of two posts of the day of a charge ends, and which row of those after them is wrong, their count
/// where the second post is answered and none is.
fn post_twice<R: Wait + Threads + Drop>(
    alloc: Global,
    desk: &mut Desk<MemKeeper, InlineCrew, R>,
    reader: &mut BoardReader,
) -> Result<(SessionEnd, usize), NoMemory>
    requires board { reader.old.board ≡ desk.old.writer.board }
{
    let request = charged_on_leaving(alloc)?;
    let (end, _) = ask(alloc, desk, reader, request.as_slice(), 100)?;
    let wrong = post_and_ask(alloc, desk, reader)?;
    Ok((end, wrong))
}

/// Posts a day of a charge on expressway 0, another on expressway 5, and then asks for both.
fn post_two<R: Wait + Threads + Drop>(
    alloc: Global,
    desk: &mut Desk<MemKeeper, InlineCrew, R>,
    reader: &mut BoardReader,
) -> Result<(SessionEnd, usize), NoMemory>
    requires board { reader.old.board ≡ desk.old.writer.board }
{
    let request = charged_on_leaving(alloc)?;
    ask(alloc, desk, reader, request.as_slice(), 100)?;
    let request = charged_on_five(alloc)?;
    let (end, _) = ask(alloc, desk, reader, request.as_slice(), 100)?;
    let wrong = first_wrong(alloc, desk, reader, &AFTER_TWO_DAYS, 100)?;
    Ok((end, wrong))
}

/// What is asked of a new desk: the worked rows in pieces of a size, or what follows a day of a charge that is posted
/// once or twice, or two such days; or days that are posted and listed.
#[derive(Clone, Copy)]
enum Asking {
    Rows(usize),
    Charge,
    ChargeTwice,
    TwoDays,
    Listed,
}

/// How a first post ends, where there is one, and which row is wrong then, their count where none is.
fn asked<R: Wait + Threads + Drop>(
    alloc: Global,
    desk: &mut Desk<MemKeeper, InlineCrew, R>,
    reader: &mut BoardReader,
    asking: Asking,
) -> Result<(SessionEnd, usize), NoMemory>
    requires board { reader.old.board ≡ desk.old.writer.board }
{
    let end = SessionEnd::Answered(200);
    match asking {
        Asking::Rows(piece) => Ok((end, first_wrong(alloc, desk, reader, &ROWS, piece)?)),
        Asking::Charge => Ok((end, post_and_ask(alloc, desk, reader)?)),
        Asking::ChargeTwice => post_twice(alloc, desk, reader),
        Asking::TwoDays => post_two(alloc, desk, reader),
        Asking::Listed => Ok((end, first_wrong(alloc, desk, reader, &LISTED, 100)?)),
    }
}

/// The same of a new desk.
fn asked_of_a_new_desk<R: Wait + Threads + Drop + Copy>(
    rt: R,
    alloc: Global,
    asking: Asking,
) -> Result<(SessionEnd, usize), NoMemory> {
    let keeper = MemKeeper::new(alloc, &[])?;
    let Board { writer, readers } = board(rt, alloc, 1)?;
    let mut readers = readers.into_vec();
    let mut desk = desk_of(rt, alloc, keeper, writer);
    let came = match readers.pop() {
        Some(mut reader) => asked(alloc, &mut desk, &mut reader, asking),
        None => Err(NoMemory),
    };
    end_desk(desk);
    came
}

/// The worked rows of requests, in whatever pieces their bytes come.
#[test]
fn each_request_has_its_answer(rt: HostRuntime) -> Result<(), NoMemory> {
    for piece in [1, 7, 1000] {
        let (_, wrong) = asked_of_a_new_desk(rt, rt.alloc(), Asking::Rows(piece))?;
        assert_eq!(rt; wrong, ROWS.len());
    }
    Ok(())
}

/// A day that is posted is seen at once by the reader of its session: an account, the total, and an amount.
#[test]
fn a_posted_day_is_seen_at_once(rt: HostRuntime) -> Result<(), NoMemory> {
    let (_, wrong) = asked_of_a_new_desk(rt, rt.alloc(), Asking::Charge)?;
    assert_eq!(rt; wrong, AFTER_A_CHARGE.len());
    Ok(())
}

/// A day that is posted while an allocation fails is answered as ever, or by 500; posted again it is kept and seen.
/// `rt try --test --fail-alloc 1..` has each allocation fail in turn: then a run may end for want of memory too.
#[test]
fn a_post_without_memory_is_answered(rt: HostRuntime) -> Result<(), NoMemory> {
    let (end, wrong) = asked_of_a_new_desk(rt, rt.alloc(), Asking::ChargeTwice)?;
    assert!(rt; end == SessionEnd::Answered(200) || end == SessionEnd::Answered(500));
    assert_eq!(rt; wrong, AFTER_A_CHARGE.len());
    Ok(())
}

const EMPTY_DAY: &[u8] = b"POST /days/100 HTTP/1.1\r\nContent-Length: 0\r\n\r\n";
