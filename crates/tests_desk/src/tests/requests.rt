// What comes of each request, byte for byte, however its bytes come in pieces.
mod rows;

use road_io::{Link, MemLink};
use road_time::NoMemory;
use rows::{ASKED, BAD_HEAD, NO_LENGTH, REFUSED, Refused};
use serve_requests::{Asked, BodyEnd, Routes, SessionEnd, read_asked, skip_body};
use std::alloc::Global;

/// What came of a request.
#[derive(Clone, Copy, Debug, PartialEq, Eq)]
enum Came {
    Day(u32),
    Import(u32, u64),
    Spent(u32, u8, u32),
    Live(u32),
    Total,
    Vehicle(u32, u32, u32),
    Days,
    Page,
    Health,
    Answers(u32, u64),
    Ended(SessionEnd),
}

fn came_of(read: &Result<Asked, SessionEnd>) -> Came {
    match read {
        Ok(Asked::Day(day)) => Came::Day(*day),
        Ok(Asked::Import { day, length, .. }) => Came::Import(*day, *length),
        Ok(Asked::Spent { day, xway, vid }) => Came::Spent(*day, *xway, *vid),
        Ok(Asked::Live(vid)) => Came::Live(*vid),
        Ok(Asked::LiveTotal) => Came::Total,
        Ok(Asked::Vehicle { vid, from, to }) => Came::Vehicle(*vid, *from, *to),
        Ok(Asked::Days) => Came::Days,
        Ok(Asked::Page) => Came::Page,
        Ok(Asked::Health) => Came::Health,
        Ok(Asked::Answers { day, length, .. }) => Came::Answers(*day, *length),
        Err(end) => Came::Ended(*end),
    }
}

/// Reads a request over a link.
fn read(alloc: Global, routes: &Routes, link: &mut MemLink) -> Result<Asked, SessionEnd> {
    match read_asked(alloc, routes, link) {
        Ok(asked) => Ok(asked),
        Err(end) => Err(end),
    }
}

/// Whether this comes of a request in pieces of this size, and this is answered.
fn comes(
    alloc: Global,
    routes: &Routes,
    input: &[u8],
    piece: usize,
    came: Came,
    answer: &[u8],
) -> Result<bool, NoMemory> {
    let mut link = MemLink::new(alloc, input, piece.max(1), 1000, &[])?;
    let asked = read(alloc, routes, &mut link);
    Ok(came_of(&asked) == came && link.bytes() == answer)
}

/// Whether each request of a kind is refused so.
fn are_refused(
    alloc: Global,
    routes: &Routes,
    piece: usize,
    refused: &Refused,
) -> Result<bool, NoMemory> {
    let end = Came::Ended(SessionEnd::Answered(refused.status));
    let mut same = true;
    for request in refused.requests {
        same = comes(alloc, routes, request, piece, end, refused.answer)? && same;
    }
    Ok(same)
}

#[test]
fn requests(rt: HostRuntime) -> Result<(), NoMemory> {
    let routes = Routes::new(rt.alloc())?;
    for piece in [1, 7, 10_000] {
        for (request, wanted) in &ASKED {
            assert!(rt; comes(rt.alloc(), &routes, request, piece, *wanted, b"")?);
        }
        for refused in &REFUSED {
            assert!(rt; are_refused(rt.alloc(), &routes, piece, refused)?);
        }
    }
    Ok(())
}

/// A head with so many bytes in its one field.
fn long_head(alloc: Global, count: u32) -> Result<Vec<u8>, NoMemory> {
    let mut head = Vec::new(alloc);
    head.extend_from_slice(b"GET /days/100 HTTP/1.1\r\nA: ")?;
    for _ in 0..count {
        head.push(b'a')?;
    }
    head.extend_from_slice(b"\r\n\r\n")?;
    Ok(head)
}

/// A head of so many fields.
fn wide_head(alloc: Global, count: u32) -> Result<Vec<u8>, NoMemory> {
    let mut head = Vec::new(alloc);
    head.extend_from_slice(b"GET /days/100 HTTP/1.1\r\n")?;
    for _ in 0..count {
        head.extend_from_slice(b"A: b\r\n")?;
    }
    head.extend_from_slice(b"\r\n")?;
    Ok(head)
}

/// Whether this comes of a head with so many bytes in its one field.
fn long_comes(
    alloc: Global,
    routes: &Routes,
    count: u32,
    piece: usize,
    came: Came,
    answer: &[u8],
) -> Result<bool, NoMemory> {
    let head = long_head(alloc, count)?;
    comes(alloc, routes, head.as_slice(), piece, came, answer)
}

/// Whether this comes of a head of so many fields.
fn wide_comes(
    alloc: Global,
    routes: &Routes,
    count: u32,
    piece: usize,
    came: Came,
    answer: &[u8],
) -> Result<bool, NoMemory> {
    let head = wide_head(alloc, count)?;
    comes(alloc, routes, head.as_slice(), piece, came, answer)
}

const BAD: Came = Came::Ended(SessionEnd::Answered(400));

#[test]
fn heads_at_their_limits(rt: HostRuntime) -> Result<(), NoMemory> {
    let routes = Routes::new(rt.alloc())?;
    assert_eq!(rt; long_head(rt.alloc(), 8161)?.len(), 8192);
    for piece in [1000, 10_000] {
        assert!(rt; long_comes(rt.alloc(), &routes, 8161, piece, Came::Day(100), b"")?);
        assert!(rt; long_comes(rt.alloc(), &routes, 8162, piece, BAD, BAD_HEAD)?);
        assert!(rt; wide_comes(rt.alloc(), &routes, 64, piece, Came::Day(100), b"")?);
        assert!(rt; wide_comes(rt.alloc(), &routes, 65, piece, BAD, BAD_HEAD)?);
    }
    Ok(())
}

/// A POST without its body.
const POST: &[u8] = b"POST /days/100?a HTTP/1.1\r\nHost: localhost\r\nContent-Length: 5\r\n\r\n";

#[test]
fn a_head_that_is_cut_is_not_answered(rt: HostRuntime) -> Result<(), NoMemory> {
    let routes = Routes::new(rt.alloc())?;
    let cut = Came::Ended(SessionEnd::Cut);
    for count in 0..POST.len() {
        assert!(rt; comes(rt.alloc(), &routes, &POST[..count], 3, cut, b"")?);
    }
    assert!(rt; comes(rt.alloc(), &routes, POST, 3, Came::Import(100, 5), b"")?);
    Ok(())
}

/// How a POST and its body end, and what the link gives next; `None` where it is not asked.
fn post(
    alloc: Global,
    input: &[u8],
    piece: usize,
    fails: &[u32],
) -> Result<Option<(BodyEnd, usize)>, NoMemory> {
    let routes = Routes::new(alloc)?;
    let mut link = MemLink::new(alloc, input, piece.max(1), 0, fails)?;
    let Ok(Asked::Import { length, early, .. }) = read(alloc, &routes, &mut link) else {
        return Ok(None);
    };
    if early.items().len() as u64 > length {
        return Ok(None);
    }
    let end = skip_body(&mut link, early.items(), length);
    let mut next = [0u8; 100];
    let more = link.read(&mut next).unwrap_or(0);
    Ok(Some((end, more)))
}

/// What comes of this input over a link of some room that fails at some reads, and what is answered.
fn comes_over(
    alloc: Global,
    input: &[u8],
    room: usize,
    fails: &[u32],
    came: Came,
    answer: &[u8],
) -> Result<bool, NoMemory> {
    let routes = Routes::new(alloc)?;
    let mut link = MemLink::new(alloc, input, 10, room, fails)?;
    let asked = read(alloc, &routes, &mut link);
    Ok(came_of(&asked) == came && link.bytes() == answer)
}

const HEAD: &[u8] = b"POST /days/100 HTTP/1.1\r\nContent-Length: 5\r\n\r\n";

const WHOLE: &[u8] = b"POST /days/100 HTTP/1.1\r\nContent-Length: 5\r\n\r\nabcdef";

const CUT: &[u8] = b"POST /days/100 HTTP/1.1\r\nContent-Length: 5\r\n\r\nabc";

const UNSIZED: &[u8] = b"POST /days/100 HTTP/1.1\r\n\r\n";

/// Inputs in pieces of some size, of which a read fails or none, and how they end. The head has 46 bytes.
const POSTS: [(&[u8], usize, &[u32], Option<(BodyEnd, usize)>); 15] = [
    (WHOLE, 1, &[], Some((BodyEnd::Whole, 1))),
    (WHOLE, 46, &[], Some((BodyEnd::Whole, 1))),
    (WHOLE, 48, &[], Some((BodyEnd::Whole, 1))),
    (WHOLE, 100, &[], Some((BodyEnd::Whole, 0))),
    (CUT, 1, &[], Some((BodyEnd::Cut, 0))),
    (CUT, 46, &[], Some((BodyEnd::Cut, 0))),
    (CUT, 48, &[], Some((BodyEnd::Cut, 0))),
    (CUT, 100, &[], Some((BodyEnd::Cut, 0))),
    (HEAD, 1, &[], Some((BodyEnd::Cut, 0))),
    (HEAD, 46, &[], Some((BodyEnd::Cut, 0))),
    (HEAD, 48, &[], Some((BodyEnd::Cut, 0))),
    (HEAD, 100, &[], Some((BodyEnd::Cut, 0))),
    (WHOLE, 46, &[1], Some((BodyEnd::LinkFault, 6))),
    (CUT, 46, &[2], Some((BodyEnd::LinkFault, 0))),
    (WHOLE, 46, &[0], None),
];

#[test]
fn bodies_and_faults(rt: HostRuntime) -> Result<(), NoMemory> {
    assert_eq!(rt; HEAD.len(), 46);
    for (input, piece, fails, end) in &POSTS {
        assert!(rt; post(rt.alloc(), input, *piece, fails)? == *end);
    }
    let answered = Came::Ended(SessionEnd::Answered(411));
    let fault = Came::Ended(SessionEnd::LinkFault);
    assert_eq!(rt; NO_LENGTH.len(), 128);
    assert!(rt; comes_over(rt.alloc(), UNSIZED, 128, &[], answered, NO_LENGTH)?);
    assert!(rt; comes_over(rt.alloc(), UNSIZED, 127, &[], fault, &NO_LENGTH[..127])?);
    assert!(rt; comes_over(rt.alloc(), HEAD, 1000, &[4], fault, b"")?);
    Ok(())
}
