// What is asked of a desk that acceptors share: what is kept, of a day, an expressway and a vehicle that differ from one
// another; what is asked of a keeper that fails; a long day; and the notices of a day that is sent.
use super::caller::told;
use super::faults::KEPT;
use super::listing::{AFTER_TWO_DAYS, LONG_DAY, charged_on_five, long_post};
use super::sharing::{Came, Doing, Done, share_new};
use super::streaming::{STREAMED, charged_day, is_stream, request_of};
use super::{EMPTY_DAY, answer_of, charged_on_leaving};
use road_io::{BothWays, MemLink, MemSink};
use road_time::NoMemory;
use serve_loops::{Host, NoTurn};
use std::alloc::Global;
use std::sync::Wait;
use std::thread::Threads;

/// What is asked of a new desk that acceptors share, and what it is to answer.
#[derive(Clone, Copy)]
pub enum Asking<'a> {
    /// What is kept, once two days were posted.
    TwoDays,
    /// This, of a keeper that fails.
    Fault(&'a [u8]),
    /// A live account, of a keeper that fails.
    Account,
    /// A day of 100,000 bytes is posted.
    LongDay,
    /// This over a connection in pieces, which is to have this behind the head.
    Notices {
        request: &'a [u8],
        piece: usize,
        sent: &'a [u8],
    },
    /// Notices, over a connection whose outward direction cannot be taken out of it.
    NoHandle,
}

/// Whether a host answers what is asked after two days as it is to be, once both were posted.
fn answers_two_days<Q, H: Host<Q>>(
    alloc: Global,
    host: &H,
    seat: &mut Q,
) -> Result<bool, NoMemory> {
    let first = charged_on_leaving(alloc)?;
    told(alloc, host, seat, first.as_slice(), 100)?;
    let second = charged_on_five(alloc)?;
    told(alloc, host, seat, second.as_slice(), 100)?;
    for row in AFTER_TWO_DAYS {
        let written = told(alloc, host, seat, row.request, 100)?;
        let wanted = answer_of(alloc, row.status, row.body)?;
        if written.as_slice() != wanted.as_bytes() {
            return Ok(false);
        }
    }
    Ok(true)
}

/// Whether a host answers a request, which comes in pieces, with this status and this body.
fn answers_so<Q, H: Host<Q>>(
    alloc: Global,
    host: &H,
    seat: &mut Q,
    request: &[u8],
    piece: usize,
    status: &str,
    body: &str,
) -> Result<bool, NoMemory> {
    let written = told(alloc, host, seat, request, piece)?;
    let wanted = answer_of(alloc, status, body)?;
    Ok(written.as_slice() == wanted.as_bytes())
}

/// Whether a host writes this behind the head of a stream on a connection whose bytes go out apart from it, and keeps
/// no day.
fn streams<Q, H: Host<Q>>(
    alloc: Global,
    host: &H,
    seat: &mut Q,
    request: &[u8],
    piece: usize,
    sent: &[u8],
) -> Result<bool, NoMemory> {
    let input = MemLink::new(alloc, request, piece.max(1), 0, &[])?;
    let output = MemSink::new(alloc, 10_000, piece.max(1))?;
    let mut link = BothWays::new(input, output);
    host.attend(alloc, &mut link, &mut NoTurn, seat);
    let day = b"GET /days/100 HTTP/1.1\r\n\r\n";
    let body = "{\"error\":\"no day\"}";
    let none = answers_so(alloc, host, seat, day, 100, "404 Not Found", body)?;
    Ok(none && is_stream(link.bytes(), sent))
}

/// Whether a host answers what is asked as it is to be.
pub fn answers<Q, H: Host<Q>>(
    alloc: Global,
    host: &H,
    seat: &mut Q,
    asking: Asking<'_>,
) -> Result<bool, NoMemory> {
    match asking {
        Asking::TwoDays => answers_two_days(alloc, host, seat),
        Asking::Fault(request) => {
            let status = "503 Service Unavailable";
            let body = "{\"error\":\"keeper\"}";
            answers_so(alloc, host, seat, request, 100, status, body)
        }
        Asking::Account => {
            let account = b"GET /live/100 HTTP/1.1\r\n\r\n";
            let body = "{\"as_of\":0,\"balance\":0,\"day\":0}";
            answers_so(alloc, host, seat, account, 7, "200 OK", body)
        }
        Asking::LongDay => {
            let request = long_post(alloc)?;
            let long = request.as_slice();
            answers_so(alloc, host, seat, long, 10_000, "200 OK", LONG_DAY)
        }
        Asking::Notices {
            request,
            piece,
            sent,
        } => streams(alloc, host, seat, request, piece, sent),
        Asking::NoHandle => {
            let request = request_of(alloc, b"", 0)?;
            let empty = request.as_slice();
            let status = "500 Internal Server Error";
            let body = "{\"error\":\"memory\"}";
            answers_so(alloc, host, seat, empty, 100, status, body)
        }
    }
}

/// Whether a desk answered what was asked as it is to be.
fn is_right(came: &Came) -> bool {
    matches!(came.done, Done::Asked(true))
}

/// Whether a new desk of each crew answers so, with a new keeper each, which fails at these calls.
fn share_for_both<R: Threads + Wait + Drop + Copy + Send + Sync>(
    rt: R,
    alloc: Global,
    fails: &[u32],
    asking: Asking<'_>,
) -> Result<bool, NoMemory> {
    let [inline, threads] = share_new(rt, alloc, fails, Doing::Asks(asking))?;
    Ok(is_right(&inline) && is_right(&threads))
}

/// An amount is that of the day, the expressway and the vehicle that are asked for, over a desk that acceptors share.
#[test]
fn who_asks_over_acceptors_is_told_of_that_very_one(rt: HostRuntime) -> Result<(), NoMemory> {
    assert!(rt; share_for_both(rt, rt.alloc(), &[], Asking::TwoDays)?);
    Ok(())
}

/// Who asks for what is kept over acceptors is answered with 503 where the keeper fails, and so is who posts a day.
#[test]
fn who_asks_over_acceptors_is_told_of_a_fault(rt: HostRuntime) -> Result<(), NoMemory> {
    for request in KEPT {
        assert!(rt; share_for_both(rt, rt.alloc(), &[0], Asking::Fault(request))?);
    }
    assert!(rt; share_for_both(rt, rt.alloc(), &[0], Asking::Fault(EMPTY_DAY))?);
    Ok(())
}

/// A live account is answered of the board alone, whatever becomes of the keeper.
#[test]
fn an_account_asks_no_keeper(rt: HostRuntime) -> Result<(), NoMemory> {
    assert!(rt; share_for_both(rt, rt.alloc(), &[0], Asking::Account)?);
    Ok(())
}

/// A POST of 100,000 bytes in pieces of 10,000 is stored over acceptors too.
#[test]
fn a_long_post_over_acceptors_is_stored(rt: HostRuntime) -> Result<(), NoMemory> {
    assert!(rt; share_for_both(rt, rt.alloc(), &[], Asking::LongDay)?);
    Ok(())
}

/// Whether a desk that acceptors share, whose keeper fails at these calls, streams this for a request.
fn is_streamed<R: Threads + Wait + Drop + Copy + Send + Sync>(
    rt: R,
    alloc: Global,
    fails: &[u32],
    request: &[u8],
    sent: &[u8],
) -> Result<bool, NoMemory> {
    let asking = Asking::Notices {
        request,
        piece: 7,
        sent,
    };
    share_for_both(rt, alloc, fails, asking)
}

/// The notices of a day that is sent are streamed over acceptors, to the closing line.
#[test]
fn notices_are_streamed_over_acceptors(rt: HostRuntime) -> Result<(), NoMemory> {
    let alloc = rt.alloc();
    for row in &STREAMED {
        let request = request_of(alloc, row.lines, 0)?;
        assert!(rt; is_streamed(rt, alloc, &[], request.as_slice(), row.sent)?);
    }
    let (lines, sent) = charged_day(alloc)?;
    let request = request_of(alloc, lines.as_slice(), 0)?;
    assert!(rt; is_streamed(rt, alloc, &[], request.as_slice(), sent.as_slice())?);
    Ok(())
}

/// Over acceptors too a body that is cut and a keeper that fails are told behind the head; and where there is no second
/// handle of a connection, want of memory is answered.
#[test]
fn a_stream_over_acceptors_tells_its_faults(rt: HostRuntime) -> Result<(), NoMemory> {
    let alloc = rt.alloc();
    let cut = request_of(alloc, b"\n\n\n", 2)?;
    assert!(rt; is_streamed(rt, alloc, &[], cut.as_slice(), b"# read fault\n")?);
    let empty = request_of(alloc, b"", 0)?;
    assert!(rt; is_streamed(rt, alloc, &[0], empty.as_slice(), b"# keeper fault\n")?);
    assert!(rt; share_for_both(rt, alloc, &[], Asking::NoHandle)?);
    Ok(())
}
