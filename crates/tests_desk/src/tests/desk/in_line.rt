// A POST of a day that is passed, beside the next one over a desk that acceptors share.
use super::answer_of;
use super::beside::EMPTY_DAY_BEFORE;
use super::caller::{Caller, ask, call};
use super::held::{SlowLink, sees};
use super::sharing::{Came, Doing, Done, share_new};
use road_io::MemLink;
use road_time::NoMemory;
use serve_loops::Host;
use std::alloc::Global;
use std::sync::Wait;
use std::sync::atomic::AtomicBool;
use std::sync::atomic::Ordering::SeqCst;
use std::thread;
use std::thread::Threads;

/// A day that is passed, whose body comes in pieces.
const PASSED_DAY: &[u8] = b"POST /days/98 HTTP/1.1\r\nContent-Length: 60\r\n\r\n\
    012345678901234567890123456789012345678901234567890123456789";

const NEXT_DAY: &[u8] = b"POST /days/100 HTTP/1.1\r\nContent-Length: 0\r\n\r\n";

/// Whether a POST of a passed day was held until the next one was answered, what it was answered itself, and whether
/// the next one was stored.
#[derive(Drop)]
pub struct Behind {
    held: bool,
    passed: Vec<u8>,
    stored: bool,
}

/// Posts a passed day over a link that holds a read of its body, or its answer, until the next day was posted in
/// another thread.
pub fn post_behind<Q: Send, H: Host<Q> + Sync, R: Threads + Wait + Sync>(
    rt: &R,
    alloc: Global,
    host: &H,
    first: &mut Q,
    second: &mut Q,
    writes: bool,
) -> Result<Behind, NoMemory> {
    ask(alloc, host, second, EMPTY_DAY_BEFORE)?;
    let begun = AtomicBool::new(false);
    let ended = AtomicBool::new(false);
    let mut link = SlowLink {
        inner: MemLink::new(alloc, PASSED_DAY, 64, 1000, &[])?,
        writes,
        reads: 0,
        begun: &begun,
        flag: &ended,
        saw: false,
    };
    let mut poster = Caller { host };
    let ((), next) = thread::join(
        rt,
        || call(alloc, &mut poster, &mut link, first),
        || {
            sees(&begun);
            let next = ask(alloc, host, second, NEXT_DAY);
            ended.store(true, SeqCst);
            next
        },
    );
    let next = next?;
    Ok(Behind {
        held: link.saw,
        passed: Vec::from_slice(alloc, link.inner.bytes())?,
        stored: next.starts_with(b"HTTP/1.1 200 OK\r\n"),
    })
}

/// What came of it at a desk.
fn behind_of(came: Came) -> Result<Behind, NoMemory> {
    let Came { done, kept: _ } = came;
    match done {
        Done::Behind(behind) => Ok(behind),
        Done::Beside(_) => Err(NoMemory),
        Done::Asked(_) => Err(NoMemory),
    }
}

/// What comes of it at a new desk of each crew.
fn share_both<R: Threads + Wait + Drop + Copy + Send + Sync>(
    rt: R,
    alloc: Global,
    writes: bool,
) -> Result<[Behind; 2], NoMemory> {
    let [inline, threads] = share_new(rt, alloc, &[], Doing::PostsBehind { writes })?;
    Ok([behind_of(inline)?, behind_of(threads)?])
}

/// While the rest of a passed day's body is read, and while it is answered, the next day is imported and answered.
#[test]
fn a_passed_day_holds_no_import(rt: HostRuntime) -> Result<(), NoMemory> {
    let alloc = rt.alloc();
    let wanted = answer_of(alloc, "409 Conflict", "{\"error\":\"passed\",\"last\":99}")?;
    for writes in [false, true] {
        for came in share_both(rt, alloc, writes)? {
            assert!(rt; came.held && came.stored, "writes: {writes}");
            assert_eq!(rt; came.passed.as_slice(), wanted.as_bytes());
        }
    }
    Ok(())
}
