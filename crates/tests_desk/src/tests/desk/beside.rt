// What is kept, and a live account, asked of a desk that acceptors share while a day is posted.
use super::caller::{Caller, ask, call};
use super::held::HeldLink;
use super::sharing::{Came, Doing, Done, share_new};
use super::{answer_of, charged_on_leaving};
use keep_office::MemKeeper;
use road_io::MemLink;
use road_time::NoMemory;
use serve_desk::desk_moves;
use serve_loops::Host;
use std::alloc::Global;
use std::marker::Brand;
use std::sync::Wait;
use std::sync::atomic::AtomicBool;
use std::sync::atomic::Ordering::SeqCst;
use std::thread;
use std::thread::Threads;
use ways_crews::InlineCrew;

pub const EMPTY_DAY_BEFORE: &[u8] = b"POST /days/99 HTTP/1.1\r\nContent-Length: 0\r\n\r\n";

const KEPT_DAY: &[u8] = b"GET /days/99 HTTP/1.1\r\n\r\n";

const POSTED_DAY: &[u8] = b"GET /days/100 HTTP/1.1\r\n\r\n";

const AMOUNT: &[u8] = b"GET /spent/100/0/100 HTTP/1.1\r\n\r\n";

const ACCOUNT: &[u8] = b"GET /live/100 HTTP/1.1\r\n\r\n";

/// Whether the day before is answered as kept, the day that is posted as not kept, and none of its amounts.
fn answers_before<Q, H: Host<Q>>(alloc: Global, host: &H, seat: &mut Q) -> Result<bool, NoMemory> {
    let kept = ask(alloc, host, seat, KEPT_DAY)?;
    let posted = ask(alloc, host, seat, POSTED_DAY)?;
    let amount = ask(alloc, host, seat, AMOUNT)?;
    let no_day = answer_of(alloc, "404 Not Found", "{\"error\":\"no day\"}")?;
    let no_amount = answer_of(alloc, "200 OK", "{\"spent\":0}")?;
    Ok(
        kept.starts_with(b"HTTP/1.1 200 OK\r\n")
            && posted.as_slice() == no_day.as_bytes()
            && amount.as_slice() == no_amount.as_bytes(),
    )
}

/// Whether a POST was held until others were answered, whether they were answered of what was kept before it, and an
/// account at all, and how the POST, its amount and the account were answered then.
#[derive(Drop)]
pub struct Beside {
    held: bool,
    before: bool,
    shown: bool,
    posted: Vec<u8>,
    after: Vec<u8>,
    account: Vec<u8>,
}

/// Whether what was kept before a POST is answered, and an account at all.
fn asks_before<Q, H: Host<Q>>(
    alloc: Global,
    host: &H,
    seat: &mut Q,
) -> Result<(bool, bool), NoMemory> {
    let before = answers_before(alloc, host, seat)?;
    let account = ask(alloc, host, seat, ACCOUNT)?;
    Ok((before, account.starts_with(b"HTTP/1.1 200 OK\r\n")))
}

/// Posts a day over a link that holds its body until what is kept was answered in another thread.
pub fn post_beside<Q: Send, H: Host<Q> + Sync, R: Threads + Wait + Sync>(
    rt: &R,
    alloc: Global,
    host: &H,
    first: &mut Q,
    second: &mut Q,
) -> Result<Beside, NoMemory> {
    ask(alloc, host, second, EMPTY_DAY_BEFORE)?;
    let request = charged_on_leaving(alloc)?;
    let ended = AtomicBool::new(false);
    let mut link = HeldLink {
        inner: MemLink::new(alloc, request.as_slice(), 64, 1000, &[])?,
        before: 1,
        flag: &ended,
        saw: false,
    };
    let mut poster = Caller { host };
    let ((), before) = thread::join(
        rt,
        || call(alloc, &mut poster, &mut link, first),
        || {
            let before = asks_before(alloc, host, second);
            ended.store(true, SeqCst);
            before
        },
    );
    let (before, shown) = before?;
    let after = ask(alloc, host, second, AMOUNT)?;
    let account = ask(alloc, host, second, ACCOUNT)?;
    Ok(Beside {
        held: link.saw,
        before,
        shown,
        posted: Vec::from_slice(alloc, link.inner.bytes())?,
        after,
        account,
    })
}

/// What came of it at a desk, and whether the day is kept when that has ended.
fn beside_of(came: Came) -> Result<(Beside, bool), NoMemory> {
    let Came { done, kept } = came;
    match done {
        Done::Beside(beside) => Ok((beside, kept)),
        Done::Behind(_) => Err(NoMemory),
        Done::Asked(_) => Err(NoMemory),
    }
}

/// What comes of it at a new desk of each crew.
fn share_both<R: Threads + Wait + Drop + Copy + Send + Sync>(
    rt: R,
    alloc: Global,
) -> Result<[(Beside, bool); 2], NoMemory> {
    let [inline, threads] = share_new(rt, alloc, &[], Doing::PostsBeside)?;
    Ok([beside_of(inline)?, beside_of(threads)?])
}

/// What is kept is answered while a day is posted in another thread, as it was before; after it the day is kept.
#[test]
fn a_kept_day_waits_for_no_import(rt: HostRuntime) -> Result<(), NoMemory> {
    let alloc = rt.alloc();
    let wanted = answer_of(alloc, "200 OK", "{\"spent\":2}")?;
    for (came, kept) in share_both(rt, alloc)? {
        assert!(rt; came.held && came.before && kept);
        assert_eq!(rt; came.after.as_slice(), wanted.as_bytes());
    }
    Ok(())
}

/// A live account is answered while a day is posted in another thread, and shows the day after both.
#[test]
fn an_account_waits_for_no_import(rt: HostRuntime) -> Result<(), NoMemory> {
    let alloc = rt.alloc();
    let wanted = answer_of(alloc, "200 OK", "{\"as_of\":56,\"balance\":2,\"day\":100}")?;
    for (came, _) in share_both(rt, alloc)? {
        assert!(rt; came.held && came.shown);
        assert!(rt; came.posted.starts_with(b"HTTP/1.1 200 OK\r\n"));
        assert_eq!(rt; came.account.as_slice(), wanted.as_bytes());
    }
    desk_moves::<Brand, MemKeeper, InlineCrew, HostRuntime>();
    Ok(())
}
