// Answers of the live board.
ghost use Rattle.std.specs.Prelude.{◌≡◌, ◌≢◌, ◌≤◌, ℕ, Some, None};
ghost use Rattle.road_io.specs.Faults.{Rose};
ghost use Rattle.road_io.specs.Rooms.{Endless};
ghost use Rattle.serve_board.specs.Passes.{StartsWith};
ghost use Rattle.serve_requests.specs.declared.session_end.SessionEnd.TheVariants.{Answered, LinkFault};
ghost use Rattle.serve_desk.specs.Answers.{AnswersReply, wire_of};
ghost use Rattle.serve_desk.specs.Live.{asked_of, IsOfLive, AnswersLive, live_reply};

use crate::answers::send_made;
use http::StatusCode;
use road_io::Link;
use serve_board::{Live, Watch};
use serve_requests::{Asked, SessionEnd, live_body, send_no_memory, total_body};
use std::alloc::Global;

/// Sends a vehicle's account.
fn send_balance<L: Link>(alloc: Global, shown: Live, link: &mut L) -> SessionEnd
    ensures sent { (vid : ℕ) → AnswersReply (live_reply (Some vid) shown)
        (L.room link.old) (L.written link.old) (L.written link.new) result }
    ensures unavailable { result ≢ Answered 503 }
    ensures unread { L.left link.new ≡ L.left link.old }
    ensures sure { L.room link.old ≡ Endless → result ≢ LinkFault }
    ensures cause { result ≡ LinkFault → Rose (L.faults link.old) (L.faults link.new) }
    ensures later { L.faults link.old ≤ L.faults link.new }
{
    let body = live_body(alloc, shown.as_of, shown.amount, shown.day);
    send_made(alloc, link, StatusCode::OK, body)
}

/// Sends what all vehicles owe.
fn send_total<L: Link>(alloc: Global, shown: Live, link: &mut L) -> SessionEnd
    ensures sent { AnswersReply (live_reply None shown) (L.room link.old) (L.written link.old)
        (L.written link.new) result }
    ensures unavailable { result ≢ Answered 503 }
    ensures unread { L.left link.new ≡ L.left link.old }
    ensures sure { L.room link.old ≡ Endless → result ≢ LinkFault }
    ensures cause { result ≡ LinkFault → Rose (L.faults link.old) (L.faults link.new) }
    ensures later { L.faults link.old ≤ L.faults link.new }
{
    let body = total_body(alloc, shown.as_of, shown.day, shown.amount);
    send_made(alloc, link, StatusCode::OK, body)
}

/// Answers a vehicle's account, as the board shows it.
fn answer_balance<L: Link, W: Watch>(
    alloc: Global,
    reader: &mut W,
    vid: u32,
    link: &mut L,
) -> SessionEnd
    ensures answers { AnswersLive (Some vid) (W.pass reader.old) (W.pass reader.new)
        (wire_of (L.left link.old) (L.plan link.old) (L.written link.old) (L.room link.old))
        (wire_of (L.left link.new) (L.plan link.new) (L.written link.new) (L.room link.new)) result }
    ensures board { (W.pass reader.new).board ≡ (W.pass reader.old).board }
    ensures had { StartsWith (W.pass reader.new).seen (W.pass reader.old).seen }
    ensures unavailable { result ≢ Answered 503 }
    ensures unread { L.left link.new ≡ L.left link.old }
    ensures sure { L.room link.old ≡ Endless → result ≢ LinkFault }
    ensures cause { result ≡ LinkFault → Rose (L.faults link.old) (L.faults link.new) }
    ensures later { L.faults link.old ≤ L.faults link.new }
{
    match reader.balance(vid) {
        Some(shown) => send_balance(alloc, shown, link),
        None => send_no_memory(link),
    }
}

/// Answers what all vehicles owe, as the board shows it.
fn answer_total<L: Link, W: Watch>(alloc: Global, reader: &mut W, link: &mut L) -> SessionEnd
    ensures answers { AnswersLive None (W.pass reader.old) (W.pass reader.new)
        (wire_of (L.left link.old) (L.plan link.old) (L.written link.old) (L.room link.old))
        (wire_of (L.left link.new) (L.plan link.new) (L.written link.new) (L.room link.new)) result }
    ensures board { (W.pass reader.new).board ≡ (W.pass reader.old).board }
    ensures had { StartsWith (W.pass reader.new).seen (W.pass reader.old).seen }
    ensures unavailable { result ≢ Answered 503 }
    ensures unread { L.left link.new ≡ L.left link.old }
    ensures sure { L.room link.old ≡ Endless → result ≢ LinkFault }
    ensures cause { result ≡ LinkFault → Rose (L.faults link.old) (L.faults link.new) }
    ensures later { L.faults link.old ≤ L.faults link.new }
{
    match reader.total() {
        Some(shown) => send_total(alloc, shown, link),
        None => send_no_memory(link),
    }
}

/// Answers what is asked of the live board. It never waits.
pub fn live_answer<L: Link, W: Watch>(
    alloc: Global,
    reader: &mut W,
    asked: &Asked,
    link: &mut L,
) -> SessionEnd
    requires { IsOfLive asked.now }
    ensures answers { AnswersLive (asked_of asked.now) (W.pass reader.old) (W.pass reader.new)
        (wire_of (L.left link.old) (L.plan link.old) (L.written link.old) (L.room link.old))
        (wire_of (L.left link.new) (L.plan link.new) (L.written link.new) (L.room link.new)) result }
    ensures board { (W.pass reader.new).board ≡ (W.pass reader.old).board }
    ensures had { StartsWith (W.pass reader.new).seen (W.pass reader.old).seen }
    ensures unavailable { result ≢ Answered 503 }
    ensures unread { L.left link.new ≡ L.left link.old }
    ensures sure { L.room link.old ≡ Endless → result ≢ LinkFault }
    ensures cause { result ≡ LinkFault → Rose (L.faults link.old) (L.faults link.new) }
    ensures later { L.faults link.old ≤ L.faults link.new }
{
    match asked {
        Asked::Live(vid) => answer_balance(alloc, reader, *vid, link),
        Asked::LiveTotal => answer_total(alloc, reader, link),
        Asked::Day(_) => unreachable!(),
        Asked::Spent { .. } => unreachable!(),
        Asked::Import { .. } => unreachable!(),
        Asked::Vehicle { .. } => unreachable!(),
        Asked::Days => unreachable!(),
        Asked::Page => unreachable!(),
        Asked::Health => unreachable!(),
        Asked::Answers { .. } => unreachable!(),
    }
}
