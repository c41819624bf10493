// Reading and routing a request.
ghost use Rattle.std.specs.Prelude.{◌≡◌, ◌≢◌, ◌≤◌, ℕ, List, Some, Err, length, take, drop, IfOk, OnErr};
ghost use Rattle.std.specs.Io.KnownBytes.{prepend_known};
ghost use Rattle.road_io.specs.Faults.{Rose};
ghost use Rattle.road_io.specs.Plans.{NeverFails};
ghost use Rattle.httparse.specs.Grammar.{RequestHead};
ghost use Rattle.httparse.specs.Spans.{IsRequestAt, IsRequestWithin};
ghost use Rattle.road_io.specs.Portions.{UpTo};
ghost use Rattle.road_io.specs.Within.{ReadsWithin};
ghost use Rattle.serve_requests.specs.Fronts.{ReadsSoon};
ghost use Rattle.serve_requests.specs.Asks.{IsWanted};
ghost use Rattle.serve_requests.specs.ReadRequests.{asked_for, IsAsked, ReadsHeadAsked, WantsBody};
ghost use Rattle.serve_requests.specs.Sends.{HasRoom, refusal_room};
ghost use Rattle.serve_requests.specs.declared.session_end.SessionEnd.TheVariants.{Answered, LinkFault};

use crate::asked::{Asked, early_of};
use crate::asking::wanted_of;
use crate::fronts::{Front, read_front};
use crate::refusing::refuse;
use crate::routing::Routes;
use crate::sending::send_no_memory;
use crate::session_end::SessionEnd;
use crate::wanted::{Refusal, Wanted};
use httparse::spans::{EMPTY_HEADER_SPAN, HeaderSpan, RequestSpans};
use road_io::Link;
use road_time::NoMemory;
use std::alloc::Global;

/// What is asked for, with the bytes of the body that came with the head.
fn asked_of(alloc: Global, wanted: Wanted, rest: &[u8]) -> Result<Asked, NoMemory>
    requires { IsWanted wanted }
    ensures asked { IfOk result (λ a. a ≡ asked_for wanted rest.now) }
    ensures ranges { IfOk result IsAsked }
    ensures memory { OnErr result (WantsBody wanted) }
{
    match wanted {
        Wanted::Day(day) => Ok(Asked::Day(day)),
        Wanted::Import(day, length) => {
            let count = length.min(rest.len() as u64) as usize;
            let early = early_of(alloc, &rest[..count])?;
            Ok(Asked::Import { day, length, early })
        }
        Wanted::Spent(day, xway, vid) => Ok(Asked::Spent { day, xway, vid }),
        Wanted::Live(vid) => Ok(Asked::Live(vid)),
        Wanted::LiveTotal => Ok(Asked::LiveTotal),
        Wanted::Vehicle(vid, from, to) => Ok(Asked::Vehicle { vid, from, to }),
        Wanted::Days => Ok(Asked::Days),
        Wanted::Page => Ok(Asked::Page),
        Wanted::Health => Ok(Asked::Health),
        Wanted::Answers(day, length) => {
            let came = length.min(rest.len() as u64) as usize;
            let early = early_of(alloc, &rest[..came])?;
            Ok(Asked::Answers { day, length, early })
        }
    }
}

/// Asks what a head asks for, or answers why it is refused.
fn ask<L: Link>(
    alloc: Global,
    routes: &Routes,
    link: &mut L,
    buf: &[u8],
    spans: &RequestSpans,
    headers: &[HeaderSpan],
) -> Result<Asked, SessionEnd>
    requires within { IsRequestWithin buf.now headers.now spans.now }
    requires short { length buf.now ≤ 8192 }
    ensures reads { (h : RequestHead) (bytes : List ℕ) → IsRequestAt buf.now headers.now spans.now h
        → length h.fields ≤ 64
        → prepend_known buf.now (L.left link.old) ≡ Some bytes
        → ReadsHeadAsked bytes (L.left link.new) (L.written link.old) (L.written link.new) result }
    ensures unread { L.left link.new ≡ L.left link.old }
    ensures plan_kept { L.plan link.new ≡ L.plan link.old }
    ensures room_kept { IfOk result (λ a. L.room link.new ≡ L.room link.old) }
    ensures ranges { IfOk result IsAsked }
    ensures available { result ≢ Err (Answered 503) }
    ensures cause { result ≡ Err LinkFault → Rose (L.faults link.old) (L.faults link.new) }
    ensures later { L.faults link.old ≤ L.faults link.new }
    ensures sure { HasRoom (L.room link.old) refusal_room → result ≢ Err LinkFault }
{
    match wanted_of(routes, buf, spans, headers) {
        Ok(wanted) => match asked_of(alloc, wanted, &buf[spans.len..]) {
            Ok(asked) => Ok(asked),
            Err(_) => Err(send_no_memory(link)),
        },
        Err(refusal) => Err(refuse(link, refusal)),
    }
}

/// Reads the head of a request and routes it, by routes that are kept. A request that is refused here is answered here.
pub fn read_asked<L: Link>(
    alloc: Global,
    routes: &Routes,
    link: &mut L,
) -> Result<Asked, SessionEnd>
    ensures reads { (bytes : List ℕ) → L.left link.old ≡ Some bytes
        → ReadsHeadAsked bytes (L.left link.new) (L.written link.old) (L.written link.new) result }
    ensures bounded { ReadsWithin 8192 (L.left link.old) (L.left link.new) }
    ensures soon { (bytes : List ℕ) (most : ℕ) → L.left link.old ≡ Some bytes → L.most link.old ≡ UpTo most
        → ReadsSoon most bytes (L.left link.new) }
    ensures ranges { IfOk result IsAsked }
    ensures room_kept { IfOk result (λ a. L.room link.new ≡ L.room link.old) }
    ensures available { result ≢ Err (Answered 503) }
    ensures cause { result ≡ Err LinkFault → Rose (L.faults link.old) (L.faults link.new) }
    ensures later { L.faults link.old ≤ L.faults link.new }
    ensures sure { NeverFails (L.plan link.old) → HasRoom (L.room link.old) refusal_room → result ≢ Err LinkFault }
    ensures still { NeverFails (L.plan link.old) → NeverFails (L.plan link.new) }
{
    let mut buffer = [0u8; 8192];
    let mut headers = [EMPTY_HEADER_SPAN; 64];
    match read_front(link, &mut buffer, &mut headers) {
        Front::Head(held, spans) => ask(alloc, routes, link, &buffer[..held], &spans, &headers),
        Front::Bad => Err(refuse(link, Refusal::BadHead)),
        Front::Cut => Err(SessionEnd::Cut),
        Front::LinkFault => Err(SessionEnd::LinkFault),
    }
}
