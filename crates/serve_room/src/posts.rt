// What connections ask for, and who leaves the room first.
ghost use Rattle.std.specs.Prelude.{◌≡◌, ◌<◌, ◌≤◌, ◌+◌, None, true, false, IfSome, length};
ghost use Rattle.std.specs.Time.{instant_nanos};
ghost use Rattle.serve_room.specs.Posts.{ends_line, begins_post, begins_read, line_of, kind_of, of_kind, is_meant};
ghost use Rattle.serve_room.specs.Posts.{IsFirst, IsFirstBelow, HasNone, Precedes, one_of, meant_in};
ghost use Rattle.serve_room.specs.declared.seat.Seat.{Seat as TheSeat};

use crate::seat::Seat;
use std::time::Instant;

/// What a connection asks for, by how its request begins.
#[derive(Clone, Copy, Debug, PartialEq, Eq)]
pub(crate) enum Kind {
    /// A day is posted, to be imported or for its notices.
    Post,
    /// What is kept is asked for, which waits for the keeper.
    Read,
    /// All else, which waits for nobody.
    Free,
}

/// Which connections are meant: of those that are to wait no more the kinds that are named, and whether those that wait
/// for their head are; and whether the one that was accepted last goes first.
#[derive(Clone, Copy, Debug, PartialEq, Eq)]
pub(crate) struct Who {
    pub(crate) posts: bool,
    pub(crate) reads: bool,
    pub(crate) free: bool,
    pub(crate) waiting: bool,
    pub(crate) last: bool,
}

/// Whether a byte ends a line.
fn ends_line(byte: u8) -> bool
    ensures { result ≡ ends_line byte }
{
    byte == b'\r' || byte == b'\n'
}

/// Whether some bytes begin as the POST of a day, to be imported or for its notices.
fn begins_post(sent: &[u8]) -> bool
    ensures { result ≡ begins_post sent.now }
{
    sent.starts_with(b"POST /days/") || sent.starts_with(b"POST /answers/")
}

/// Whether some bytes begin as a GET of what is kept, for which the keeper is asked.
fn begins_read(sent: &[u8]) -> bool
    ensures { result ≡ begins_read sent.now }
{
    sent.starts_with(b"GET /days")
        || sent.starts_with(b"GET /spent/")
        || sent.starts_with(b"GET /vehicles/")
        || sent.starts_with(b"GET /health")
}

/// What was sent, from the first byte on that ends no line.
fn line_of(held: &[u8]) -> &[u8]
    ensures { result.now ≡ line_of held.now }
{
    for at in 0..held.len() {
        if !ends_line(held[at]) {
            return &held[at..];
        }
    }
    &[]
}

/// What a connection asks for, by what it sent.
pub(crate) fn kind_of(held: &[u8]) -> Kind
    ensures { result ≡ kind_of held.now }
{
    let line = line_of(held);
    if begins_post(line) {
        return Kind::Post;
    }
    if begins_read(line) {
        return Kind::Read;
    }
    Kind::Free
}

/// Whether a connection of a kind that is to wait no more is among those that are meant.
fn of_kind(who: Who, kind: Kind) -> bool
    ensures { result ≡ of_kind who kind }
{
    match kind {
        Kind::Post => who.posts,
        Kind::Read => who.reads,
        Kind::Free => who.free,
    }
}

/// Whether a connection is among those that are meant.
fn is_meant(seat: &Seat, who: Who) -> bool
    ensures { result ≡ is_meant who seat.now }
{
    if seat.called {
        return of_kind(who, kind_of(seat.held.as_slice()));
    }
    who.waiting
}

/// Whether a moment is not after another.
fn is_not_after(one: Instant, other: Instant) -> bool
    ensures before { result ≡ true → instant_nanos one ≤ instant_nanos other }
    ensures behind { result ≡ false → instant_nanos other ≤ instant_nanos one }
{
    one.duration_since(other).is_zero()
}

/// Whether a moment does not come behind another, by the first or by the last.
fn precedes(last: bool, one: Instant, other: Instant) -> bool
    ensures before { result ≡ true → Precedes last one other }
    ensures behind { result ≡ false → Precedes last other one }
{
    if last {
        return is_not_after(other, one);
    }
    is_not_after(one, other)
}

/// The first of those that are meant below a place and in it, with the moment of its accept.
fn with_next(
    seats: &[Option<Seat>],
    at: usize,
    who: Who,
    first: Option<(usize, Instant)>,
) -> Option<(usize, Instant)>
    requires at { at < length seats.now }
    requires below { IsFirstBelow who seats.now at first }
    ensures { IsFirstBelow who seats.now (at + 1) result }
{
    let Some(seat) = &seats[at] else {
        return first;
    };
    if is_meant(seat, who) {
        let Some(before) = first else {
            return Some((at, seat.since));
        };
        if precedes(who.last, before.1, seat.since) {
            return first;
        }
        return Some((at, seat.since));
    }
    first
}

/// The seat of the connection that goes first of those that are meant.
pub(crate) fn first_of(seats: &[Option<Seat>], who: Who) -> Option<usize>
    ensures first { IfSome result (λ at. (seat : TheSeat) × IsFirst who seats.now at seat) }
    ensures none { result ≡ None → HasNone who seats.now }
{
    let mut first = None;
    for at in 0..seats.len() {
        first = with_next(seats, at, who, first);
    }
    let Some(found) = first else {
        return None;
    };
    Some(found.0)
}

/// One, if a connection that is meant sits in a place.
fn one_of(place: &Option<Seat>, who: Who) -> usize
    ensures count { result ≡ one_of who place.now }
    ensures few { result ≤ 1 }
{
    let Some(seat) = place else {
        return 0;
    };
    if is_meant(seat, who) {
        return 1;
    }
    0
}

/// How many that are meant sit in places.
pub(crate) fn meant_in(seats: &[Option<Seat>], who: Who) -> usize
    ensures { result ≡ meant_in who seats.now }
{
    let mut count = 0usize;
    for at in 0..seats.len() {
        count += one_of(&seats[at], who);
    }
    count
}
