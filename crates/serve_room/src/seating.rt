// Connections come to their seats.
ghost use Rattle.std.specs.Prelude.{◌≡◌, true, None, IfSome, is_some};
ghost use Rattle.std.specs.Io.KnownBytes.{Appends};
ghost use Rattle.std.specs.List.{list_all};
ghost use Rattle.serve_room.specs.Posts.{GivesSeat, HasNone};
ghost use Rattle.serve_room.specs.Giving.{who_gives, full_line};

use crate::draining::Drain;
use crate::hearing::{FIRST_DRAIN, SEATS};
use crate::passing::passes;
use crate::posts::{Kind, Who, first_of, kind_of, meant_in};
use crate::seat::Seat;
use mio::net::{TcpListener, TcpStream};
use mio::{Interest, Registry, Token};
use road_io::Failed;
use std::alloc::Global;
use std::io::{ErrorKind, Write};
use std::net::{self, Shutdown};
use std::time::Instant;

/// Whether connections are still to be accepted after a look at the listener.
#[derive(Clone, Copy, PartialEq, Eq)]
pub(crate) enum Gate {
    /// None is left for now.
    Clear,
    /// All seats are taken.
    Full,
    /// A seat was given up for who comes next.
    Given,
    /// A fault is given time to pass.
    Faulty,
}

/// Whether a connection is to be heard again: it waits for its head, or for others.
fn waits(seat: &Seat) -> bool {
    !seat.called || kind_of(seat.held.as_slice()) != Kind::Free
}

/// Whether a connection that waits is heard again when it sends more or fails.
fn is_heard(registry: &Registry, at: usize, seat: &mut Seat) -> bool {
    if !waits(seat) {
        return true;
    }
    registry
        .register(&mut seat.stream, Token(at), Interest::READABLE)
        .is_ok()
}

/// Seats a connection, which is heard at once, and again when it sends more or fails. Where nothing can be answered it has
/// no seat.
fn seat(
    alloc: Global,
    registry: &Registry,
    at: usize,
    stream: TcpStream,
    now: Instant,
) -> Option<Seat> {
    let mut seat = Seat::new(alloc, stream, now);
    if seat.hear() && is_heard(registry, at, &mut seat) {
        Some(seat)
    } else {
        None
    }
}

/// Accepts connections into the seats that are free.
pub(crate) fn fill(
    alloc: Global,
    registry: &Registry,
    listener: &TcpListener,
    seats: &mut [Option<Seat>],
    now: Instant,
) -> Result<Gate, Failed> {
    for (at, place) in seats.iter_mut().enumerate() {
        if place.is_some() {
            continue;
        }
        match listener.accept() {
            Ok((stream, _)) => *place = seat(alloc, registry, at, stream, now),
            Err(fault) => {
                if fault.kind() == ErrorKind::WouldBlock {
                    return Ok(Gate::Clear);
                }
                if passes(&fault) {
                    return Ok(Gate::Faulty);
                }
                return Err(Failed);
            }
        }
    }
    Ok(Gate::Full)
}

/// How many seats are a third.
const THIRD: usize = SEATS / 3;

/// Those that wait to post a day, from the last on.
const POSTING: Who = Who {
    posts: true,
    reads: false,
    free: false,
    waiting: false,
    last: true,
};

/// Those that wait for what is kept, from the last on.
const READING: Who = Who {
    posts: false,
    reads: true,
    free: false,
    waiting: false,
    last: true,
};

/// Those that wait for their head.
const WAITING: Who = Who {
    posts: false,
    reads: false,
    free: false,
    waiting: true,
    last: false,
};

/// Whether all seats are taken.
fn are_taken(seats: &[Option<Seat>]) -> bool
    ensures { result ≡ list_all is_some seats.now }
{
    seats.iter().all(|place| place.is_some())
}

/// Of whom one gives a seat where all are taken.
fn who_gives(seats: &[Option<Seat>]) -> Who
    ensures { result ≡ who_gives seats.now }
{
    if meant_in(seats, POSTING) >= THIRD {
        return POSTING;
    }
    if meant_in(seats, READING) >= THIRD {
        return READING;
    }
    WAITING
}

/// Has a connection give its seat, where all are taken, and hands on who did: the last of those that wait to post a day or
/// for what is kept, where these have a third of the seats, else the first of those that wait for their head.
pub(crate) fn give_seat(seats: &mut [Option<Seat>]) -> Option<Seat>
    ensures gives { IfSome result (λ seat. GivesSeat (who_gives seats.old) seats.old seats.new seat) }
    ensures keeps { result ≡ None → seats.new ≡ seats.old }
    ensures none { result ≡ None → list_all is_some seats.old ≡ true → HasNone (who_gives seats.old) seats.old }
{
    if !are_taken(seats) {
        return None;
    }
    let Some(at) = first_of(seats, who_gives(seats)) else {
        return None;
    };
    seats[at].take()
}

/// What a connection is answered that gives its seat: there is no room in the line, and it may come again.
const FULL_LINE: &[u8] =
    b"HTTP/1.1 503 Service Unavailable\r\nContent-Length: 16\r\nContent-Type: application/json\r\n\
        Connection: close\r\nRetry-After: 10\r\n\r\n{\"error\":\"line\"}";

/// Answers a connection that gives its seat at once, and says whether that was taken whole.
fn send_away<W: Write>(out: &mut W) -> bool
    ensures { result ≡ true → Appends (W.contents out.old) (W.contents out.new) full_line }
{
    match out.write(FULL_LINE) {
        Ok(count) => count == FULL_LINE.len(),
        Err(_) => false,
    }
}

/// Answers a connection that gave its seat, and hands it on to be drained. Whoever has sent no whole head is let go
/// unanswered.
pub(crate) fn turned_away(registry: &Registry, seat: Seat) -> Option<net::TcpStream> {
    let Seat {
        stream,
        held: _,
        since: _,
        called,
    } = seat;
    let mut stream = stream;
    if !called || !send_away(&mut stream) {
        return None;
    }
    let _ = registry.deregister(&mut stream);
    let stream = net::TcpStream::from(stream);
    let _ = stream.shutdown(Shutdown::Write);
    Some(stream)
}

/// A connection that is drained in a place; none where nothing is to come any more.
fn draining(registry: &Registry, at: usize, stream: net::TcpStream, now: Instant) -> Option<Drain> {
    let mut drain = Drain::new(TcpStream::from_std(stream), now);
    let token = Token(FIRST_DRAIN.saturating_add(at));
    if registry
        .register(&mut drain.stream, token, Interest::READABLE)
        .is_err()
    {
        return None;
    }
    if drain.hear() { Some(drain) } else { None }
}

/// Gives a connection that was answered a place where it is drained. Where none is free it is let go.
pub(crate) fn drain(
    registry: &Registry,
    drains: &mut [Option<Drain>],
    stream: net::TcpStream,
    now: Instant,
) {
    let free = drains.iter().position(|place| place.is_none());
    if let Some(at) = free {
        if let Some(place) = drains.get_mut(at) {
            *place = draining(registry, at, stream, now);
        }
    }
}
