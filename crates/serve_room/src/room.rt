// Where connections wait for their head.
ghost use Rattle.std.specs.Prelude.{◌≡◌, ◌≢◌, ◌<◌, ◌≤◌, ◌+◌, true, false, None, Some, IfOk, IfSome, IsSome, slice_get};
ghost use Rattle.serve_room.specs.Addresses.{address_of};
ghost use Rattle.serve_room.specs.Outsides.{most_out, posts_out, reads_out, one_post, one_read};
ghost use Rattle.serve_room.specs.OwnPorts.{IsOwnPort};
ghost use Rattle.serve_room.specs.declared.seat.Seat.{Seat as TheSeat};
ghost use Rattle.serve_room.specs.declared.posts.Kind.TheVariants.{Post, Read, Free};
ghost use Rattle.serve_room.specs.Posts.{kind_of, OnlyOthersWait};

use crate::draining::Drain;
use crate::heard::Heard;
use crate::hearing::{
    DRAINS, SEATS, any_has_more, end_drains, hear_more, hear_ready, is_empty, judge_all,
};
use crate::outside::Outside;
use crate::posts::{first_of, kind_of};
use crate::room_link::{RoomLink, link_to};
use crate::seat::Seat;
use crate::seating::{Gate, drain, fill, give_seat, turned_away};
use crate::threshold::Threshold;
use crate::turns::Pass;
use mio::net::TcpListener;
use mio::{Events, Interest, Poll, Registry, Token, Waker};
use road_io::Failed;
use std::alloc::{AllocError, Global};
use std::io;
use std::net::{self, SocketAddr};
use std::rt::HostRuntime;
use std::sync::{Arc, Wait};
use std::time::{Duration, Instant};
use thiserror::Error;

/// How many connections are heard after one wait at most.
const EVENTS: usize = 256;

/// How many milliseconds pass at most until it is looked again whose time is over and what is to be accepted.
const TICK: u64 = 100;

/// How many connections come back at once at most for which room is kept.
const BACK: usize = 64;

/// Why a room was not opened.
#[derive(Clone, Copy, Debug, PartialEq, Eq, Error)]
pub enum RoomFault {
    /// The system refused it.
    #[error("the system refused it")]
    Failed,
    /// Memory ran out.
    #[error("no memory")]
    NoMemory,
}

/// Connections that wait for their head, those that are drained, those that are out and for which others wait, and the
/// listener that they come from.
#[derive(Drop)]
pub struct WaitingRoom {
    rt: HostRuntime,
    heard: Heard,
    poll: Poll,
    events: Events,
    seats: Vec<Option<Seat>>,
    drains: Vec<Option<Drain>>,
    outside: Outside,
    threshold: Arc<Threshold, Global>,
}

/// Places of nobody.
fn empty_places<T: Drop>(alloc: Global, count: usize) -> Result<Vec<Option<T>>, AllocError> {
    let mut places = Vec::with_capacity(alloc, count)?;
    for _ in 0..count {
        places.push(None)?;
    }
    Ok(places)
}

/// A listener on a port of 127.0.0.1, the poll that it is registered with, and what ends a wait of that.
fn listen(rt: &HostRuntime, port: u16) -> Result<(Heard, Poll, Waker), Failed>
    ensures { IfOk result (λ opened. IsOwnPort opened.0.at port) }
{
    let Ok(mut heard) = Heard::own(rt, port) else {
        return Err(Failed);
    };
    let Ok((poll, waker)) = watch(rt, &mut heard.listener) else {
        return Err(Failed);
    };
    Ok((heard, poll, waker))
}

/// A poll of a listener, and what ends its wait.
fn watch(rt: &HostRuntime, listener: &mut TcpListener) -> io::Result<(Poll, Waker)> {
    let poll = Poll::new(rt)?;
    poll.registry()
        .register(listener, Token(SEATS), Interest::READABLE)?;
    let waker = Waker::new(poll.registry(), Token(SEATS + 1))?;
    Ok((poll, waker))
}

/// How long to wait for what connections send: not at all where more is there, and without end where nobody waits and
/// nothing is to pass.
fn patience(seats: &[Option<Seat>], drains: &[Option<Drain>], gate: Gate) -> Option<Duration> {
    if gate == Gate::Given || any_has_more(drains) {
        return Some(Duration::ZERO);
    }
    if gate == Gate::Clear && is_empty(seats) && is_empty(drains) {
        return None;
    }
    Some(Duration::from_millis(TICK))
}

/// Takes the connection out of a seat, if one sits there.
fn take_at(seats: &mut [Option<Seat>], at: usize) -> Option<Seat>
    ensures sat { IfSome result (λ seat. slice_get seats.old at ≡ Some (Some seat)) }
    ensures none { (seat : TheSeat) → result ≡ None → slice_get seats.old at ≢ Some (Some seat) }
{
    seats.get_mut(at)?.take()
}

/// Has a connection leave its seat; one that posts a day takes the pass.
fn let_out(rt: HostRuntime, registry: &Registry, seat: Seat, outside: &mut Outside) -> RoomLink
    ensures front { result.front ≡ seat.held }
    ensures told { result.keep.kind ≡ kind_of seat.held.items }
    ensures pass { kind_of seat.held.items ≡ Post → result.keep.pass ≡ outside.old.pass }
    ensures posts { outside.old.posts < outside.old.most
        → outside.new.posts ≡ outside.old.posts + one_post (kind_of seat.held.items) }
    ensures reads { outside.old.reads < outside.old.most
        → outside.new.reads ≡ outside.old.reads + one_read (kind_of seat.held.items) }
{
    let Seat {
        stream,
        held,
        since: _,
        called: _,
    } = seat;
    let mut stream = stream;
    let _ = registry.deregister(&mut stream);
    let kind = kind_of(held.as_slice());
    let own = outside.let_out(kind);
    link_to(rt, net::TcpStream::from(stream), held, kind, own)
}

impl WaitingRoom {
    /// Listens on a port of 127.0.0.1, which only this machine reaches. Nobody waits. Of the connections that post a day so
    /// many are out at a time at most, of those that ask for what is kept as many, and of both together one more.
    pub fn open(
        rt: HostRuntime,
        alloc: Global,
        port: u16,
        most: usize,
    ) -> Result<WaitingRoom, RoomFault>
        ensures address { IfOk result (λ room. IsOwnPort (address_of room) port) }
        ensures most { IfOk result (λ room. most_out room ≡ most) }
        ensures none { IfOk result (λ room. (posts_out room ≡ 0) × (reads_out room ≡ 0)) }
    {
        let Ok(seats) = empty_places(alloc, SEATS) else {
            return Err(RoomFault::NoMemory);
        };
        let Ok(drains) = empty_places(alloc, DRAINS) else {
            return Err(RoomFault::NoMemory);
        };
        let Ok(events) = Events::with_capacity(alloc, EVENTS) else {
            return Err(RoomFault::NoMemory);
        };
        let Ok(back) = Vec::with_capacity(alloc, BACK) else {
            return Err(RoomFault::NoMemory);
        };
        let Ok(pass) = Pass::of_new_room(alloc) else {
            return Err(RoomFault::NoMemory);
        };
        let Ok((heard, poll, waker)) = listen(&rt, port) else {
            return Err(RoomFault::Failed);
        };
        let Ok(threshold) = Arc::new(alloc, Threshold::new(back, waker)) else {
            return Err(RoomFault::NoMemory);
        };
        Ok(WaitingRoom {
            rt,
            heard,
            poll,
            events,
            seats,
            drains,
            outside: Outside::new(most, pass),
            threshold,
        })
    }

    /// The address at which it was opened.
    pub fn address(&self) -> SocketAddr
        ensures { result ≡ address_of self.now }
    {
        self.heard.at
    }

    /// Where connections come back that left the room.
    pub fn threshold(&self) -> Result<Arc<Threshold, Global>, AllocError> {
        Arc::try_clone(&self.threshold)
    }

    /// The moment.
    fn now(&self) -> Result<Instant, Failed> {
        match Instant::now(&self.rt) {
            Ok(now) => Ok(now),
            Err(_) => Err(Failed),
        }
    }

    /// Takes what came back: connections, which are drained, the pass, and those for which others wait.
    fn take_back<R: Wait>(&mut self, rt: &R, now: Instant) {
        for _ in 0..DRAINS {
            let Some(stream) = self.threshold.next_stream(rt) else {
                break;
            };
            drain(
                self.poll.registry(),
                self.drains.as_mut_slice(),
                stream,
                now,
            );
        }
        if let Some(pass) = self.threshold.next_pass(rt) {
            self.outside.take_pass(pass);
        }
        let (posts, reads) = self.threshold.take_counts(rt);
        self.outside.take_back(posts, reads);
    }

    /// Takes the connection that was accepted first of those that may leave. One that posts a day may leave while the
    /// pass is there, which it takes with it. Such a one, and one that asks for what is kept, may leave while fewer are out
    /// than may be.
    fn take(&mut self) -> Option<RoomLink>
        ensures told { IfSome result (λ line. line.keep.kind ≡ kind_of line.front.items) }
        ensures pass { IfSome result (λ line. kind_of line.front.items ≡ Post → IsSome line.keep.pass) }
        ensures post { IfSome result (λ line. kind_of line.front.items ≡ Post
            → (posts_out self.old < most_out self.old) × (posts_out self.old + reads_out self.old ≤ most_out self.old)) }
        ensures read { IfSome result (λ line. kind_of line.front.items ≡ Read
            → (reads_out self.old < most_out self.old) × (posts_out self.old + reads_out self.old ≤ most_out self.old)) }
        ensures posts { IfSome result (λ line. posts_out self.old < most_out self.old
            → posts_out self.new ≡ posts_out self.old + one_post (kind_of line.front.items)) }
        ensures reads { IfSome result (λ line. reads_out self.old < most_out self.old
            → reads_out self.new ≡ reads_out self.old + one_read (kind_of line.front.items)) }
        ensures left { result ≡ None → OnlyOthersWait self.old.seats.items }
    {
        let at = first_of(self.seats.as_slice(), self.outside.who_leaves())?;
        let seat = take_at(self.seats.as_mut_slice(), at)?;
        Some(let_out(self.rt, self.poll.registry(), seat, &mut self.outside))
    }

    /// Where all seats are taken, has one be given up for who comes next. Whoever waited for others there is told so.
    fn give_way(&mut self, gate: Gate, now: Instant) -> Gate {
        if gate != Gate::Full {
            return gate;
        }
        let Some(seat) = give_seat(self.seats.as_mut_slice()) else {
            return gate;
        };
        if let Some(stream) = turned_away(self.poll.registry(), seat) {
            drain(
                self.poll.registry(),
                self.drains.as_mut_slice(),
                stream,
                now,
            );
        }
        Gate::Given
    }

    /// Waits for what connections send, and hears it.
    fn wait(&mut self, gate: Gate) -> Result<(), Failed> {
        let patience = patience(self.seats.as_slice(), self.drains.as_slice(), gate);
        if self.poll.poll(&mut self.events, patience).is_err() {
            return Err(Failed);
        }
        let now = self.now()?;
        hear_ready(
            &self.events,
            self.seats.as_mut_slice(),
            self.drains.as_mut_slice(),
        );
        hear_more(self.drains.as_mut_slice());
        judge_all(self.seats.as_mut_slice(), now);
        end_drains(self.drains.as_mut_slice(), now);
        Ok(())
    }

    /// Drops what still comes of the connections that were answered, until they end or their time is over. Nobody else
    /// is served any more.
    pub fn drain_all<R: Wait>(&mut self, rt: &R) {
        for _ in 0..u64::MAX {
            let Ok(now) = self.now() else {
                return;
            };
            self.take_back(rt, now);
            end_drains(self.drains.as_mut_slice(), now);
            if is_empty(self.drains.as_slice()) || self.wait(Gate::Faulty).is_err() {
                return;
            }
        }
    }

    /// Waits for the next connection that is to wait no more, and gives it: its head is whole, or can become none. One for
    /// which others wait is given while fewer are out than may be, and one that posts a day while no other has the pass.
    /// Whoever ends before its head does, or is late, leaves its seat and is not given. It fails where the listener cannot
    /// hear any more, and where the room is closed.
    pub fn next<R: Wait>(&mut self, rt: &R, alloc: Global) -> Result<RoomLink, Failed> {
        for _ in 0..u64::MAX {
            if self.threshold.is_closed() {
                return Err(Failed);
            }
            let now = self.now()?;
            self.take_back(rt, now);
            let gate = fill(
                alloc,
                self.poll.registry(),
                &self.heard.listener,
                self.seats.as_mut_slice(),
                now,
            )?;
            if let Some(line) = self.take() {
                return Ok(line);
            }
            let gate = self.give_way(gate, now);
            self.wait(gate)?;
        }
        Err(Failed)
    }
}
