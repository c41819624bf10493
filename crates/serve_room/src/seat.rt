// A connection that waits for its head.
ghost use Rattle.std.specs.Prelude.{◌≡◌, ◌≤◌, ◌+◌, true, Some, length, vec_len};
ghost use Rattle.std.specs.Time.{instant_nanos};
ghost use Rattle.serve_room.specs.Judged.{is_late};

use crate::front::{FRONT, is_told};
use mio::net::TcpStream;
use std::alloc::Global;
use std::io::{ErrorKind, Read};
use std::time::{Duration, Instant};

/// How many seconds a connection has for its head.
const HEAD_SECONDS: u64 = 10;

/// A connection that waits: what it sent so far, when it was accepted, and whether it is to wait no more for its head.
#[derive(Drop)]
pub(crate) struct Seat {
    pub(crate) stream: TcpStream,
    pub(crate) held: Vec<u8>,
    pub(crate) since: Instant,
    pub(crate) called: bool,
}

/// What a read comes to.
enum Heard {
    /// Nothing more is there as yet.
    Open,
    /// More may be there.
    More,
    /// The connection is to wait no more.
    Called,
    /// Nothing can be answered: its bytes ended before a head did, or the connection or memory failed.
    Lost,
}

/// Reads once what is there, behind what is held.
fn hear_once(stream: &mut TcpStream, held: &mut Vec<u8>, piece: &mut [u8]) -> Heard
    ensures { vec_len held.new ≤ vec_len held.old + length piece.old }
{
    match stream.read(piece) {
        Ok(0) => Heard::Lost,
        Ok(count) => {
            if held.extend_from_slice(&piece[..count]).is_err() {
                return Heard::Lost;
            }
            if is_told(held.as_slice()) {
                Heard::Called
            } else {
                Heard::More
            }
        }
        Err(fault) => match fault.kind() {
            ErrorKind::WouldBlock => Heard::Open,
            ErrorKind::Interrupted => Heard::More,
            _ => Heard::Lost,
        },
    }
}

impl Seat {
    /// Has sent nothing.
    pub(crate) fn new(alloc: Global, stream: TcpStream, since: Instant) -> Seat {
        Seat {
            stream,
            held: Vec::new(alloc),
            since,
            called: false,
        }
    }

    /// Whether its time for a head is over at a moment.
    pub(crate) fn is_late(&self, now: Instant) -> bool
        ensures { result ≡ is_late now (Some self.now) }
    {
        !self.called && now.duration_since(self.since) >= Duration::from_secs(HEAD_SECONDS)
    }

    /// Reads what is there, until the connection is to wait no more, and says whether it keeps its seat. What is held is
    /// never more than a head may have.
    pub(crate) fn hear(&mut self) -> bool
        ensures few { vec_len self.old.held ≤ 8192 → vec_len self.new.held ≤ 8192 }
        ensures since { self.new.since ≡ self.old.since }
        ensures called { self.old.called ≡ true → (result ≡ true) × (self.new.called ≡ true) }
    {
        let mut buf = [0u8; FRONT];
        for _ in 0..FRONT {
            let room = FRONT.saturating_sub(self.held.len());
            if room == 0 {
                self.called = true;
            }
            if self.called {
                return true;
            }
            match hear_once(&mut self.stream, &mut self.held, &mut buf[..room]) {
                Heard::Open => return true,
                Heard::More => {}
                Heard::Called => self.called = true,
                Heard::Lost => return false,
            }
        }
        true
    }
}
