// What still comes of a connection that was answered is dropped.
ghost use Rattle.std.specs.Prelude.{◌≡◌, ◌≤◌, ◌<◌, ◌-◌, true, false};
ghost use Rattle.std.specs.Time.{instant_nanos};
ghost use Rattle.serve_room.specs.Times.{drain_time};

use mio::net::TcpStream;
use std::io::{ErrorKind, Read};
use std::time::{Duration, Instant};

/// How many bytes are dropped at most.
const MOST_DROPPED: usize = 67_108_864;

/// For how many seconds bytes are dropped.
const DRAIN_SECONDS: u64 = 2;

/// How many bytes are dropped at once.
const PIECE: usize = 8192;

/// How many times a connection is read before others are heard.
const PIECES: usize = 32;

/// A connection that was answered: when it came back, how many bytes of it may still be dropped, and whether more of them
/// may be there at once.
#[derive(Drop)]
pub(crate) struct Drain {
    pub(crate) stream: TcpStream,
    since: Instant,
    room: usize,
    pub(crate) more: bool,
}

/// What a read comes to whose bytes are dropped.
#[derive(Clone, Copy, PartialEq, Eq)]
enum Dropped {
    /// Nothing more is there as yet.
    Open,
    /// More may be there.
    More,
    /// The connection is to be let go.
    Over,
}

/// Reads once what is there, and drops it.
fn drop_once<R: Read>(reader: &mut R, room: &mut usize) -> Dropped
    ensures { room.new ≤ room.old }
{
    let mut buf = [0u8; PIECE];
    let piece = PIECE.min(*room);
    match reader.read(&mut buf[..piece]) {
        Ok(0) => Dropped::Over,
        Ok(count) => {
            *room -= count;
            Dropped::More
        }
        Err(fault) => match fault.kind() {
            ErrorKind::WouldBlock => Dropped::Open,
            ErrorKind::Interrupted => Dropped::More,
            _ => Dropped::Over,
        },
    }
}

impl Drain {
    /// Nothing was dropped as yet.
    pub(crate) fn new(stream: TcpStream, since: Instant) -> Drain
        ensures room { result.room ≡ 67108864 }
        ensures since { result.since ≡ since }
    {
        Drain {
            stream,
            since,
            room: MOST_DROPPED,
            more: false,
        }
    }

    /// Reads and drops what is there, for a while, and says whether more may come.
    pub(crate) fn hear(&mut self) -> bool
        ensures room { self.new.room ≤ self.old.room }
        ensures since { self.new.since ≡ self.old.since }
    {
        self.more = false;
        for _ in 0..PIECES {
            match drop_once(&mut self.stream, &mut self.room) {
                Dropped::Open => return true,
                Dropped::More => {}
                Dropped::Over => return false,
            }
        }
        self.more = true;
        true
    }

    /// Whether its time is over.
    pub(crate) fn is_over(&self, now: Instant) -> bool
        ensures over { drain_time ≤ instant_nanos now - instant_nanos self.now.since → result ≡ true }
        ensures young { instant_nanos now - instant_nanos self.now.since < drain_time → result ≡ false }
    {
        now.duration_since(self.since) >= Duration::from_secs(DRAIN_SECONDS)
    }
}
