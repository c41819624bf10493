// Where connections come back to a room that they left.
ghost use Rattle.std.specs.Prelude.{◌≡◌, ◌+◌, ◌-◌, ◌^◌, min};
ghost use Rattle.serve_room.specs.declared.posts.Kind.TheVariants.{Post, Read, Free};

use crate::posts::Kind;
use crate::turns::Pass;
use mio::Waker;
use std::net::{Shutdown, TcpStream};
use std::sync::atomic::{AtomicBool, Ordering};
use std::sync::{Mutex, Wait};

/// What came back to a room: connections that were answered, how many of them posted a day and how many asked for what is
/// kept, and the pass that one had.
#[derive(Drop)]
struct Returned {
    streams: Vec<TcpStream>,
    posts: usize,
    reads: usize,
    pass: Option<Pass>,
}

impl Returned {
    /// Counts a connection of a kind that came back.
    fn count(&mut self, kind: Kind)
        ensures post { kind ≡ Post → (self.new.posts ≡ min (self.old.posts + 1) (2 ^ 64 - 1))
            × (self.new.reads ≡ self.old.reads) }
        ensures read { kind ≡ Read → (self.new.reads ≡ min (self.old.reads + 1) (2 ^ 64 - 1))
            × (self.new.posts ≡ self.old.posts) }
        ensures free { kind ≡ Free → self.new ≡ self.old }
    {
        match kind {
            Kind::Post => self.posts = self.posts.saturating_add(1),
            Kind::Read => self.reads = self.reads.saturating_add(1),
            Kind::Free => {}
        }
    }

    /// Puts a connection of a kind, and a pass, to what came back. One for which no memory is left is let go at once.
    fn put(&mut self, stream: Option<TcpStream>, pass: Option<Pass>, kind: Kind) {
        self.count(kind);
        if let Some(stream) = stream {
            let _ = self.streams.push(stream);
        }
        if let Some(pass) = pass {
            self.pass = Some(pass);
        }
    }

    /// A connection that came back, if one did.
    fn next_stream(&mut self) -> Option<TcpStream> {
        self.streams.pop()
    }

    /// The pass, if it came back.
    fn next_pass(&mut self) -> Option<Pass> {
        self.pass.take()
    }

    /// How many that posted a day, and that asked for what is kept, came back since this was asked.
    fn take_counts(&mut self) -> (usize, usize)
        ensures all { result ≡ (self.old.posts, self.old.reads) }
        ensures none { (self.new.posts ≡ 0) × (self.new.reads ≡ 0) }
    {
        let counts = (self.posts, self.reads);
        self.posts = 0;
        self.reads = 0;
        counts
    }
}

/// What a room shares with the connections that left it, and with those who hear in it. It takes back what they have
/// while another waits in the room, and ends that wait.
#[derive(Drop)]
pub struct Threshold {
    closed: AtomicBool,
    returned: Mutex<Returned>,
    waker: Waker,
}

impl Threshold {
    /// Nothing came back as yet.
    pub(crate) fn new(streams: Vec<TcpStream>, waker: Waker) -> Threshold {
        Threshold {
            closed: AtomicBool::new(false),
            returned: Mutex::new(Returned {
                streams,
                posts: 0,
                reads: 0,
                pass: None,
            }),
            waker,
        }
    }

    /// Has nobody hear in the room any more.
    pub fn close(&self) {
        self.closed.store(true, Ordering::SeqCst);
        let _ = self.waker.wake();
    }

    /// Whether nobody is to hear in the room any more.
    pub(crate) fn is_closed(&self) -> bool {
        self.closed.load(Ordering::SeqCst)
    }

    /// Takes back a connection that was answered, which hears at once that no more comes, and its pass.
    pub(crate) fn give_back<R: Wait>(
        &self,
        rt: &R,
        stream: Option<TcpStream>,
        pass: Option<Pass>,
        kind: Kind,
    ) {
        let stream = shut(stream);
        if stream.is_none() && pass.is_none() && kind == Kind::Free {
            return;
        }
        self.returned.lock(rt).put(stream, pass, kind);
        let _ = self.waker.wake();
    }

    /// A connection that came back, if one did.
    pub(crate) fn next_stream<R: Wait>(&self, rt: &R) -> Option<TcpStream> {
        self.returned.lock(rt).next_stream()
    }

    /// The pass, if it came back.
    pub(crate) fn next_pass<R: Wait>(&self, rt: &R) -> Option<Pass> {
        self.returned.lock(rt).next_pass()
    }

    /// How many that posted a day, and that asked for what is kept, came back since this was asked.
    pub(crate) fn take_counts<R: Wait>(&self, rt: &R) -> (usize, usize) {
        self.returned.lock(rt).take_counts()
    }
}

/// Ends what is written to a connection, and gives it where what still comes may be read without waiting.
fn shut(stream: Option<TcpStream>) -> Option<TcpStream> {
    let stream = stream?;
    if stream.shutdown(Shutdown::Write).is_ok() && stream.set_nonblocking(true).is_ok() {
        Some(stream)
    } else {
        None
    }
}
