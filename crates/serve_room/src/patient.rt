// A stream that is read with patience.
ghost use Rattle.std.specs.Prelude.{◌≡◌, true, false, None, IsErr, IsOk, IsSome};
ghost use Rattle.std.specs.Io.{ReadsAtMost, WritesAtMost};
ghost use Rattle.std.specs.Io.KnownBytes.{ReadConsumes};
ghost use Rattle.serve_room.specs.Times.{left_of, whole_left_of};

use crate::patience::Patience;
use crate::turns::{OwnTurn, is_over};
use std::io::{self, ErrorKind, Read, Write};
use std::net::TcpStream;
use std::rt::HostRuntime;
use std::time::{Duration, Instant};

/// A stream that can be told how long a read may wait.
pub(crate) trait Timed {
    fn set_wait(&mut self, wait: Duration) -> io::Result<()>
        ensures { self.new ≡ self.old };
}

impl Timed for TcpStream {
    fn set_wait(&mut self, wait: Duration) -> io::Result<()> {
        self.set_read_timeout(Some(wait))
    }
}

/// A stream whose reads wait for it 30 seconds for each 64 KiB, and 30 seconds in all once its turn is over, or once they
/// waited 25 hours.
#[derive(Drop)]
pub struct Patient<S> {
    rt: HostRuntime,
    pub(crate) stream: S,
    patience: Patience,
    turn: Option<OwnTurn>,
}

impl<S> Patient<S> {
    /// Nothing was waited as yet.
    pub(crate) fn new(rt: HostRuntime, stream: S, turn: Option<OwnTurn>) -> Patient<S>
        ensures stream { result.stream ≡ stream }
        ensures turn { result.turn ≡ turn }
    {
        Patient {
            rt,
            stream,
            patience: Patience::whole(),
            turn,
        }
    }
}

/// How long it is since a moment; where that is not known, as long as was to be waited.
fn waited_since(rt: &HostRuntime, start: Instant, most: Duration) -> Duration {
    match start.elapsed(rt) {
        Ok(waited) => waited,
        Err(_) => most,
    }
}

/// How long a stream may still be waited for; once its turn is over, for all that is left. Where it may no more, it stays
/// so.
fn time_left(patience: &mut Patience, over: bool) -> Option<Duration>
    ensures none { left_of patience.old ≡ 0 → result ≡ None }
    ensures ends { over ≡ true → IsSome result → patience.new.last ≡ true }
    ensures goes { over ≡ false → patience.new ≡ patience.old }
{
    if patience.left().is_zero() {
        return None;
    }
    if over {
        patience.end();
    }
    Some(patience.left())
}

/// Whether what is left of a stream has its last portion: its turn is over, or it was waited for as long as may be.
fn has_last(turn: &Option<OwnTurn>, patience: &Patience) -> bool
    ensures { whole_left_of patience.now ≡ 0 → result ≡ true }
{
    patience.is_spent() || is_over(turn)
}

/// Reads once, where a stream may still be waited for.
fn read_patiently<S: Read + Timed>(
    rt: &HostRuntime,
    stream: &mut S,
    patience: &mut Patience,
    over: bool,
    buf: &mut [u8],
) -> io::Result<usize>
    ensures bound { ReadsAtMost result buf.new }
    ensures bytes { ReadConsumes (S.remaining stream.old) (S.remaining stream.new) result buf.new }
    ensures over { left_of patience.old ≡ 0 → IsErr result }
    ensures last { over ≡ true → IsOk result → patience.new.last ≡ true }
{
    let Some(left) = time_left(patience, over) else {
        return Err(io::Error::from(ErrorKind::TimedOut));
    };
    if stream.set_wait(left).is_err() {
        return Err(io::Error::from(ErrorKind::TimedOut));
    }
    let Ok(start) = Instant::now(rt) else {
        return Err(io::Error::from(ErrorKind::TimedOut));
    };
    match stream.read(buf) {
        Ok(count) => {
            patience.note(waited_since(rt, start, left), count);
            Ok(count)
        }
        Err(fault) => Err(fault),
    }
}

impl<S: Read + Timed> Read for Patient<S> {
    ghost remaining = { λ p. S.remaining p.stream };

    fn read(&mut self, buf: &mut [u8]) -> io::Result<usize>
        ensures bound { ReadsAtMost result buf.new }
        ensures bytes { ReadConsumes (S.remaining self.old.stream) (S.remaining self.new.stream) result buf.new }
        ensures over { left_of self.old.patience ≡ 0 → IsErr result }
        ensures last { whole_left_of self.old.patience ≡ 0 → IsOk result → self.new.patience.last ≡ true }
    {
        let last = has_last(&self.turn, &self.patience);
        read_patiently(&self.rt, &mut self.stream, &mut self.patience, last, buf)
    }
}

impl<S: Write> Write for Patient<S> {
    ghost contents = { λ p. S.contents p.stream };

    fn write(&mut self, buf: &[u8]) -> io::Result<usize> {
        self.stream.write(buf)
    }

    fn flush(&mut self) -> io::Result<()> {
        self.stream.flush()
    }
}
