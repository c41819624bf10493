// What bytes go to, with a count of faults.
ghost use Rattle.std.specs.Prelude.{ℕ, ◌≡◌, List, Option, ◌<◌, ◌≤◌, length, IfOk, OnOk, OnErr};
ghost use Rattle.std.specs.Io.KnownBytes.{WriteAppends};
ghost use Rattle.road_io.specs.Faults.{HasCause};
ghost use Rattle.road_io.specs.Levels.{FillsUp};
ghost use Rattle.road_io.specs.Portions.{Portion, AnyPart, Moves};
ghost use Rattle.road_io.specs.Rooms.{Room, Untold, Takes, Refuses, PutsBytes};

use crate::counting::write_counting;
use crate::source::Failed;
use std::io::Write;

/// Bytes out. `written` is what was written and `room` how many bytes more it takes, where it tells that; `most` is how
/// many bytes a write moves, as long as there is room.
pub trait Sink {
    ghost written: { Self → Option (List ℕ) };

    ghost room: { Self → Room };

    ghost faults: { Self → ℕ };

    ghost most: { Self → Portion };

    /// Takes a prefix of at least one byte, and answers its length; it fails exactly where there is no room, if it
    /// tells that.
    fn write(&mut self, piece: &[u8]) -> Result<usize, Failed>
        requires { 0 < length piece.now }
        ensures prefix { IfOk result (λ n. (0 < n) × (n ≤ length piece.now)) }
        ensures bytes { WriteAppends (written self.old) (written self.new) result piece.now }
        ensures took { IfOk result (λ n. Takes (room self.old) (room self.new) n) }
        ensures full { OnErr result (Refuses (room self.old) (room self.new) 1) }
        ensures portion { IfOk result (λ n. Moves (most self.old) (length piece.now) n) }
        ensures most_kept { most self.new ≡ most self.old }
        ensures cause { HasCause (faults self.old) (faults self.new) result };
}

/// Writes all bytes. After a fault the room is full, and as many of the first ones were written as it had place for.
pub fn put_all<O: Sink>(sink: &mut O, bytes: &[u8]) -> Result<(), Failed>
    ensures bytes { PutsBytes (O.written sink.old) (O.written sink.new) result bytes.now }
    ensures took { OnOk result (Takes (O.room sink.old) (O.room sink.new) (length bytes.now)) }
    ensures full { OnErr result (Refuses (O.room sink.old) (O.room sink.new) (length bytes.now)) }
    ensures fills { OnErr result (FillsUp bytes.now (O.written sink.old, O.room sink.old)
        (O.written sink.new, O.room sink.new)) }
    ensures cause { HasCause (O.faults sink.old) (O.faults sink.new) result }
{
    let mut at = 0;
    while at < bytes.len() {
        let count = sink.write(&bytes[at..])?;
        at += count;
    }
    Ok(())
}

/// A sink that takes all bytes and keeps none.
#[derive(Clone, Copy, Debug, PartialEq, Eq)]
pub struct VoidSink;

/// A sink over any writer; a write of no byte is a fault.
#[derive(Drop)]
pub struct Writing<W> {
    inner: W,
    faults: u64,
}

impl<W: Write> Writing<W> {
    pub fn new(inner: W) -> Writing<W> {
        Writing { inner, faults: 0 }
    }
}

impl<W: Write> Sink for Writing<W> {
    ghost written = { λ s. W.contents s.inner };

    ghost room = { λ s. Untold };

    ghost faults = { λ s. s.faults };

    ghost most = { λ s. AnyPart };

    fn write(&mut self, piece: &[u8]) -> Result<usize, Failed> {
        write_counting(&mut self.inner, piece, &mut self.faults)
    }
}
