// A link over any stream with two ends.
ghost use Rattle.std.specs.Prelude.{◌≡◌, ◌<◌, ◌≤◌, length, None, IfOk};
ghost use Rattle.std.specs.Io.{ReadsAtMost};
ghost use Rattle.std.specs.Io.KnownBytes.{ReadConsumes, WriteAppends};
ghost use Rattle.road_io.specs.Faults.{HasCause};
ghost use Rattle.road_io.specs.Portions.{AnyPart};
ghost use Rattle.road_io.specs.Rooms.{Untold};
ghost use Rattle.road_io.specs.Within.{ReadsWithin};

use crate::counting::{read_counting, write_counting};
use crate::ending::drop_rest;
use crate::ends::TwoEnds;
use crate::link::Link;
use crate::source::Failed;
use std::rt::HostRuntime;

/// A link over a stream; a write of no byte is a fault.
#[derive(Drop)]
pub struct Linking<E> {
    rt: HostRuntime,
    ends: E,
    faults: u64,
}

impl<E> Linking<E> {
    /// A link over these ends.
    pub fn over(rt: HostRuntime, ends: E) -> Linking<E> {
        Linking {
            rt,
            ends,
            faults: 0,
        }
    }
}

/// Reads once at the inward end.
fn read_end<E: TwoEnds>(ends: &mut E, buf: &mut [u8], faults: &mut u64) -> Result<usize, Failed>
    ensures bound { ReadsAtMost result buf.new }
    ensures bytes { ReadConsumes (E.In.remaining (E.inward ends.old)) (E.In.remaining (E.inward ends.new)) result
        buf.new }
    ensures unwritten { E.Out.contents (E.outward ends.new) ≡ E.Out.contents (E.outward ends.old) }
    ensures cause { HasCause faults.old faults.new result }
{
    read_counting(ends.inward(), buf, faults)
}

/// Writes once at the outward end.
fn write_end<E: TwoEnds>(ends: &mut E, piece: &[u8], faults: &mut u64) -> Result<usize, Failed>
    ensures prefix { IfOk result (λ n. (0 < n) × (n ≤ length piece.now)) }
    ensures bytes { WriteAppends (E.Out.contents (E.outward ends.old)) (E.Out.contents (E.outward ends.new)) result
        piece.now }
    ensures unread { E.In.remaining (E.inward ends.new) ≡ E.In.remaining (E.inward ends.old) }
    ensures cause { HasCause faults.old faults.new result }
{
    write_counting(ends.outward(), piece, faults)
}

/// Shuts the outward end, and reads and drops what still comes.
fn finish_ends<E: TwoEnds>(ends: &mut E, rt: &HostRuntime)
    ensures dropped { ReadsWithin 1048576 (E.In.remaining (E.inward ends.old)) (E.In.remaining (E.inward ends.new)) }
    ensures unwritten { E.Out.contents (E.outward ends.new) ≡ E.Out.contents (E.outward ends.old) }
{
    if ends.shut() {
        drop_rest(ends.inward(), rt);
    }
}

impl<E: TwoEnds> Link for Linking<E> {
    ghost left = { λ l. E.In.remaining (E.inward l.ends) };

    ghost plan = { λ l. None };

    ghost written = { λ l. E.Out.contents (E.outward l.ends) };

    ghost room = { λ l. Untold };

    ghost faults = { λ l. l.faults };

    ghost most = { λ l. AnyPart };

    fn read(&mut self, buf: &mut [u8]) -> Result<usize, Failed> {
        read_end(&mut self.ends, buf, &mut self.faults)
    }

    fn write(&mut self, piece: &[u8]) -> Result<usize, Failed> {
        write_end(&mut self.ends, piece, &mut self.faults)
    }

    fn finish(&mut self) {
        finish_ends(&mut self.ends, &self.rt);
    }
}
