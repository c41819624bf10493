// The sinks in memory.
ghost use Rattle.std.specs.Prelude.{◌≡◌, ◌≤◌, [], Some, None, IfOk};
ghost use Rattle.road_io.specs.Portions.{UpTo, Whole};
ghost use Rattle.road_io.specs.Rooms.{Bound, Endless};
ghost use Rattle.road_io.specs.Fakes.{bytes_of, room_of, most_written, sink_faults};

use super::MemSink;
use crate::sink::{Sink, VoidSink};
use crate::source::Failed;
use road_time::NoMemory;
use std::alloc::Global;

impl MemSink {
    /// Takes at most `piece` bytes per write, and fails exactly where `room` bytes were taken.
    pub fn new(alloc: Global, room: usize, piece: usize) -> Result<MemSink, NoMemory>
        requires { 1 ≤ piece }
        ensures empty { IfOk result (λ s. bytes_of s ≡ []) }
        ensures room { IfOk result (λ s. room_of s ≡ room) }
        ensures most { IfOk result (λ s. most_written s ≡ piece) }
        ensures faultless { IfOk result (λ s. sink_faults s ≡ 0) }
    {
        let bytes = Vec::with_capacity(alloc, room)?;
        Ok(MemSink {
            bytes,
            room,
            piece,
            faults: 0,
        })
    }

    /// What was written.
    pub fn bytes(&self) -> &[u8]
        ensures { result.now ≡ bytes_of self.now }
    {
        self.bytes.as_slice()
    }
}

impl Sink for MemSink {
    ghost written = { λ s. Some (bytes_of s) };

    ghost room = { λ s. Bound (room_of s) };

    ghost faults = { λ s. s.faults };

    ghost most = { λ s. UpTo (most_written s) };

    fn write(&mut self, piece: &[u8]) -> Result<usize, Failed> {
        let count = piece.len().min(self.piece).min(self.room);
        if count == 0 || self.bytes.extend_from_slice(&piece[..count]).is_err() {
            self.faults = self.faults.saturating_add(1);
            return Err(Failed);
        }
        self.room -= count;
        Ok(count)
    }
}

impl Sink for VoidSink {
    ghost written = { λ s. None };

    ghost room = { λ s. Endless };

    ghost faults = { λ s. 0 };

    ghost most = { λ s. Whole };

    fn write(&mut self, piece: &[u8]) -> Result<usize, Failed> {
        Ok(piece.len())
    }
}
