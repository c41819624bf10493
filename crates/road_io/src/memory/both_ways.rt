// The link in memory.
ghost use Rattle.std.specs.Prelude.{ℕ, ◌≡◌, ◌≤◌, ◌+◌, ◌==◌, [], Some, IfOk};
ghost use Rattle.std.specs.List.{list_any};
ghost use Rattle.road_io.specs.Portions.{UpTo};
ghost use Rattle.road_io.specs.Rooms.{Bound};
ghost use Rattle.road_io.specs.Links.{left_of, plan_of, bytes_of, room_of, most_read, most_written, link_faults};

use super::{MemLink, MemSink, MemSource};
use crate::link::Link;
use crate::sink::Sink;
use crate::source::{Failed, Source};
use road_time::NoMemory;
use std::alloc::Global;

impl MemLink {
    /// Gives `input` and takes `room` bytes, at most `piece` at a time; the reads whose numbers from 0 stand in
    /// `fails` fail.
    pub fn new(
        alloc: Global,
        input: &[u8],
        piece: usize,
        room: usize,
        fails: &[u32],
    ) -> Result<MemLink, NoMemory>
        requires { 1 ≤ piece }
        ensures left { IfOk result (λ l. left_of l ≡ input.now) }
        ensures plan { IfOk result (λ l. (n : ℕ) → plan_of l n ≡ list_any (λ f. f == n) fails.now) }
        ensures empty { IfOk result (λ l. bytes_of l ≡ []) }
        ensures room { IfOk result (λ l. room_of l ≡ room) }
        ensures reads { IfOk result (λ l. most_read l ≡ piece) }
        ensures writes { IfOk result (λ l. most_written l ≡ piece) }
        ensures faultless { IfOk result (λ l. link_faults l ≡ 0) }
    {
        let input = MemSource::new(alloc, input, piece, fails)?;
        let output = MemSink::new(alloc, room, piece)?;
        Ok(MemLink {
            input,
            output,
            faults: 0,
        })
    }

    /// What was written to it.
    pub fn bytes(&self) -> &[u8]
        ensures { result.now ≡ bytes_of self.now }
    {
        self.output.bytes()
    }
}

impl Link for MemLink {
    ghost left = { λ l. Some (left_of l) };

    ghost plan = { λ l. Some (plan_of l) };

    ghost written = { λ l. Some (bytes_of l) };

    ghost room = { λ l. Bound (room_of l) };

    ghost faults = { λ l. l.faults };

    ghost most = { λ l. UpTo (most_read l) };

    fn read(&mut self, buf: &mut [u8]) -> Result<usize, Failed> {
        match self.input.read(buf) {
            Ok(count) => Ok(count),
            Err(failed) => {
                self.faults = self.faults.saturating_add(1);
                Err(failed)
            }
        }
    }

    fn write(&mut self, piece: &[u8]) -> Result<usize, Failed> {
        match self.output.write(piece) {
            Ok(count) => Ok(count),
            Err(failed) => {
                self.faults = self.faults.saturating_add(1);
                Err(failed)
            }
        }
    }

    fn finish(&mut self) {}
}
