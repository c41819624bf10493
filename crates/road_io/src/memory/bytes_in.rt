// The source in memory.
ghost use Rattle.std.specs.Prelude.{ℕ, ◌≡◌, ◌+◌, ◌≤◌, ◌==◌, Some, IfOk};
ghost use Rattle.std.specs.List.{list_any};
ghost use Rattle.road_io.specs.Plans.{planned};
ghost use Rattle.road_io.specs.Portions.{UpTo};
ghost use Rattle.road_io.specs.Fakes.{left_of, plan_of, most_read, source_faults};

use super::MemSource;
use crate::source::{Failed, Source};
use road_time::NoMemory;
use std::alloc::Global;

impl MemSource {
    /// Gives at most `piece` bytes per read, and fails at the calls whose numbers from 0 stand in `fails`.
    pub fn new(
        alloc: Global,
        bytes: &[u8],
        piece: usize,
        fails: &[u32],
    ) -> Result<MemSource, NoMemory>
        requires { 1 ≤ piece }
        ensures left { IfOk result (λ s. left_of s ≡ bytes.now) }
        ensures plan { IfOk result (λ s. (n : ℕ) → plan_of s n ≡ list_any (λ f. f == n) fails.now) }
        ensures most { IfOk result (λ s. most_read s ≡ piece) }
        ensures faultless { IfOk result (λ s. source_faults s ≡ 0) }
    {
        let bytes = Vec::from_slice(alloc, bytes)?;
        let fails = Vec::from_slice(alloc, fails)?;
        Ok(MemSource {
            bytes,
            at: 0,
            piece,
            fails,
            calls: 0,
            faults: 0,
        })
    }
}

/// Whether a call's number stands among those that fail, and the number of the call after it.
fn turn(fails: &[u32], call: u64) -> (bool, u64)
    ensures fails { result.0 ≡ planned fails.now call 0 }
    ensures next { (n : ℕ) → planned fails.now result.1 n ≡ planned fails.now call (n + 1) }
{
    let failing = fails.iter().any(|f| u64::from(*f) == call);
    (failing, call.saturating_add(1))
}

impl Source for MemSource {
    ghost left = { λ s. Some (left_of s) };

    ghost faults = { λ s. s.faults };

    ghost plan = { λ s. Some (plan_of s) };

    ghost most = { λ s. UpTo (most_read s) };

    ghost name = { λ s. 0 };

    fn read(&mut self, buf: &mut [u8]) -> Result<usize, Failed> {
        let (failing, next) = turn(&self.fails, self.calls);
        self.calls = next;
        if failing {
            self.faults = self.faults.saturating_add(1);
            return Err(Failed);
        }
        let count = (self.bytes.len() - self.at).min(self.piece).min(buf.len());
        buf[..count].copy_from_slice(&self.bytes[self.at..self.at + count]);
        self.at += count;
        Ok(count)
    }
}
