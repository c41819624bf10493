// What bytes come from, with a count of faults.
ghost use Rattle.std.specs.Prelude.{ℕ, ◌≡◌, Bool, List, Option, None, ◌<◌, length, IfOk};
ghost use Rattle.std.specs.Io.{ReadsAtMost};
ghost use Rattle.std.specs.Io.KnownBytes.{ReadConsumes};
ghost use Rattle.road_io.specs.Faults.{HasCause};
ghost use Rattle.road_io.specs.Plans.{AsPlanned};
ghost use Rattle.road_io.specs.Portions.{Portion, AnyPart, Moves};

use crate::counting::read_counting;
use std::io::Read;
use thiserror::Error;

/// A read or a write that failed.
#[derive(Clone, Copy, Debug, PartialEq, Eq, Error)]
#[error("a read or a write failed")]
pub struct Failed;

/// Bytes in. `left` is what is still to be read and `plan` which reads to come fail, where it tells that; `most` is how
/// many bytes a read moves, and `name` what the source stands over, which no read changes.
pub trait Source {
    ghost left: { Self → Option (List ℕ) };

    ghost faults: { Self → ℕ };

    ghost plan: { Self → Option (ℕ → Bool) };

    ghost most: { Self → Portion };

    ghost name: { Self → ℕ };

    /// Moves the first of the bytes that are left into `buf`, and answers their number.
    fn read(&mut self, buf: &mut [u8]) -> Result<usize, Failed>
        requires { 0 < length buf.old }
        ensures bound { ReadsAtMost result buf.new }
        ensures bytes { ReadConsumes (left self.old) (left self.new) result buf.new }
        ensures planned { AsPlanned (plan self.old) (plan self.new) result }
        ensures portion { IfOk result (λ n. Moves (most self.old) (length buf.old) n) }
        ensures most_kept { most self.new ≡ most self.old }
        ensures same { name self.new ≡ name self.old }
        ensures cause { HasCause (faults self.old) (faults self.new) result };
}

/// A source over any reader.
#[derive(Drop)]
pub struct Reading<R> {
    inner: R,
    faults: u64,
}

impl<R: Read> Reading<R> {
    pub fn new(inner: R) -> Reading<R> {
        Reading { inner, faults: 0 }
    }
}

impl<R: Read> Source for Reading<R> {
    ghost left = { λ s. R.remaining s.inner };

    ghost faults = { λ s. s.faults };

    ghost plan = { λ s. None };

    ghost most = { λ s. AnyPart };

    ghost name = { λ s. 0 };

    fn read(&mut self, buf: &mut [u8]) -> Result<usize, Failed> {
        read_counting(&mut self.inner, buf, &mut self.faults)
    }
}
