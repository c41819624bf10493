// What bytes come from and go to, with one count of faults.
ghost use Rattle.std.specs.Prelude.{ℕ, ◌≡◌, Bool, List, Option, ◌<◌, ◌≤◌, length, IfOk, OnOk, OnErr};
ghost use Rattle.std.specs.Io.{ReadsAtMost};
ghost use Rattle.std.specs.Io.KnownBytes.{ReadConsumes, WriteAppends};
ghost use Rattle.road_io.specs.Faults.{HasCause};
ghost use Rattle.road_io.specs.Plans.{AsPlanned, NeverFails};
ghost use Rattle.road_io.specs.Portions.{Portion, Moves};
ghost use Rattle.road_io.specs.Rooms.{Room, Takes, Refuses, PutsBytes};
ghost use Rattle.road_io.specs.Within.{ReadsWithin};

use crate::source::Failed;

/// Bytes both ways. `left` is what is still to be read and `written` what was written, where it tells that; `plan`
/// tells which of its reads to come fail, `room` how many bytes more it takes, and `most` how many a call moves.
pub trait Link {
    ghost left: { Self → Option (List ℕ) };

    ghost plan: { Self → Option (ℕ → Bool) };

    ghost written: { Self → Option (List ℕ) };

    ghost room: { Self → Room };

    ghost faults: { Self → ℕ };

    ghost most: { Self → Portion };

    /// Moves the first of the bytes that are left into `buf`, and answers their number.
    fn read(&mut self, buf: &mut [u8]) -> Result<usize, Failed>
        requires { 0 < length buf.old }
        ensures bound { ReadsAtMost result buf.new }
        ensures bytes { ReadConsumes (left self.old) (left self.new) result buf.new }
        ensures planned { AsPlanned (plan self.old) (plan self.new) result }
        ensures portion { IfOk result (λ n. Moves (most self.old) (length buf.old) n) }
        ensures most_kept { most self.new ≡ most self.old }
        ensures unwritten { written self.new ≡ written self.old }
        ensures room_kept { room self.new ≡ room self.old }
        ensures cause { HasCause (faults self.old) (faults self.new) result };

    /// Takes a prefix of at least one byte, and answers its length; it fails exactly where there is no room, if it
    /// tells that.
    fn write(&mut self, piece: &[u8]) -> Result<usize, Failed>
        requires { 0 < length piece.now }
        ensures prefix { IfOk result (λ n. (0 < n) × (n ≤ length piece.now)) }
        ensures bytes { WriteAppends (written self.old) (written self.new) result piece.now }
        ensures took { IfOk result (λ n. Takes (room self.old) (room self.new) n) }
        ensures full { OnErr result (Refuses (room self.old) (room self.new) 1) }
        ensures portion { IfOk result (λ n. Moves (most self.old) (length piece.now) n) }
        ensures most_kept { most self.new ≡ most self.old }
        ensures unread { left self.new ≡ left self.old }
        ensures plan_kept { plan self.new ≡ plan self.old }
        ensures cause { HasCause (faults self.old) (faults self.new) result };

    /// Ends what is written: shuts the write side, and reads and drops what still comes, up to 1 MiB and 2 seconds.
    /// Nothing is to be written after it. A failure of it is not counted.
    fn finish(&mut self)
        ensures dropped { ReadsWithin 1048576 (left self.old) (left self.new) }
        ensures sure { NeverFails (plan self.old) → NeverFails (plan self.new) }
        ensures unwritten { written self.new ≡ written self.old }
        ensures room_kept { room self.new ≡ room self.old }
        ensures most_kept { most self.new ≡ most self.old }
        ensures uncounted { faults self.new ≡ faults self.old };
}

/// Writes all bytes. After a fault a prefix was written.
pub fn send_all<L: Link>(link: &mut L, bytes: &[u8]) -> Result<(), Failed>
    ensures bytes { PutsBytes (L.written link.old) (L.written link.new) result bytes.now }
    ensures took { OnOk result (Takes (L.room link.old) (L.room link.new) (length bytes.now)) }
    ensures full { OnErr result (Refuses (L.room link.old) (L.room link.new) (length bytes.now)) }
    ensures unread { L.left link.new ≡ L.left link.old }
    ensures plan_kept { L.plan link.new ≡ L.plan link.old }
    ensures cause { HasCause (L.faults link.old) (L.faults link.new) result }
{
    let mut at = 0;
    while at < bytes.len() {
        let count = link.write(&bytes[at..])?;
        at += count;
    }
    Ok(())
}
