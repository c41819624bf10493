// Links in memory that hold one of their calls.
ghost use Rattle.std.specs.Prelude.{Some, false};
ghost use Rattle.road_io.specs.Portions.{UpTo};
ghost use Rattle.road_io.specs.Rooms.{Bound};
ghost use Rattle.road_io.specs.Links.{left_of, plan_of, bytes_of, room_of, most_read, link_faults};

use road_io::{Failed, Link, MemLink, TwoWay, VoidSink};
use std::sync::atomic::AtomicBool;
use std::sync::atomic::Ordering::SeqCst;

/// A link in memory. After so many reads it holds the next one until a flag is raised, or until it has looked
/// 300,000,000 times, and notes whether it saw the flag.
#[derive(Drop)]
pub struct HeldLink<'a> {
    pub inner: MemLink,
    pub before: u8,
    pub flag: &'a AtomicBool,
    pub saw: bool,
}

/// Whether a flag is seen in so many looks.
pub fn sees(flag: &AtomicBool) -> bool {
    for _ in 0..300_000_000u32 {
        if flag.load(SeqCst) {
            return true;
        }
    }
    false
}

/// Notes that it begins, and waits for a flag; whether it saw that.
fn waits(begun: &AtomicBool, flag: &AtomicBool) -> bool {
    begun.store(true, SeqCst);
    sees(flag)
}

impl<'a> Link for HeldLink<'a> {
    ghost left = { λ l. Some (left_of l.inner) };

    ghost plan = { λ l. Some (plan_of l.inner) };

    ghost written = { λ l. Some (bytes_of l.inner) };

    ghost room = { λ l. Bound (room_of l.inner) };

    ghost faults = { λ l. link_faults l.inner };

    ghost most = { λ l. UpTo (most_read l.inner) };

    fn read(&mut self, buf: &mut [u8]) -> Result<usize, Failed> {
        if self.before == 0 {
            if !self.saw {
                self.saw = sees(self.flag);
            }
        } else {
            self.before -= 1;
        }
        self.inner.read(buf)
    }

    fn write(&mut self, piece: &[u8]) -> Result<usize, Failed> {
        self.inner.write(piece)
    }

    fn finish(&mut self) {
        self.inner.finish();
    }
}

impl<'a> TwoWay for HeldLink<'a> {
    type Out = VoidSink;

    ghost lends = { false };

    fn outward(&mut self) -> Option<VoidSink> {
        None
    }

    fn put_back(&mut self, _out: VoidSink) {}
}

/// A link in memory that holds its second read, or its first write, until a flag is raised, or until it has looked
/// 300,000,000 times. It notes whether it saw the flag, and raises another one when it begins to look.
#[derive(Drop)]
pub struct SlowLink<'a> {
    pub inner: MemLink,
    pub writes: bool,
    pub reads: u8,
    pub begun: &'a AtomicBool,
    pub flag: &'a AtomicBool,
    pub saw: bool,
}

impl<'a> Link for SlowLink<'a> {
    ghost left = { λ l. Some (left_of l.inner) };

    ghost plan = { λ l. Some (plan_of l.inner) };

    ghost written = { λ l. Some (bytes_of l.inner) };

    ghost room = { λ l. Bound (room_of l.inner) };

    ghost faults = { λ l. link_faults l.inner };

    ghost most = { λ l. UpTo (most_read l.inner) };

    fn read(&mut self, buf: &mut [u8]) -> Result<usize, Failed> {
        if !self.writes && self.reads == 1 {
            self.saw = waits(self.begun, self.flag);
        }
        self.reads = self.reads.saturating_add(1);
        self.inner.read(buf)
    }

    fn write(&mut self, piece: &[u8]) -> Result<usize, Failed> {
        if self.writes && !self.saw {
            self.saw = waits(self.begun, self.flag);
        }
        self.inner.write(piece)
    }

    fn finish(&mut self) {
        self.inner.finish();
    }
}

impl<'a> TwoWay for SlowLink<'a> {
    type Out = VoidSink;

    ghost lends = { false };

    fn outward(&mut self) -> Option<VoidSink> {
        None
    }

    fn put_back(&mut self, _out: VoidSink) {}
}
