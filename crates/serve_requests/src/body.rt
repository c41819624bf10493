// The body of a request, as a source.
ghost use Rattle.std.specs.Prelude.{◌≡◌, ◌≤◌, ◌<◌, ◌-◌, ◌+◌, ℕ, Bool, true, List, Option, length, None, Some, IfOk};
ghost use Rattle.std.specs.Prelude.{OnErr};
ghost use Rattle.std.specs.Io.{ReadsAtMost};
ghost use Rattle.std.specs.Io.KnownBytes.{ReadConsumes};
ghost use Rattle.road_io.specs.Faults.{HasCause};
ghost use Rattle.road_io.specs.Portions.{AnyPart};
ghost use Rattle.road_io.specs.Rooms.{Room, Untold};
ghost use Rattle.serve_requests.specs.AskedBodies.{body_left, IsBehind, IsSure, HasCauses, IsCutOff, EndsBody};
ghost use Rattle.serve_requests.specs.AskedBodies.{LeavesBody};

use crate::body_end::BodyEnd;
use road_io::{Failed, Link, Source};
use std::marker::{Brand, PhantomData};

/// What holds of a link where a body begins: what it tells, and how long the body is.
pub trait Start {
    ghost total: { ℕ };

    ghost bytes: { Option (List ℕ) };

    ghost written: { Option (List ℕ) };

    ghost room: { Room };

    ghost plan: { Option (ℕ → Bool) };

    ghost faults: { ℕ };
}

impl Start for Brand {
    ghost total = { 0 };

    ghost bytes = { None };

    ghost written = { None };

    ghost room = { Untold };

    ghost plan = { None };

    ghost faults = { 0 };
}

/// The body of a request: the bytes that came with its head, and then those of the link, exactly as many as are
/// declared. The end of the link before that is a fault.
#[derive(Drop)]
pub struct Body<'a, 'b, L: Link, N: Start> {
    pub link: &'a mut L,
    pub early: &'b [u8],
    pub left: u64,
    pub faults: u64,
    pub cut: bool,
    pub of: PhantomData<N>,
    ghost few: { length early.now ≤ left },
    ghost inside: { left ≤ N.total },
    ghost behind: { IsBehind (N.total - left) N.bytes early.now (L.left link.now) },
    ghost unwritten: { L.written link.now ≡ N.written },
    ghost room_kept: { L.room link.now ≡ N.room },
    ghost sure: { IsSure N.plan → IsSure (L.plan link.now) },
    ghost later: { N.faults ≤ L.faults link.now },
    ghost causes: { HasCauses faults cut N.faults (L.faults link.now) N.plan },
    ghost cut_off: { IsCutOff cut left early.now (L.left link.now) },
}

impl<'a, 'b, L: Link, N: Start> Body<'a, 'b, L, N> {
    /// Reads some bytes of the body, none only where none is left.
    fn take_some(&mut self, buf: &mut [u8]) -> Result<usize, Failed>
        requires { 0 < length buf.old }
        ensures bound { ReadsAtMost result buf.new }
        ensures bytes { ReadConsumes
            (body_left self.old.left self.old.early.now (L.left self.old.link.now))
            (body_left self.new.left self.new.early.now (L.left self.new.link.now)) result buf.new }
        ensures count { IfOk result (λ n. (self.new.left + n ≡ self.old.left) × (0 < self.old.left → 0 < n)
            × (self.new.faults ≡ self.old.faults) × (self.new.cut ≡ self.old.cut)) }
        ensures failed { OnErr result ((0 < self.new.faults) × (self.old.cut ≡ true → self.new.cut ≡ true)) }
        ensures fewer { self.new.left ≤ self.old.left }
        ensures same { self.new.link.ghost_name ≡ self.old.link.ghost_name }
        ensures cause { HasCause self.old.faults self.new.faults result }
    {
        let room = self.left.min(buf.len() as u64) as usize;
        if room == 0 {
            return Ok(0);
        }
        if self.cut {
            self.faults = self.faults.saturating_add(1);
            return Err(Failed);
        }
        if self.early.is_empty() {
            match self.link.read(&mut buf[..room]) {
                Ok(0) => {
                    self.cut = true;
                    self.faults = self.faults.saturating_add(1);
                    Err(Failed)
                }
                Ok(count) => {
                    self.left -= count as u64;
                    Ok(count)
                }
                Err(failed) => {
                    self.faults = self.faults.saturating_add(1);
                    Err(failed)
                }
            }
        } else {
            let count = room.min(self.early.len());
            buf[..count].copy_from_slice(&self.early[..count]);
            self.early = &self.early[count..];
            self.left -= count as u64;
            Ok(count)
        }
    }
}

impl<'a, 'b, L: Link, N: Start> Source for Body<'a, 'b, L, N> {
    ghost left = { λ b. body_left b.left b.early.now (L.left b.link.now) };

    ghost faults = { λ b. b.faults };

    ghost plan = { λ b. None };

    ghost most = { λ b. AnyPart };

    ghost name = { λ b. b.link.ghost_name };

    fn read(&mut self, buf: &mut [u8]) -> Result<usize, Failed> {
        self.take_some(buf)
    }
}

/// Reads a body to its end.
pub fn drain<'a, 'b, L: Link, N: Start>(body: &mut Body<'a, 'b, L, N>) -> BodyEnd
    ensures end { EndsBody body.new.left body.new.faults body.new.cut result }
    ensures leaves { (all : List ℕ) → N.bytes ≡ Some all → LeavesBody N.total all (L.left body.new.link.now) result }
    ensures fewer { body.new.left ≤ body.old.left }
    ensures same { body.new.link.ghost_name ≡ body.old.link.ghost_name }
    ensures failed { 0 < body.old.faults → 0 < body.new.faults }
    ensures cut { body.old.cut ≡ true → body.new.cut ≡ true }
{
    let mut buffer = [0u8; 8192];
    while body.left > 0 && body.faults == 0 {
        if body.take_some(&mut buffer).is_err() {
            break;
        }
    }
    if body.cut {
        BodyEnd::Cut
    } else if body.faults > 0 {
        BodyEnd::LinkFault
    } else {
        BodyEnd::Whole
    }
}
