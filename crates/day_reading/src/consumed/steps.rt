// The bytes of the lines that were cut: taken, and left.
ghost use Rattle.std.specs.Prelude.{◌≡◌, ◌+◌, ◌<◌, ◌^◌, ◌++◌, [], ℕ, List, is_some, length, true};
ghost use Rattle.road_digest.specs.Beside.{TookBeside};
ghost use Rattle.day_reading.specs.Days.{IsDigestOf};
ghost use Rattle.day_reading.specs.Readings.{HasTaken};

use super::{Consumed, FIRST_CHUNK, GREATEST_CHUNK};
use road_digest::{BesideDigester, Digest};
use std::alloc::Global;
use std::thread::Threads;

impl Consumed {
    /// No byte was taken yet. The digest is taken where it is asked.
    pub fn new(alloc: Global, digested: bool) -> Self
        ensures none { HasTaken result [] }
        ensures empty { result.bytes ≡ 0 }
        ensures digested { result.digested ≡ digested }
    {
        Consumed {
            digester: BesideDigester::new(alloc, FIRST_CHUNK, GREATEST_CHUNK),
            digested,
            bytes: 0,
        }
    }

    /// Takes a further piece for the digest, if it is asked.
    #[inline(always)]
    fn digest_piece<R: Threads>(&mut self, rt: &R, piece: &[u8])
        ensures took { (bytes : List ℕ) → self.old.digested ≡ true → TookBeside self.old.digester bytes
            → TookBeside self.new.digester (bytes ++ piece.now) }
        ensures count { self.new.bytes ≡ self.old.bytes }
        ensures digested { self.new.digested ≡ self.old.digested }
    {
        if !self.digested {
            return;
        }
        self.digester.add(rt, piece);
    }

    /// Takes a further piece.
    #[inline(always)]
    pub fn add<R: Threads>(&mut self, rt: &R, piece: &[u8])
        requires { self.old.bytes + length piece.now < 2 ^ 64 }
        ensures taken { (bytes : List ℕ) → HasTaken self.old bytes → HasTaken self.new (bytes ++ piece.now) }
        ensures count { self.new.bytes ≡ self.old.bytes + length piece.now }
        ensures digested { self.new.digested ≡ self.old.digested }
    {
        self.digest_piece(rt, piece);
        self.bytes += piece.len() as u64;
    }

    /// The digest of the bytes, if it was asked.
    pub fn digest<R: Threads>(self, rt: &R) -> Option<Digest>
        ensures exact { (bytes : List ℕ) → HasTaken self bytes → IsDigestOf result bytes }
        ensures digested { is_some result ≡ self.digested }
    {
        let Consumed {
            digester,
            digested,
            bytes: _,
        } = self;
        if digested {
            return Some(digester.finish(rt));
        }
        digester.close(rt);
        None
    }

    /// Leaves the bytes, once no thread has a part of them.
    pub fn close<R: Threads>(self, rt: &R) {
        let Consumed {
            digester,
            digested: _,
            bytes: _,
        } = self;
        digester.close(rt);
    }
}
