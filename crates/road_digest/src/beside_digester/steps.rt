// The digest of bytes that come in pieces, with a thread beside: its steps.
ghost use Rattle.std.specs.Prelude.{◌≡◌, ◌≤◌, ◌+◌, ◌<◌, ◌++◌, [], ℕ, List, length, IsTrue, IsFalse};
ghost use Rattle.road_digest.specs.Digests.{Took, digest_of};
ghost use Rattle.road_digest.specs.Beside.{WillHold, TookBeside, BeginsNone};

use crate::beside_digester::BesideDigester;
use crate::digest::{Digest, Digester};
use crate::held::{Back, HeldDigest, begin, end};
use std::alloc::Global;
use std::mem;
use std::thread::Threads;

impl BesideDigester {
    /// No byte was taken yet. So many bytes, at most, are gathered for the first thread, and for none more than the
    /// greatest.
    pub fn new(alloc: Global, chunk: usize, greatest: usize) -> Self
        ensures took { TookBeside result [] }
        ensures greatest { result.greatest ≡ greatest }
    {
        BesideDigester {
            held: HeldDigest::Here(Back {
                digester: Digester::new(),
                chunk: Vec::new(alloc),
            }),
            waiting: Vec::new(alloc),
            chunk: chunk.min(greatest),
            greatest,
            alloc,
        }
    }

    /// The digester comes back. A fresh one stands in its place.
    fn recall<R: Threads>(&mut self, rt: &R) -> Back
        ensures took { (bytes : List ℕ) → WillHold self.old.held bytes → Took result.digester bytes }
        ensures waiting { self.new.waiting ≡ self.old.waiting }
        ensures greatest { self.new.greatest ≡ self.old.greatest }
    {
        let fresh = HeldDigest::Here(Back {
            digester: Digester::new(),
            chunk: Vec::new(self.alloc),
        });
        end(rt, mem::replace(&mut self.held, fresh))
    }

    /// Holds the digester here, or in a thread, in place of the one that stood there since it came back.
    fn hold<R: Threads>(&mut self, rt: &R, held: HeldDigest)
        ensures held { self.new.held ≡ held }
        ensures waiting { self.new.waiting ≡ self.old.waiting }
        ensures greatest { self.new.greatest ≡ self.old.greatest }
    {
        let fresh = mem::replace(&mut self.held, held);
        drop(end(rt, fresh));
    }

    /// Hands what waits to a thread, once the one before is done.
    fn hand_on<R: Threads>(&mut self, rt: &R)
        ensures took { (bytes : List ℕ) → TookBeside self.old bytes → TookBeside self.new bytes }
        ensures greatest { self.new.greatest ≡ self.old.greatest }
    {
        let back = self.recall(rt);
        let mut empty = back.chunk;
        empty.clear();
        let full = mem::replace(&mut self.waiting, empty);
        self.hold(rt, begin(rt, back.digester, full));
        self.chunk = self.chunk.saturating_mul(2).min(self.greatest);
    }

    /// Whether so many bytes more are at most a chunk.
    fn has_room(&self, count: usize) -> bool
        ensures room { IsTrue result → length self.now.waiting.items + count ≤ self.now.chunk }
        ensures full { IsFalse result → self.now.chunk < length self.now.waiting.items + count }
    {
        count <= self.chunk - self.waiting.len()
    }

    /// Hands on what waits where there is no room for so many bytes more.
    fn make_room<R: Threads>(&mut self, rt: &R, count: usize)
        ensures took { (bytes : List ℕ) → TookBeside self.old bytes → TookBeside self.new bytes }
        ensures greatest { self.new.greatest ≡ self.old.greatest }
        ensures begins { length self.old.waiting.items + count ≤ self.old.chunk
            → BeginsNone self.old.held self.new.held }
    {
        if !self.has_room(count) {
            self.hand_on(rt);
        }
    }

    /// Takes what waits and a further piece at once.
    fn add_here<R: Threads>(&mut self, rt: &R, piece: &[u8])
        ensures took { (bytes : List ℕ) → TookBeside self.old bytes → TookBeside self.new (bytes ++ piece.now) }
        ensures greatest { self.new.greatest ≡ self.old.greatest }
        ensures begins { BeginsNone self.old.held self.new.held }
    {
        let mut back = self.recall(rt);
        back.digester.add(&self.waiting);
        back.digester.add(piece);
        self.waiting.clear();
        self.hold(rt, HeldDigest::Here(back));
    }

    /// Takes a further piece. No thread is begun for one that there is room for.
    pub fn add<R: Threads>(&mut self, rt: &R, piece: &[u8])
        ensures took { (bytes : List ℕ) → TookBeside self.old bytes → TookBeside self.new (bytes ++ piece.now) }
        ensures greatest { self.new.greatest ≡ self.old.greatest }
        ensures begins { length self.old.waiting.items + length piece.now ≤ self.old.chunk
            → BeginsNone self.old.held self.new.held }
    {
        self.make_room(rt, piece.len());
        if !self.has_room(piece.len()) {
            return self.add_here(rt, piece);
        }
        match self.waiting.extend_from_slice(piece) {
            Ok(()) => {}
            Err(_) => self.add_here(rt, piece),
        }
    }

    /// The digest of all that was taken.
    pub fn finish<R: Threads>(self, rt: &R) -> Digest
        ensures { (bytes : List ℕ) → TookBeside self bytes → result ≡ digest_of bytes }
    {
        let BesideDigester {
            held,
            waiting,
            chunk: _,
            greatest: _,
            alloc: _,
        } = self;
        let mut digester = end(rt, held).digester;
        digester.add(&waiting);
        digester.finish()
    }

    /// Leaves the digest, once no thread has a part of it.
    pub fn close<R: Threads>(self, rt: &R) {
        let BesideDigester {
            held,
            waiting: _,
            chunk: _,
            greatest: _,
            alloc: _,
        } = self;
        drop(end(rt, held));
    }
}
