// The digest of a text that comes in pieces, if it is asked.
ghost use Rattle.std.specs.Prelude.{◌≡◌, ◌++◌, [], ℕ, List, is_some};
ghost use Rattle.day_floor.specs.TextDigests.{TookText, IsDigestOf};

use road_digest::{BesideDigester, Digest};
use std::alloc::Global;
use std::thread::Threads;

/// So many bytes are gathered, at most, before a thread takes them for the digest: about as many as a round writes, so
/// that the thread is done long before the next ones are.
const CHUNK: usize = 524_288;

/// Takes the digest of a text that comes in pieces, if it is asked, by a thread beside. Else it takes nothing. It cannot
/// be dropped: `finish` and `close` end it, once no thread has a part of the text.
pub struct TextDigest {
    digester: BesideDigester,
    asked: bool,
}

impl TextDigest {
    /// Nothing was taken yet. It takes no memory.
    pub fn new(alloc: Global, asked: bool) -> Self
        ensures none { TookText result [] }
        ensures asked { result.asked ≡ asked }
    {
        TextDigest {
            digester: BesideDigester::new(alloc, CHUNK, CHUNK),
            asked,
        }
    }

    /// Takes a further piece.
    pub fn add<R: Threads>(&mut self, rt: &R, piece: &[u8])
        ensures took { (text : List ℕ) → TookText self.old text → TookText self.new (text ++ piece.now) }
        ensures asked { self.new.asked ≡ self.old.asked }
    {
        if !self.asked {
            return;
        }
        self.digester.add(rt, piece);
    }

    /// The digest of all that was taken, if it was asked.
    pub fn finish<R: Threads>(self, rt: &R) -> Option<Digest>
        ensures exact { (text : List ℕ) → TookText self text → IsDigestOf result text }
        ensures asked { is_some result ≡ self.asked }
    {
        let TextDigest { digester, asked } = self;
        if asked {
            return Some(digester.finish(rt));
        }
        digester.close(rt);
        None
    }

    /// Leaves the text, once no thread has a part of it.
    pub fn close<R: Threads>(self, rt: &R) {
        let TextDigest { digester, asked: _ } = self;
        digester.close(rt);
    }
}
