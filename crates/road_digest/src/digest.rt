// Digests of bytes that come in pieces, and their text.
ghost use Rattle.std.specs.Prelude.{◌≡◌, ◌++◌, [], ℕ, List, IfOk};
ghost use Rattle.std.specs.String.{string_bytes};
ghost use Rattle.hex.specs.Hex.{encode_lower};
ghost use Rattle.road_digest.specs.Digests.{Took, digest_of};

use road_sha::Sha256;
use road_time::NoMemory;
use std::alloc::Global;

/// The SHA-256 digest of some bytes.
#[derive(Clone, Copy, Debug, PartialEq, Eq)]
pub struct Digest {
    pub bytes: [u8; 32],
}

impl Digest {
    /// The digest as 64 lower-case hexadecimal digits.
    pub fn text(&self, alloc: Global) -> Result<String, NoMemory>
        ensures { IfOk result (λ text. string_bytes text ≡ encode_lower self.now.bytes) }
    {
        Ok(hex::encode(alloc, self.bytes.as_slice())?)
    }
}

/// Takes the digest of bytes that come in pieces.
#[derive(Drop)]
pub struct Digester {
    hasher: Sha256,
}

impl Digester {
    /// No byte was taken yet.
    pub fn new() -> Self
        ensures { Took result [] }
    {
        Digester {
            hasher: Sha256::new(),
        }
    }

    /// Takes a further piece.
    pub fn add(&mut self, piece: &[u8])
        ensures { (bytes : List ℕ) → Took self.old bytes → Took self.new (bytes ++ piece.now) }
    {
        self.hasher.update(piece);
    }

    /// The digest of all that was taken.
    pub fn finish(self) -> Digest
        ensures { (bytes : List ℕ) → Took self bytes → result ≡ digest_of bytes }
    {
        Digest {
            bytes: self.hasher.finalize(),
        }
    }
}
