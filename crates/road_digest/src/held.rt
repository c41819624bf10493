// Where a digester is: here, or in a thread that gives it back.
ghost use Rattle.std.specs.Prelude.{◌≡◌, ◌++◌, ℕ, List};
ghost use Rattle.road_digest.specs.Digests.{Took};
ghost use Rattle.road_digest.specs.Beside.{WillHold};

use crate::digest::Digester;
use std::snapshot::Snapshot;
use std::thread;
use std::thread::{Promise, PromisedHandle, Threads};

/// A digester, and the chunk that it took last, whose memory is used again.
#[derive(Drop)]
pub struct Back {
    pub digester: Digester,
    pub chunk: Vec<u8>,
}

/// The promise that a digester takes this piece.
#[derive(Drop)]
pub struct DigestsPiece {
    pub before: Snapshot<Digester>,
    pub piece: Snapshot<Vec<u8>>,
}

impl Promise<Back> for DigestsPiece {
    ghost use Rattle.std.specs.Prelude.{◌++◌, ℕ, List};
    ghost use Rattle.road_digest.specs.Digests.{Took};

    ghost kept_by = { λ p back. (bytes : List ℕ) → Took p.before.value bytes
        → Took back.digester (bytes ++ p.piece.value.items) };
}

/// A digester that is here, or the thread that has it. It cannot be dropped: `end` alone takes it.
pub enum HeldDigest {
    Here(Back),
    There(PromisedHandle<Back, DigestsPiece>),
}

/// The digester takes the chunk.
fn take(digester: Digester, chunk: Vec<u8>) -> Back
    ensures { (bytes : List ℕ) → Took digester bytes → Took result.digester (bytes ++ chunk.items) }
{
    let mut digester = digester;
    digester.add(&chunk);
    Back { digester, chunk }
}

/// A thread takes the chunk, or the caller does where no thread can be had.
pub fn begin<R: Threads>(rt: &R, digester: Digester, chunk: Vec<u8>) -> HeldDigest
    ensures { (bytes : List ℕ) → Took digester bytes → WillHold result (bytes ++ chunk.items) }
{
    let promise = DigestsPiece {
        before: Snapshot::of(&digester),
        piece: Snapshot::of(&chunk),
    };
    match thread::spawn_with(
        rt,
        promise,
        move || -> Back
            ensures { (bytes : List ℕ) → Took digester bytes → Took result.digester (bytes ++ chunk.items) }
        { take(digester, chunk) },
    ) {
        Ok(child) => HeldDigest::There(child),
        Err(refused) => HeldDigest::Here((refused.value)()),
    }
}

/// The digester, once its thread is done.
pub fn end<R: Threads>(rt: &R, held: HeldDigest) -> Back
    ensures { (bytes : List ℕ) → WillHold held bytes → Took result.digester bytes }
{
    match held {
        HeldDigest::Here(back) => back,
        HeldDigest::There(child) => child.join(rt),
    }
}
