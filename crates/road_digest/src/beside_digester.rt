// The digest of bytes that come in pieces, with a thread beside: the type.
ghost use Rattle.std.specs.Prelude.{◌≤◌, length};

use crate::held::HeldDigest;
use std::alloc::Global;

mod steps;

/// Takes the digest of bytes that come in pieces, a chunk at a time in a thread. A chunk is twice as large as the one
/// before it, up to the greatest. What waits is never more than a chunk. It cannot be dropped: `finish` and `close` end
/// it, once no thread has a part of it.
pub struct BesideDigester {
    held: HeldDigest,
    waiting: Vec<u8>,
    chunk: usize,
    greatest: usize,
    alloc: Global,
    ghost few: { length waiting.items ≤ chunk },
    ghost bounded: { chunk ≤ greatest },
}
