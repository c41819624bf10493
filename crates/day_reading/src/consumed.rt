// The bytes of the lines that were cut: how many, and their digest, if it is asked.
ghost use Rattle.std.specs.Prelude.{◌≤◌};
ghost use Rattle.day_reading.specs.declared.consumed.TheConstants.{GREATEST_CHUNK};

use road_digest::BesideDigester;

mod steps;

/// So many bytes are gathered, at most, before the first thread takes them for the digest.
const FIRST_CHUNK: usize = 262_144;

/// So many bytes are gathered, at most, before any thread takes them: about as many as the lines of a round have, so that
/// the thread is not done before the caller reads again. Two such chunks are held, so more would only take memory.
const GREATEST_CHUNK: usize = 3_407_872;

/// The bytes taken so far, with their digest where one is asked. Of these no more wait for a thread than a chunk has.
/// They cannot be dropped: `digest` and `close` end them, once no thread has a part of them.
pub struct Consumed {
    pub digester: BesideDigester,
    pub digested: bool,
    pub bytes: u64,
    ghost bounded: { digester.greatest ≤ GREATEST_CHUNK },
}
