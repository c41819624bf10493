// The first bytes of a source, taken piece by piece for a digest.
ghost use Rattle.std.specs.Prelude.{◌≡◌, ◌≤◌, ◌<◌, ◌+◌, ◌++◌, List, ℕ, Some, Err, IfOk, IsOk, OnErr, length};
ghost use Rattle.std.specs.Prelude.{take, drop};
ghost use Rattle.road_io.specs.Blame.{FaultsByPlan};
ghost use Rattle.road_io.specs.Faults.{HasCause};
ghost use Rattle.road_io.specs.Plans.{NeverFails};
ghost use Rattle.road_digest.specs.Digests.{Took, found_digest};
ghost use Rattle.road_io.specs.Within.{ReadsWithin};
ghost use Rattle.day_reading.specs.Pieces.{TakesPiece};
ghost use Rattle.day_reading.specs.declared.whole_day.ReadStop.TheVariants.{ReadFault};

use crate::whole_day::ReadStop;
use road_digest::{Digest, Digester};
use road_io::{Failed, Source};
use road_time::NoMemory;
use std::alloc::Global;

/// So many bytes are read at a time, at most.
const PIECE: usize = 65_536;

/// A buffer for a piece.
fn piece_buffer(alloc: Global) -> Result<Vec<u8>, NoMemory>
    ensures { IfOk result (λ buffer. 0 < length buffer.items) }
{
    let buffer = vec![in alloc; 0u8; PIECE]?;
    Ok(buffer)
}

/// Reads some bytes, and takes them for the digest.
fn read_some<S: Source>(
    digester: &mut Digester,
    buffer: &mut [u8],
    source: &mut S,
) -> Result<usize, Failed>
    requires { 0 < length buffer.old }
    ensures bound { IfOk result (λ n. n ≤ length buffer.old) }
    ensures took { (bytes before : List ℕ) → S.left source.old ≡ Some bytes → Took digester.old before
        → IfOk result (λ n. TakesPiece n bytes before digester.new (S.left source.new)) }
    ensures left { (bytes : List ℕ) → S.left source.old ≡ Some bytes
        → IfOk result (λ n. S.left source.new ≡ Some (drop n bytes)) }
    ensures failed { (bytes : List ℕ) → S.left source.old ≡ Some bytes → OnErr result (S.left source.new ≡ Some bytes) }
    ensures same { S.name source.new ≡ S.name source.old }
    ensures sure { NeverFails (S.plan source.old) → IsOk result × NeverFails (S.plan source.new) }
    ensures cause { HasCause (S.faults source.old) (S.faults source.new) result }
{
    let count = match source.read(buffer) {
        Ok(count) => count,
        Err(failed) => return Err(failed),
    };
    digester.add(&buffer[..count]);
    Ok(count)
}

/// Takes at most so many bytes for the digest.
fn take_front<S: Source>(
    digester: &mut Digester,
    most: u64,
    buffer: &mut [u8],
    source: &mut S,
) -> Result<(), Failed>
    requires { 0 < length buffer.old }
    ensures bounded { ReadsWithin most (S.left source.old) (S.left source.new) }
    ensures took { (bytes before : List ℕ) → S.left source.old ≡ Some bytes → Took digester.old before
        → IfOk result
        (λ u. Took digester.new (before ++ take most bytes) × (S.left source.new ≡ Some (drop most bytes))) }
    ensures len { length buffer.new ≡ length buffer.old }
    ensures same { S.name source.new ≡ S.name source.old }
    ensures sure { NeverFails (S.plan source.old) → IsOk result × NeverFails (S.plan source.new) }
    ensures cause { HasCause (S.faults source.old) (S.faults source.new) result }
{
    let mut rest = most;
    while rest > 0 {
        let size = rest.min(buffer.len() as u64) as usize;
        let count = match read_some(digester, &mut buffer[..size], source) {
            Ok(count) => count,
            Err(failed) => return Err(failed),
        };
        if count == 0 {
            return Ok(());
        }
        rest -= count as u64;
    }
    Ok(())
}

/// Takes the first bytes for a digest, one more than so many.
fn take_one_more<S: Source>(bytes: u64, buffer: &mut [u8], source: &mut S) -> Result<Digest, Failed>
    requires { 0 < length buffer.old }
    ensures bounded { ReadsWithin (bytes + 1) (S.left source.old) (S.left source.new) }
    ensures found { (all : List ℕ) → S.left source.old ≡ Some all
        → IfOk result
        (λ digest. (digest ≡ found_digest all bytes) × (S.left source.new ≡ Some (drop (bytes + 1) all))) }
    ensures same { S.name source.new ≡ S.name source.old }
    ensures sure { NeverFails (S.plan source.old) → IsOk result × NeverFails (S.plan source.new) }
    ensures cause { HasCause (S.faults source.old) (S.faults source.new) result }
{
    let mut digester = Digester::new();
    if let Err(failed) = take_front(&mut digester, bytes, buffer, source) {
        return Err(failed);
    }
    match take_front(&mut digester, 1, buffer, source) {
        Ok(()) => Ok(digester.finish()),
        Err(failed) => Err(failed),
    }
}

/// The digest of the first bytes, one more than so many, or of all where there are fewer. No further byte is taken.
pub fn find_digest<S: Source>(alloc: Global, bytes: u64, source: &mut S) -> Result<Digest, ReadStop>
    ensures bounded { ReadsWithin (bytes + 1) (S.left source.old) (S.left source.new) }
    ensures found { (all : List ℕ) → S.left source.old ≡ Some all
        → IfOk result
        (λ digest. (digest ≡ found_digest all bytes) × (S.left source.new ≡ Some (drop (bytes + 1) all))) }
    ensures same { S.name source.new ≡ S.name source.old }
    ensures source { FaultsByPlan (S.faults source.old) (S.faults source.new) (S.plan source.old)
        (result ≡ Err ReadFault) }
    ensures still { NeverFails (S.plan source.old) → NeverFails (S.plan source.new) }
{
    let Ok(mut buffer) = piece_buffer(alloc) else {
        return Err(ReadStop::NoMemory);
    };
    match take_one_more(bytes, buffer.as_mut_slice(), source) {
        Ok(digest) => Ok(digest),
        Err(_) => Err(ReadStop::ReadFault),
    }
}
