// A read and a write that count their faults.
ghost use Rattle.std.specs.Prelude.{◌<◌, ◌≤◌, length, IfOk};
ghost use Rattle.std.specs.Io.{ReadsAtMost};
ghost use Rattle.std.specs.Io.KnownBytes.{ReadConsumes, WriteAppends};
ghost use Rattle.road_io.specs.Faults.{HasCause, Rose};

use crate::retrying::{read_retrying, write_retrying};
use crate::source::Failed;
use std::io::{Read, Write};

/// Counts a call that failed.
pub(crate) fn count_fault(faults: &mut u64) -> Failed
    ensures later { faults.old ≤ faults.new }
    ensures rose { Rose faults.old faults.new }
{
    *faults = faults.saturating_add(1);
    Failed
}

/// Reads once, and counts a read that failed.
pub(crate) fn read_counting<R: Read>(
    reader: &mut R,
    buf: &mut [u8],
    faults: &mut u64,
) -> Result<usize, Failed>
    ensures bound { ReadsAtMost result buf.new }
    ensures bytes { ReadConsumes (R.remaining reader.old) (R.remaining reader.new) result buf.new }
    ensures cause { HasCause faults.old faults.new result }
{
    match read_retrying(reader, buf) {
        Ok(count) => Ok(count),
        Err(_) => Err(count_fault(faults)),
    }
}

/// Writes once, and counts a write that failed; one of no byte is a fault.
pub(crate) fn write_counting<W: Write>(
    writer: &mut W,
    piece: &[u8],
    faults: &mut u64,
) -> Result<usize, Failed>
    ensures prefix { IfOk result (λ n. (0 < n) × (n ≤ length piece.now)) }
    ensures bytes { WriteAppends (W.contents writer.old) (W.contents writer.new) result piece.now }
    ensures cause { HasCause faults.old faults.new result }
{
    match write_retrying(writer, piece) {
        Ok(count) if count > 0 => Ok(count),
        _ => Err(count_fault(faults)),
    }
}
