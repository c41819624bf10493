// What still comes is read and dropped.
ghost use Rattle.road_io.specs.Within.{ReadsWithin};

use crate::retrying::read_retrying;
use std::io::Read;
use std::time::{Clock, Duration, Instant};

/// How many bytes are dropped at most.
const MOST_DROPPED: usize = 1_048_576;

/// How many seconds a read waits at most, and after how many none begins.
const PATIENCE: u64 = 1;

/// How long a read waits at most.
pub(crate) fn patience() -> Duration {
    Duration::from_secs(PATIENCE)
}

/// Whether a read may begin, so long after a moment.
fn is_soon<C: Clock>(clock: &C, start: Instant) -> bool {
    match start.elapsed(clock) {
        Ok(passed) => passed < patience(),
        Err(_) => false,
    }
}

/// Reads and drops what still comes, up to 1 MiB, until the end, a read that fails or the end of the patience.
pub(crate) fn drop_rest<R: Read, C: Clock>(reader: &mut R, clock: &C)
    ensures { ReadsWithin 1048576 (R.remaining reader.old) (R.remaining reader.new) }
{
    let Ok(start) = Instant::now(clock) else {
        return;
    };
    let mut buf = [0u8; 8192];
    let mut room = MOST_DROPPED;
    while room > 0 && is_soon(clock, start) {
        let piece = room.min(buf.len());
        let Ok(count) = read_retrying(reader, &mut buf[..piece]) else {
            return;
        };
        if count == 0 {
            return;
        }
        room -= count;
    }
}
