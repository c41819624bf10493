// Reading a day one tuple ahead: the types.
ghost use Rattle.road_io.specs.Cutter.{line_number};
ghost use Rattle.day_reading.specs.Lines.{FollowsAfter};

use crate::day_reader::DayReader;
use road_time::Tuple;
use tuples_text::Cause;

mod steps;

/// What follows the tuples that were given.
#[derive(Clone, Copy, Debug, PartialEq, Eq)]
pub enum Following {
    /// A further tuple.
    Waits(Tuple),
    /// The end of the bytes.
    Ends,
    /// A line, counted from 1, that is refused.
    Stops { line: u64, cause: Cause },
}

/// Reads the tuples of a day in the order of Time, one ahead of what it gives. It cannot be dropped: `end` and `close`
/// end it, once no thread has a part of its bytes.
pub struct DayAhead {
    reader: DayReader,
    following: Following,
    ghost stops: { FollowsAfter following (line_number reader.cutter) },
}
