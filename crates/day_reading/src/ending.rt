// How reading a day ends.
use tuples_text::Cause;

/// Why no further tuple is given.
#[derive(Clone, Copy, Debug, PartialEq, Eq)]
pub enum ReadEnd {
    /// This line, counted from 1, is the first that is refused.
    Refused { line: u64, cause: Cause },
    /// The source failed.
    ReadFault,
    /// Memory ran out.
    NoMemory,
}

/// How the reading of lines ended.
#[derive(Clone, Copy, Debug, PartialEq, Eq)]
pub enum Ending {
    Whole,
    Stopped(ReadEnd),
}
