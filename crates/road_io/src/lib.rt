//! Bytes in and bytes out, and the lines of what comes in.
//!
//! A `Source` gives bytes, a `Sink` takes them and a `Link` does both, each with a count of faults that only a failed
//! call raises. All three stand in memory too, where they fail exactly as they are told. A `LineCutter` cuts a source
//! into lines, the same ones however reads are cut, in one buffer of fixed size.
//!
//! A link that is read and written at once.
//!
//! A `TwoWay` link gives what is written to it as a sink of its own, an `Outward`, and takes it back: what was written
//! there was written to the link, which is read meanwhile. Where the system has no second handle of a connection, it
//! gives none. `BothWays` is such a link in memory.
#![tactic(auto)]

mod both_ways;
mod counting;
mod cutter;
mod edges;
mod ending;
mod ends;
mod late;
mod lending;
mod link;
mod linking;
mod memory;
mod outward;
mod retrying;
mod sink;
mod source;
mod words;

pub use both_ways::BothWays;
pub use cutter::{LineCutter, LineFault};
pub use edges::{FileSource, StdSink, StdSource, StreamLink};
pub use ends::TwoEnds;
pub use lending::TwoWay;
pub use link::{Link, send_all};
pub use linking::Linking;
pub use memory::{MemLink, MemSink, MemSource};
pub use outward::Outward;
pub use sink::{Sink, VoidSink, Writing, put_all};
pub use source::{Failed, Reading, Source};
pub use words::words_of;
