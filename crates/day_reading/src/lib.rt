//! Reading a day: from the bytes of a source to the tuples of the day, in the order of Time.
//!
//! A `DayReader` cuts the lines, reads each, lets it in or refuses it, and sorts what comes late. What it has given is
//! always the front of the day that the bytes are, and it keeps no more than what waits.
//!
//! Checking a day: every line that is refused, not the first alone.
//!
//! A line is checked against the lines before it that were not refused. So each refused line stands for itself, and the
//! good lines alone are a day of which none is refused. Of a line that is too long the rest is passed over.
#![tactic(auto)]

mod checker;
mod consumed;
mod day_ahead;
mod day_reader;
mod ending;
mod first_bytes;
mod intake;
mod judging;
mod laws;
mod refusal_lines;
mod tally;
mod whole;
mod whole_day;

pub use consumed::Consumed;
pub use day_ahead::DayAhead;
pub use day_reader::DayReader;
pub use ending::ReadEnd;
pub use first_bytes::find_digest;
pub use laws::check_law;
pub use refusal_lines::refusals_text;
pub use tally::{Refusal, Tally};
pub use whole::{CheckStop, check_day};
pub use whole_day::{Day, DayEnd, ReadStop, read_day};
