//! The words of the command line: what each list of words means, if it means a command.
//!
//! The grammar and its meaning are a few definitions that know nothing of `clap`, which does the reading.
//! `forms` is the table of what is built: a command that it does not list is of no stated form.
#![tactic(auto)]

mod command;
mod laws;
mod numbers;
mod reading;
mod table;
mod waits;
mod words;

pub use command::{Command, Comparison, DayRun, Recomputing, Size, WordFault};
pub use laws::{spelling_law, words_law};
pub use numbers::{needed, optional};
pub use table::{option, place};
pub use waits::{WordsLeft, wait_taken};
pub use words::{fault_of, read_words};
