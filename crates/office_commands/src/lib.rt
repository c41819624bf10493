//! The commands of the program `toll_office`.
//!
//! `office` does what the words ask over any source, aside, sink and keeper, and its contract says exactly what is
//! written and kept, and which status comes. The program hands it the words, standard input, the file `ASIDE_FILE`,
//! standard output and what is kept in a file.
#![tactic(auto)]

mod answers;
mod any_order;
mod aside;
mod checks;
mod closing;
mod comparing;
mod day;
mod day_lines;
mod days;
mod difference;
mod entry;
mod entry_text;
mod imports;
mod listed;
mod listing;
mod mishaps;
mod neighbours;
mod outcome;
mod past;
mod past_lines;
mod performing;
mod refusal;
mod run_limits;
mod second;
mod statements;
mod tariffs;
mod telling;
mod terms;
mod traffic;
mod turns;

pub use crate::closing::Closing;
pub use crate::entry::office;

/// The file that `validate` and `audit` compare with, in the folder where the program runs.
pub const ASIDE_FILE: &str = "notices.txt";
