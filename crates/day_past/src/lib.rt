//! Keeping a history: the amounts that vehicles paid on the 69 days before a day, from a file of lines.
//!
//! A line is refused as a line of a day is, or where an earlier line is of the same vehicle, day and expressway. The
//! amounts above zero are kept, all or none.
//!
//! What was paid on earlier days, where a day asks for it.
//!
//! The plain rules take a history as rows. `history_for` gives the rows of a keeper that a day's requests can ask for,
//! and none where no request of the day asks for any, so that the keeper is not asked then. Few requests are asked
//! for one by one, each amount once; for many the amounts of all the days that they may ask for are taken.
#![tactic(auto)]

mod amounts;
mod asked;
mod asked_amounts;
mod history;
mod importing;
mod judging;
pub mod laws;
mod lines;
mod outcomes;
mod past_reader;
mod whole_past;

pub use amounts::{Amounts, Key};
pub use asked::history_for;
pub use importing::import_past;
pub use lines::read_row;
pub use outcomes::{PastCause, PastOutcome};
