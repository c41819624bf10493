//! The office, and why it failed.
//!
//! Where the status is that of a fault of reading or of the keeper, or of want of memory, `say_why` says why in one line
//! to a sink of its own, which is standard error in the program.
//!
//! The command `renew BASE [--drop N]` of the program `toll_office`: the office begins anew at a day.
//!
//! `renewal_base` says whether words ask for it, `renewal_drop` how many amounts may go, and `begin_anew` does it over any sink and any keeper that may begin anew:
//! its contract says exactly what is written and kept, and which status comes.
//!
//! `answered` is the one or the other, by the words: what the program does over the edges that its `main` makes.
#![tactic(auto)]

mod answering;
mod closing_line;
mod dropping;
mod ending;
mod entry;
mod saying;
mod words;

pub use answering::answered;
pub use ending::Ending;
pub use entry::begin_anew;
pub use saying::say_why;
pub use words::{renewal_base, renewal_drop};
