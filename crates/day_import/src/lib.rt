//! Importing a day, once, with any crew; and answering one.
//!
//! `import` has a crew work the day, whatever its size, writes its output as it goes, publishes its charges, and keeps
//! the day with its amounts, as a whole or not at all. A day that is kept is compared by digest, and nothing changes.
//!
//! A day on the floor, with any crew: its tuples are read, fed, worked on and settled, in rounds or in turns that a
//! number draws, and it is closed.
#![tactic(auto)]

mod answering;
mod beginning;
mod begun;
mod day;
mod fault;
mod importing;
mod keeping;
pub mod laws;
mod outcomes;
mod reading;
mod rounds;
mod terms;
mod turning;
mod turns;
mod watching;
mod work;

pub use answering::answers;
pub use day::{WorkedDay, run_day};
pub use fault::DayFault;
pub use importing::import;
pub use outcomes::{AnsweredDay, Outcome};
pub use terms::DayTerms;
