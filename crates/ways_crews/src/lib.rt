//! Crews of workers: whoever takes a worker's job and answers what was done of it. One idea: a ticket stands for a job
//! that is out, by its number, and the crew holds under each number what the answer will be made of: the job itself,
//! what was done of it, or a thread's promise. So the answer is that of the ticket's own job, in whatever order jobs
//! are started and finished.
//!
//! A standing crew: helpers that live as long as the program and take jobs from cells. One idea: a job is
//! announced in a cell, whoever finds it ready there takes it, and gives back what was done of it in the same
//! cell. What lies in a cell, and who has taken it, is a rule that each step keeps. So the answer is the
//! result of the ticket's own job, in whatever order the crew and its helpers take steps.
#![tactic(auto)]

mod alongside;
mod board;
mod boards;
mod cells;
pub mod crew;
pub mod drain;
mod entry;
mod finishing;
pub mod gate;
pub mod held;
mod helper;
mod hiring;
pub mod inline_crew;
pub mod job_list;
pub mod late_crew;
pub mod mark_crew;
mod moves;
pub mod open_jobs;
pub mod pair;
mod place;
pub mod places;
mod plays;
mod sends;
mod standing_crew;
mod starting;
pub mod thread_crew;
mod waiting;
mod work;

pub use alongside::beside;
pub use board::CellBoard;
pub use cells::{Cells, Parcel, View};
pub use crew::Crew;
pub use gate::{Gate, NoGate};
pub use held::Held;
pub use helper::{Helper, Helpers, help};
pub use hiring::{Crewed, standing};
pub use inline_crew::InlineCrew;
pub use job_list::{JobList, Started};
pub use late_crew::LateCrew;
pub use mark_crew::MarkCrew;
pub use open_jobs::{finish_among, start_beside};
pub use pair::run_both;
pub use place::TicketPlace;
pub use places::{Places, ThreadPlaces, Ticket, TicketEntry};
pub use sends::{crew_may_go, helper_may_go};
pub use standing_crew::StandingCrew;
pub use thread_crew::{Starter, ThreadCrew, ThreadTicket, begin};
