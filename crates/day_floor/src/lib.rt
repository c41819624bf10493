//! The floor: where a day's vehicles are, what waits for findings, what is booked, and what is written in order.
//!
//! A `Floor` is fed tuples, gives each worker its jobs, takes findings back, and settles what lies below the mark.
//!
//! Where each vehicle was last, as the reports of a day come in: what begins a stay, who stopped, who left, and which
//! stay is charged. One idea: of a vehicle's reports its newest place and the length of its newest run there, up to
//! four, tell all of it, so `Tracker::see` is one look-up.
//!
//! The day's accounts, and how they are published.
//!
//! A book keeps what each vehicle was told last and what it was charged on each expressway. A publisher takes what is
//! charged as operations: a day begins, and steps of charges up to a mark. A board is what a list of operations comes
//! to, and the live law says that it shows the accounts of a prefix of the day.
//!
//! What a floor does with the positions that it settles: it books, tells and answers, writes, and publishes.
//!
//! A slot keeps of a tuple that waits what settling needs. A `Settler` stands for the tuples that are settled, by the
//! findings given for them: its book is theirs, and it took the text of their notices.
#![tactic(auto)]

pub mod accounts_laws;
mod book;
mod booking;
pub mod crossings_laws;
mod desk;
mod due_slot;
mod fault;
mod floor;
mod homes;
mod inboxes;
pub mod laws;
mod paying;
mod printer;
mod publisher;
mod rows;
pub mod seen;
mod settler;
pub mod settling_laws;
pub mod sighting;
mod slot;
mod slots;
mod sums;
mod text_digest;
pub mod tracked;
pub mod tracker;
mod vehicle;
pub mod worked;

pub use book::Book;
pub use due_slot::{Due, Found, Slot, fill};
pub use fault::SettleFault;
pub use floor::Floor;
pub use publisher::{Charged, NoPublisher, Publisher};
pub use settler::{Closed, Settler, SpentRows};
pub use sighting::Sighting;
pub use tracked::{Charge, Tracked};
pub use tracker::Tracker;
