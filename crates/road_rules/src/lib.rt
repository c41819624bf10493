//! The plain rules, recomputed over the whole list of tuples: what the engine's output is compared with.
#![tactic(auto)]

mod account;
mod average;
mod blocked;
mod cars;
mod flows;
mod found;
mod halts;
mod mishaps;
mod near;
mod output;
mod owed;
mod payments;
mod places;
mod rows;
mod spots;
mod verdict;

pub use cars::plain_cars;
pub use flows::plain_lav;
pub use mishaps::plain_log;
pub use near::plain_near;
pub use output::plain_notices;
pub use owed::{plain_owed, plain_toll};
pub use payments::Payments;
pub use road_time::Mishap;
pub use rows::plain_rows;
pub use verdict::{Verdict, check};
