//! What is put into the tables of a keeper, each put in one transaction.
//!
//! The making of a keeper's tables, where none are there or those of version 1.
#![tactic(auto)]

mod columns;
pub mod day_writes;
mod makings;
mod objects;
mod past_writes;
pub mod puts;
pub mod refusals;
mod seals;
mod spent_writes;
mod tables;
mod tariff_writes;
pub mod unfinished;

pub use makings::make;
