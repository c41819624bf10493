//! The tables of a database that keeps an office, and what their statements make of it.
//!
//! Here are definitions and laws, and no code that runs. `specs/` has the tables (`Layout`), the texts of all
//! statements and what each is understood as (`Texts`, `Select`), how a record is a row and what a query shows of it
//! (`Codec`, `Shown`), which database stands for which office (`Stands`), and how that is told (`Told`). A database
//! stands for an office in three cases: it has no tables and the office keeps nothing; it has the three tables of
//! version 1; it has all six in version 2.
//!
//! `proofs/` has what each statement shows of a database that stands for an office (`AmountLaws`, `ReadLaws`,
//! `DayReadLaws`), what each makes of it (`DayWriteLaws`, `SpentWriteLaws`, `TariffWriteLaws`, `MigrationLaws`), that
//! a query changes nothing (`AskLaws`), and what a crash leaves of a put (`CrashLaws`).
#![tactic(auto)]

mod laws;

pub use laws::{one_office_law, sound_law, told_law};
