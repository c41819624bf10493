//! What is printed of a day: its accident log, recomputed by the plain rules, and the statements and the export of
//! what is kept of it; and of all days, their list and what they charge.
#![tactic(auto)]

mod adding;
mod charge_lines;
mod charge_sums;
mod charged;
mod day_lines;
mod export_lines;
mod exported;
mod finding_days;
mod listed_days;
mod mishaps;
mod putting;
mod report_fault;
mod stated_day;
mod stated_vehicle;
mod vehicle_lines;
mod way_sums;

pub use charged::charges_csv;
pub use exported::export_csv;
pub use finding_days::{KeptDays, kept_days};
pub use listed_days::{DayList, day_list};
pub use mishaps::accident_log;
pub use report_fault::ReportFault;
pub use stated_day::day_statement;
pub use stated_vehicle::vehicle_statement;
