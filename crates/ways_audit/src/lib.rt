//! A day's audit: vehicles are tracked by shards at once, findings are made by ways, charges come last.
//!
//! A tracker asks nothing of other vehicles' reports. So any shard of the vehicles is tracked alone, and what each
//! position tells stands in its shard's queue. Each worker's ways are one job over the events that its positions tell
//! it.
//!
//! The notices of one second in any order: where a second ends, and which of its notices are still to come.
//!
//! A notice is told from others by its numbers alone, so each line costs one look into a table, however many notices
//! the second has.
#![tactic(auto)]

mod closing;
mod finishes;
mod jobs;
pub mod laws;
mod notice_list;
mod numbers;
mod payments;
mod placing;
mod routing;
mod seconds;
mod shard;
mod shards;
mod splitting;
mod starts;
mod still_to_come;
mod tracked_list;
mod whole_day;

pub use notice_list::NoticeList;
pub use numbers::{Numbers, numbers_of};
pub use seconds::{first_second, second_of};
pub use shard::Shard;
pub use shards::Shards;
pub use still_to_come::StillToCome;
pub use tracked_list::TrackedList;
pub use whole_day::bulk;
