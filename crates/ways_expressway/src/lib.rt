//! One worker's ways: what a worker is told of a day, what it keeps, and what it finds. One idea: a worker's events
//! show it each report of its ways and each vehicle that stops or leaves there, so they alone decide what its ways are
//! told, whatever other workers do. A carriage keeps what is left of the events that were run: the sliding averages of
//! the reports, and who stands where. It moves into a job and out of what was done, and `run` is all that happens to
//! it.
//!
//! The sliding averages of the stretches: the cars of the minute before, and the average speed of the five minutes
//! before.
//!
//! A note is a speed of a vehicle in a stretch, in the current minute. What is kept of it is a sum and a number for
//! each vehicle and stretch of the current minute, and for each stretch a ring of six minutes, each with its cars and
//! the sum of their mean speeds in twelfths. Both are brought up to date at each note, so that closing a minute
//! forgets the sums and moves on: a slot of the ring is known to be stale by its minute.
//!
//! Who stands where, and in which stretches an accident stood in the minute before.
//! One idea: an accident lasts as long as two vehicles stand at one place, so of each stretch it is enough to keep
//! how many of its places have two, since when one has had without end, and in which of the last two minutes one
//! stood that has ended. So `Stops::advance` only sets the second, and "stood in the minute before" is a comparison.
//!
//! The toll of a stretch: the comparison and the rounding of an average speed, and the formula of a tariff.
//! An average is a fraction, and nothing is rounded before it is compared.
#![tactic(auto)]

mod averages;
pub mod carriage;
pub mod finding;
mod formula;
pub mod job;
mod known;
pub mod lane_event;
pub mod laws;
mod parts;
pub mod places;
pub mod recent;
mod speeds;
pub mod spell;
pub mod stops;
mod this_minute;
mod window;
pub mod worked;

pub use averages::{below, whole_lav};
pub use carriage::Carriage;
pub use finding::{Finding, Findings};
pub use formula::toll;
pub use job::{Done, Job, run};
pub use lane_event::{Events, LaneEvent};
pub use places::Stopped;
pub use speeds::Speeds;
pub use spell::Spell;
pub use stops::Stops;
