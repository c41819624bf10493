//! Traffic that a number makes: the lines of a day, with accidents, trips and requests.
//!
//! A plan has a seed and sizes. The seed's draws make crashes and trips, these make tuples, and the tuples in the order
//! of Time, vehicle and type are the file. Any plan in its ranges makes a day that is accepted whole.
#![tactic(auto)]

mod crash;
mod directions;
mod generating;
pub mod laws;
mod plan;
mod reporting;
mod traffic;
mod trip;

pub use generating::generate;
pub use plan::{GenFault, GenPlan};
