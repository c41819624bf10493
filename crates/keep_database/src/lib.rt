//! A keeper whose tables are proved statement by statement.
#![tactic(auto)]

mod answers;
mod calls;
mod keeping;
mod looks;
mod order;
mod proved;
mod reads;
mod records;
mod steady;
mod values;
mod versions;

pub use proved::ProvedKeeper;
pub use steady::Steady;
