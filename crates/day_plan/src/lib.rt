//! How the work of importing a day is cut and ordered. What is written and kept does not depend on it.
//!
//! Draws from a generator that a number makes: traffic and the turns of an import are drawn so.
#![tactic(auto)]

mod draws;
mod work;

pub use draws::{draw, draw_place, seed};
pub use work::Plan;
