//! Rows of the road's rules, of the engine's parts and of what is kept, against what was worked out by hand.
//!
//! It has tests alone. They need nothing private of the crates below, and stand apart so that no crate is proved
//! twice for them.
#![tactic(auto)]

#[cfg(test)]
mod tests;
