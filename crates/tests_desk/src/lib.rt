//! Rows of the desk: requests in, against their answers.
//!
//! It has tests alone. They need nothing private of the crates below, and stand apart so that no crate is proved
//! twice for them.
#![tactic(auto)]

#[cfg(test)]
mod tests;
