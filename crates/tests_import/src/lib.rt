//! Rows of imports: whole days by `import` and by the commands, over every crew, against what was worked out by hand.
//!
//! It has tests alone. They need nothing private of the crates below, and stand apart so that no crate is proved
//! twice for them.
#![tactic(auto)]

#[cfg(test)]
mod tests;
