//! Rows of words and acceptors: what is read of the words of commands and of the server, and what its acceptors answer.
//!
//! It has tests alone. They need nothing private of the crates below, and stand apart so that no crate is proved
//! twice for them.
#![tactic(auto)]

#[cfg(test)]
mod tests;
