//! Rows of the commands that need a fake: a source, a sink or a keeper in memory that fails, pieces, or small limits.
//!
//! Those that need none are `trials/rows_of_commands.py`, run over the built program.
//!
//! It has tests alone. They need nothing private of `office_commands`, which is not proved a second time for them.
#![tactic(auto)]

#[cfg(test)]
mod tests;
