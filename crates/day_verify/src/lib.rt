//! Whether what is kept of a day is right.
//!
//! The bytes of a day are worked again, over any crew, and what they come to is held against what is kept: the digest
//! of the bytes, the seal of the tariffs, each amount, and each number of the record. Nothing is written, and nothing
//! that is kept changes.
#![tactic(auto)]

mod amounts;
mod judging;
pub mod laws;
mod records;
mod verdict;
mod verifying;

pub use verdict::{Amiss, Parting, Verdict};
pub use verifying::verify;
