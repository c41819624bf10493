//! SHA-256 of bytes that come in pieces, with the message schedules of four blocks side by side.
//!
//! A hasher gathers four blocks, whatever the pieces, so each schedule is computed beside three others.
//! What the digest is, the crate `sha2` defines.
#![tactic(auto)]

mod constants;
mod hasher;
mod lanes;
mod rounds;

pub use hasher::Sha256;
