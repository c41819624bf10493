//! The digest of bytes that come in pieces, taken by a thread beside the caller.
//!
//! Pieces are gathered, and each full chunk is handed to a thread, one at a time. The digest is that of all bytes in
//! their order, as one thread takes it, whether a thread could be had or not. A digester is ended by `finish` or by
//! `close`, which wait for its thread: the compiler refuses to drop one.
#![tactic(auto)]

mod beside_digester;
mod digest;
mod held;

pub use beside_digester::BesideDigester;
pub use digest::{Digest, Digester};
