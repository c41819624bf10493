// A day that was imported, of whose request something is left to do.
use day_import::Outcome;

/// How far the body of a request was read.
#[derive(Clone, Copy, Debug, PartialEq, Eq)]
pub enum ReadTo {
    /// So many of its bytes are left.
    Open(u64),
    /// The link ended before it did.
    Cut,
    /// The link failed.
    LinkFault,
}

/// How an import ended, how far it read the body, and which bytes that came early it did not read.
#[derive(Drop)]
pub struct Imported<'b> {
    pub outcome: Outcome,
    pub read: ReadTo,
    pub early: &'b [u8],
}
