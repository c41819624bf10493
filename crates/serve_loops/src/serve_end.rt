// How serving ends.

/// How serving ends.
#[derive(Clone, Copy, Debug, PartialEq, Eq)]
pub enum ServeEnd {
    /// All connections were accepted.
    Served,
    /// An acceptor's listener failed.
    ListenFault,
}
