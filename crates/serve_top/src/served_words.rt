// How to serve.

/// How to serve: the port, 1 to 65,535, how many connections are accepted, at least one, and by how many readers, 1
/// to 64.
#[derive(Clone, Copy, Debug, PartialEq)]
pub struct Serving {
    pub port: u16,
    pub sessions: u64,
    pub readers: u8,
}
