// What one loop works with.
/// What one loop works with: where its connections come from, the reader that answers of the live board, and whether
/// its listener failed. `Q` is what the reader is.
#[derive(Drop)]
pub struct Acceptor<N, Q> {
    pub listener: N,
    pub reader: Q,
    pub failed: bool,
}
