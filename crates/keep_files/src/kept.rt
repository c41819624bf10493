// What is held of a file.

/// A file by its trees, or whole.
#[derive(Drop)]
pub enum Kept<T, W> {
    Trees(T),
    Whole(W),
}
