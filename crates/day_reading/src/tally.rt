// How many lines were checked, and which were refused: the types.
ghost use Rattle.std.specs.Prelude.{◌≤◌};

use tuples_text::Cause;

mod counting;

/// A refused line: its number, from 1, and why it is refused.
#[derive(Clone, Copy, Debug, PartialEq, Eq)]
pub struct Refusal {
    pub line: u64,
    pub cause: Cause,
}

/// How many lines were checked and how many were refused, and the first of these.
#[derive(Drop)]
pub struct Tally {
    pub lines: u64,
    pub refused: u64,
    pub named: Vec<Refusal>,
    ghost some: { refused ≤ lines },
}
