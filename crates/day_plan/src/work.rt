// How the work of importing a day is cut and ordered. What is written and kept does not depend on it.

/// A day's work: over how many workers it is cut, 1 to 64, and the number that draws the order of their turns. Without
/// one they take their turns in rounds.
#[derive(Clone, Copy, Debug, PartialEq, Eq)]
pub struct Plan {
    pub width: u8,
    pub turns: Option<u64>,
}
