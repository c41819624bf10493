// What a command is told beside the objects that it works on.

use office_words::{Command, Comparison};
use road_time::Limits;

/// A command, and the limits of a day.
#[derive(Clone, Copy)]
pub(crate) struct CommandTerms {
    pub command: Command,
    pub limits: Limits,
}

/// What is compared, and the limits of a day.
#[derive(Clone, Copy)]
pub(crate) struct ComparisonTerms {
    pub asked: Comparison,
    pub limits: Limits,
}
