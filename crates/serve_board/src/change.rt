// An operation, as the writer's log keeps it.
use day_floor::Charged;

/// A day begins, or charges are made up to a mark.
#[derive(Drop)]
pub enum Change {
    Begins(u32),
    Charges(Vec<Charged>, u64),
}
