// What is told of a report before it comes in.

use crate::tracked::Tracked;
use road_time::LastSeen;

/// What the next report of a vehicle tells, what is kept of the vehicle from then on, and where that is kept, if the
/// vehicle was seen before.
#[derive(Clone, Copy, Debug, PartialEq, Eq)]
pub struct Sighting {
    pub tracked: Tracked,
    pub now: LastSeen,
    pub at: Option<usize>,
}
