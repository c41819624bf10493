// What is kept of a history.
use keep_office::PastRecord;
use road_time::SpentRow;

/// What is kept of a history: its record and its amounts above zero, in order.
#[derive(Drop)]
pub struct History {
    pub past: PastRecord,
    pub rows: Vec<SpentRow>,
}
