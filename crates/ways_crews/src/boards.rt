// Cells are made, shared, and rung for.
ghost use Rattle.std.specs.Prelude.{◌≡◌, ◌≤◌, ◌<◌, [], IfOk};
ghost use Rattle.ways_crews.specs.Boards.{board_id};
ghost use Rattle.ways_crews.specs.Calls.{IsAt, KeepsSeat};
ghost use Rattle.ways_crews.specs.Views.{new_crew};

use crate::board::CellBoard;
use crate::cells::{CellSeat, CellTable};
use crate::moves::{SLEEPERS, StopRaised, ring, wake_all, wake_one};
use atomic_table::Table;
use road_time::NoMemory;
use std::alloc::Global;
use std::sync::Arc;

// The words behind those of the cells: the stop, and those that `moves` names.
const WORDS: usize = 4;

impl CellBoard {
    /// So many cells, all free, and the crew's seat.
    pub(crate) fn new(alloc: Global, count: usize) -> Result<(CellBoard, CellSeat), NoMemory>
        requires { (0 < count) × (count ≤ 64) }
        ensures seat { IfOk result (λ r. IsAt (board_id r.0) r.1 × (r.1.id ≡ 0) × (r.1.me ≡ (new_crew count, []))) }
        ensures count { IfOk result (λ r. r.0.count ≡ count) }
    {
        let words = vec![in alloc; 0u64; count + WORDS]?;
        let (table, seat) = Table::vacant(alloc, words.as_slice(), count, &count)?;
        let board = CellBoard {
            table: Arc::new(alloc, table)?,
            count,
        };
        Ok((board, seat))
    }

    /// The same cells.
    pub(crate) fn share(&self) -> Result<CellBoard, NoMemory>
        ensures { IfOk result (λ r. (board_id r ≡ board_id self.now) × (r.count ≡ self.now.count)) }
    {
        Ok(CellBoard {
            table: Arc::try_clone(&self.table)?,
            count: self.count,
        })
    }

    pub(crate) fn cells(&self) -> &CellTable
        ensures { result.now.table_id ≡ board_id self.now }
    {
        &self.table.shared
    }

    /// Rings for helpers, and wakes one if there is one that sleeps. A helper says that it sleeps before it
    /// looks at the bell, so either it sees that the bell was rung, or it is seen here.
    pub(crate) fn call_one(&self, seat: &mut CellSeat)
        requires { IsAt (board_id self.now) seat.old }
        ensures { KeepsSeat seat.old seat.new }
    {
        let cells = self.cells();
        let rung = ring(cells, seat, self.count);
        wake_one(cells, rung, self.count + SLEEPERS);
    }

    /// Rings for all helpers, once the stop is raised.
    pub(crate) fn call_all(&self, seat: &mut CellSeat, stop: StopRaised)
        requires { IsAt (board_id self.now) seat.old }
        ensures { KeepsSeat seat.old seat.new }
    {
        let cells = self.cells();
        let rung = ring(cells, seat, self.count);
        wake_all(cells, rung, stop);
    }
}
