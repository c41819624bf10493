// The cells that a crew and its helpers share, and what each of them knows of these.

use atomic_table::{Seat, Shared, TableRule};
use std::collections::LinkedList;
use ways_expressway::{Done, Job};

/// What lies in a cell: a job that waits for a taker, or what was done of it.
#[derive(Drop)]
pub enum Parcel {
    Waiting(Job),
    Finished(Done),
}

/// What a seat at the cells knows. Of the crew: per cell the input, which is the job announced in it and not
/// collected. Of each: the cell that it has taken, with its input, and whether it raised or saw the stop. No
/// value of it is made.
pub struct View {
    pub given: LinkedList<Option<Job>>,
    pub taken: Option<(usize, Job)>,
    pub stopped: bool,
}

/// The rule of the cells, of which the table is told the number.
pub struct Cells;

impl TableRule<Option<Parcel>, View, usize> for Cells {
    ghost use Rattle.ways_crews.specs.Cells.{CellRule};
    ghost use Rattle.ways_crews.specs.Views.{new_crew};

    ghost holds = { λ count. CellRule };

    ghost first = { λ count. new_crew count };
}

/// The seat of the crew or of a helper.
pub type CellSeat = Seat<Option<Parcel>, View>;

/// The cells, the stop word and the bell, as threads share them.
pub type CellTable = Shared<Option<Parcel>, View, usize, Cells>;
