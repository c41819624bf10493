// The cells, as the crew and its helpers have them in common.
ghost use Rattle.std.specs.Prelude.{◌≡◌, ◌≤◌, ◌<◌, [], IfOk};
ghost use Rattle.std.specs.Arc.{arc_value};
ghost use Rattle.ways_crews.specs.Sizes.{HasSize};

use crate::cells::{Cells, Parcel, View};
use atomic_table::Table;
use std::alloc::Global;
use std::sync::Arc;

/// A share of the cells, of which there are `count`.
#[derive(Drop)]
pub struct CellBoard {
    pub(crate) table: Arc<Table<Option<Parcel>, View, usize, Cells, Global>, Global>,
    pub(crate) count: usize,
    ghost size: { HasSize (arc_value table).shared.table_id count },
}
