//! A keeper that reads the trees of its tables, and no more of the file than an answer needs.
//!
//! Each call goes over pages of any kind. It asks nothing of what the pages hold: it is safe and ends on any bytes.
//! Where they are a database whose trees stand for an office, its index included, the answer is the office's.
#![tactic(auto)]

mod amounts;
mod calls;
mod day_rows;
mod finds;
mod gathering;
mod hands;
mod history_row;
mod keys;
mod listing;
mod numbering;
mod opening;
mod order;
mod page_trees;
mod roots;
mod tariff_rows;
mod values;
mod vehicles;
mod walks;

pub use calls::{day, last_day, past, rows, spent, tariffs, vehicle_rows};
pub use hands::Hands;
pub use opening::find_roots;
pub use page_trees::{PageTrees, recovered};
pub use roots::Roots;
