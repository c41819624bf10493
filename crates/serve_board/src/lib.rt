//! The live board: readers ask for accounts of the day that is being imported, and never wait for it.
//!
//! A board has one writer, which takes what is charged as operations, and up to 64 readers. The writer shows an
//! operation whole. Each answer of a reader is that of one list of operations, which begins with all that this reader
//! saw or was told before. That all these lists begin one history is kept by a book of `logbook`, whose tokens have
//! no bytes; what is compared is how long they are. The writer has the pen of that book, without which nothing is added:
//! so what a reader saw was published by it (`laws::published_law`).
#![tactic(auto)]

mod board_history;
mod change;
mod charge;
mod front;
pub mod laws;
mod live;
mod named;
mod naming;
mod opening;
mod operation_log;
mod page;
mod parts;
mod post;
mod reader;
mod rule;
mod shown;
pub mod side_by_side;
mod tip;
mod told;
mod watch;
pub mod worked;
mod writer;

pub use board_history::BoardHistory;
pub use live::Live;
pub use named::{NamedHistory, NamedReader, NamedWriter};
pub use naming::BoardNaming;
pub use opening::{board, named_board};
pub use parts::{Board, NamedBoard, NamedReaders, Readers};
pub use reader::BoardReader;
pub use told::Told;
pub use watch::Watch;
pub use writer::BoardWriter;
