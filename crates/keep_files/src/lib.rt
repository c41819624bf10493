//! A keeper in a database that is opened by the path of its file, over any files that a path opens.
//!
//! `KeeperIn` opens its database at the first call, and anew after a call that failed. A call that reads is made of
//! the trees of the file, where that lists exactly our tables: no more is read than the answer needs. In a new file a
//! connection makes the tables first, and is taken over. A call that puts takes the file over from the trees and is
//! made of its store, in one commit, where each page and tree is sound; the trees are held again then. What does not
//! fit the trees, and a file that is not exactly ours, is left to a `ProvedKeeper` on a connection, which reads and
//! checks the file whole and is held from then on. Each call is a value, a `Reading` or a `Putting`. What the file
//! holds is another hand's until it is read: it tells nothing of it. Where a call fails, `cause` says why.
//! `FileKeeper` is the same over a store of files, which its callers do not see.
//!
//! A keeper of days, amounts, a history and tariffs in a SQLite file.
//!
//! `SqliteKeeper` hands each call to the keeper in the file, a `KeeperIn`, which makes the tables where none are
//! there, or takes over those of version 1. `close` leaves all that is kept in the file alone. What the file holds is
//! another hand's until it is read: it tells nothing of it.
#![tactic(auto)]

mod at_path;
mod call;
mod cause;
mod closing;
mod database;
mod file_calls;
mod file_keeper;
mod keeper_in;
mod kept;
mod kept_file;
mod missed;
mod objects;
mod opens;
mod page_files;
mod place;
mod puts;
mod reads;
mod shuts;
mod shutting;
mod whys;

pub use at_path::{AtPath, KeptDisk, KeptPages, KeptStore};
pub use call::{Putting, Reading};
pub use cause::{Cause, cause_of, fault_of};
pub use closing::close_said;
pub use file_keeper::FileKeeper;
pub use keeper_in::KeeperIn;
pub use kept::Kept;
pub use kept_file::{KEPT_FILE, SqliteKeeper};
pub use opens::Opens;
pub use page_files::{open_to_read, open_whole};
pub use place::{Place, Places};
pub use puts::{PutDay, PutPast, PutTariff};
pub use reads::{AskedDay, AskedSpent, KeptTariffs, LastDay, Past, Rows, VehicleRows};
pub use shuts::Shuts;
pub use shutting::shut;

/// Hands over what may move between threads.
fn can_move<T: Send>() {}

/// The keepers may move between threads.
pub fn keepers_move() {
    can_move::<SqliteKeeper>();
    can_move::<keep_office::MemKeeper>();
    can_move::<keep_office::LateKeeper>();
}
