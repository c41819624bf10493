//! The desk: what the office answers over a link, one request at a time.
//!
//! `session` reads a request and answers it: of what is kept by a `Desk`, which imports the body of a POST as the
//! office imports a day and publishes its charges, and of the live board by its reader, which never waits.
//! `session_shared` has a `Clerk` answer what is asked of what is kept: for many sessions at once `TwoLocks`, where a
//! keeper that is shared answers while a POST of an `ImportDesk` goes on, and a POST tells the reader of its session
//! what is published then.
//!
//! A keeper that many share.
//!
//! A `SharedKeeper` is a keeper over one that lies under a lock. Each of its calls takes the lock, hands itself on, and
//! lets the lock go: whoever works long with what is kept, as an import that waits for its lines, keeps others from it
//! for one call at a time. What is kept may change between two calls. So it tells nothing of it; but each call is one of
//! the keeper that lies under the lock, with the same arguments, between two states of it. A put looks first, under the
//! same lock, whether it may be put yet.
#![tactic(auto)]

mod answers;
mod begun;
mod calls;
mod clerk;
mod counting;
mod days_shared;
mod desk;
mod held;
mod held_calls;
mod held_import;
mod history;
mod hold;
mod import_desk;
mod imported;
mod importing;
mod kept;
mod kept_days;
mod live;
mod notices;
mod notices_shared;
mod place;
mod posting;
mod puts;
mod puts_held;
mod reads;
mod reads_held;
mod seat;
mod sessions;
mod shared;
mod shared_answers;
mod sharing;
mod stream_ends;
mod streaming;
mod two_locks;
mod work;

pub use begun::{Begun, Often};
pub use clerk::Clerk;
pub use desk::{Desk, desk_moves};
pub use held::HeldKeeper;
pub use history::Naming;
pub use import_desk::ImportDesk;
pub use kept::{Kept, Opened};
pub use live::live_answer;
pub use seat::Seat;
pub use serve_requests::{Asked, Early, Routes, SessionEnd};
pub use sessions::session;
pub use shared::SharedKeeper;
pub use sharing::session_shared;
pub use two_locks::TwoLocks;
pub use work::{DayWork, Work};
