//! What is kept of days: records, amounts, a history and tariffs, and the digests of bytes.
//!
//! A digest is taken of bytes that come in pieces, and is that of the bytes joined, however they were cut.
//! A `Keeper` answers what it keeps and takes up a day, a history or a tariff as a whole. Two keepers stand in memory
//! and fail exactly where they are told, one of them only after a put is done.
//!
//! An office that begins anew at a day, which is above all kept ones.
//!
//! The amounts of the 69 days before it, which the requests of later days may ask for, become its history; its days and
//! earlier amounts go, and its tariffs stay. That is exactly what an office in a new folder keeps once it took these
//! amounts as a history. A keeper that may begin anew `Renews`: it lets go of all and keeps the history in one.
#![tactic(auto)]

mod anew;
mod anew_calls;
mod anew_keeper;
mod calls;
mod faults;
mod kept;
pub mod laws;
mod lines;
mod memory;
pub mod renewal_laws;
mod renewing;
mod tariff_seal;

pub use anew::Renews;
pub use anew_keeper::AnewKeeper;
pub use calls::Keeper;
pub use kept::{DayRecord, KeepFault, OldRecord, PastRecord};
pub use memory::{LateKeeper, MemKeeper};
pub use renewing::{Renewal, renew};
pub use tariff_seal::seal;
