//! Puts of days, histories and tariffs into the trees of a store, each in one commit.
//!
//! The trees are six tables and the index of the amounts. What is put has to come after all that is there: a put that
//! meets a row with its number, or an entry that is not below its amounts, is not done, and nothing is committed. One
//! put, that of a history that all begins anew with, takes all else away before but the tariffs.
//!
//! Laws of reads and puts over the trees of one file, which no program runs.
//!
//! `passing` says that a file keeps its office as it passes from trees to a store, from a store to trees, and from trees
//! to the next opening, also by a crash; `handing` is such a passing by the kit's own calls; `keys` says that a put which
//! was fresh took no key that was taken.
#![tactic(auto)]

mod amounts;
mod anew;
mod clearing;
mod columns;
mod handing;
mod keys;
mod passing;
mod puts;
mod records;
mod rows;
mod shapes;
mod tariffs;

pub use anew::put_anew;
pub use handing::{store_of_pages, trees_of_store};
pub use keys::no_key_is_taken;
pub use passing::{pages_find, pages_find_again, reads_stay, store_finds};
pub use puts::{put_day, put_past, put_tariff};
