//! The texts of lines and notices: read, written, and refused with a cause.
#![tactic(auto)]

mod cause;
mod ends;
mod fields;
mod gatekeeper;
mod notice_reader;
mod notices;
mod plain;
mod ranges;
mod reader;
mod recent;
mod sorter;
mod tuple_lines;
mod tuples;
mod waiting;

pub use cause::Cause;
pub use fields::{count_fields, number, split_field};
pub use gatekeeper::{AdmitFault, Gatekeeper};
pub use notice_reader::read_notice;
pub use notices::put_notice;
pub use reader::{read_line, trimmed};
pub use sorter::Sorter;
pub use tuple_lines::put_tuple;
