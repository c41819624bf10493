//! Requests and answers: what a request asks of the desk, or why it is refused at once, and the texts of answers.
//!
//! `read_front` reads the head from a link, within its first 8,192 bytes and with at most 64 fields. `Routes` holds
//! the desk's nine routes and finds the place that a path names. `wanted_of` judges in this order: whether a page of
//! the web may have sent the request, the path, then the method, then the length of the body of a POST.
//!
//! The texts of answers: their bodies in JSON, their status lines, and all the bytes of one.
//!
//! A request is read from a link and answered there where it is refused at once; the body of a POST is a source.
//!
//! `read_asked` reads a head, routes it and answers what the desk is asked, or how the session ends. A `Body` gives
//! the bytes that came with the head and then those of the link, exactly as many as are declared: the end of the link
//! before that and a fault of the link are told apart, and `drain` reads what a use of the body has left.
#![tactic(auto)]

mod asked;
mod asking;
mod bodies;
mod body;
mod body_end;
mod day_list;
mod fields;
mod fronts;
pub mod laws;
mod numbers;
mod origins;
mod page;
mod paths;
mod place;
mod reading;
mod refusing;
mod replies;
mod route;
mod routing;
mod sending;
mod session_end;
mod skipping;
mod statement;
mod streams;
mod values;
mod wanted;

pub use asked::{Asked, Early};
pub use asking::wanted_of;
pub use bodies::{
    day_body, differs_body, error_body, health_body, imported_body, live_body, passed_body,
    refused_body, spent_body, total_body,
};
pub use body::{Body, Start, drain};
pub use body_end::BodyEnd;
pub use day_list::days_body;
pub use fronts::{Front, read_front};
pub use page::page_text;
pub use place::DeskPlace;
pub use reading::read_asked;
pub use refusing::refuse;
pub use replies::{keeper_text, no_day_text, no_memory_text, reply_text};
pub use routing::{Routes, routes_cross};
pub use sending::{send_bytes, send_no_memory, send_page, send_reply};
pub use session_end::SessionEnd;
pub use skipping::skip_body;
pub use statement::vehicle_body;
pub use streams::{
    answered_line, keeper_fault_line, memory_line, read_fault_line, refused_line, stream_head,
};
pub use wanted::{Refusal, Wanted};
