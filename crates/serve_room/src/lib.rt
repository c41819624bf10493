//! Where connections wait for their head, in one place and in no acceptor, and where they are drained once answered.
//!
//! A `WaitingRoom` listens on a port of this machine. It has 720 seats, and a connection sits in one from its accept until
//! its head is whole, or can become none. One that ends before, fails, or has sent no head within ten seconds leaves its
//! seat unanswered; where all seats are taken, so does the first that was accepted of those that wait for their head, or,
//! where those that wait for others have a third of the seats, the last of these, which is told so.
//! `next` waits for all of them at once, and hands on the first that is to wait no more: a `RoomLink`, which gives what the
//! connection sent in the room before what it sends later.
//! There is one pass for connections that post a day: the next one waits in its seat until that before it gave the pass
//! back, by a `RoomTurn` or with itself. Of these and of those that ask for what is kept no more are out than may be, so that
//! all others wait for nobody. `RoomLink::leave` brings a connection back over the `Threshold`, and the room drops what still
//! comes of it.
#![tactic(auto)]

mod draining;
mod front;
mod front_link;
mod heard;
mod hearing;
mod lending;
mod outside;
mod passing;
mod patience;
mod patient;
mod posts;
mod room;
mod room_link;
mod seat;
mod seating;
mod threshold;
mod turns;

pub use front_link::FrontLink;
pub use lending::Handle;
pub use room::{RoomFault, WaitingRoom};
pub use room_link::{RoomLink, RoomTurn};
pub use threshold::Threshold;
