//! The server: `serve_words` opens a door by its words, serves the desk over it, and closes it.
//!
//! All is prepared before the door is opened: a live board with a reader for each acceptor, room for the acceptors, and the
//! routes, by which all sessions go. How many acceptors there are for so many readers is the door's to say. Where no
//! thread can be had for an acceptor, no acceptor serves any more, and the run ends with status 4. The desk has the keeper, the
//! crew and the board's writer, and imports each day over four workers.
//!
//! Doors: what a server opens to hear connections, and closes when it ends.
//!
//! A `Door` opens a number of ears, which are listeners, and counts at their closing what they accepted and whether
//! one failed. `TcpDoor` hears on a port of this machine, for this machine alone; `MemDoor` has listeners in memory.
//! A connection of a `TcpEar` that posts a day has a `TcpTurn`, which it may give back before itself.
//! Ears are seated in acceptors, each with a reader of the live board, and rise from them again.
//!
//! The desk, served over acceptors: `serve` with a desk as its host, on each connection a session.
//!
//! A crew with whom a desk may be shared (`DeskCrew`) makes a desk of itself, a keeper and the live board's writer,
//! and puts the keeper under one lock and the rest under another. The sessions of all acceptors take the keeper's lock
//! for one call at a time. A POST takes the other until its day is imported: so POSTs wait for one another's imports,
//! and for nothing else of one another, and who asks for a kept day waits for none of them. Live accounts are answered
//! by each acceptor's own reader, and wait for nobody.
//!
//! The words of the server: what each list of words means, if it means a way to serve.
//!
//! The grammar is that of the office's commands, for words with no command: a port, and then options in any order.
//! `clap` does the reading, and the definitions know nothing of it.
#![tactic(auto)]

mod attending;
mod counting;
mod desk_crew;
mod door;
mod ear;
mod ears;
mod ending;
mod inline_desk;
mod laws;
mod mem_calls;
mod mem_door;
mod opening;
mod seats;
mod served_words;
mod serving;
mod shared_desk;
mod shared_room;
mod table;
mod tcp_door;
mod tcp_ear;
mod tcp_turn;
mod thread_desk;
mod threads;
mod words;

pub use desk_crew::DeskCrew;
pub use door::{Door, DoorFault};
pub use ear::Ear;
pub use ears::Ears;
pub use ending::ServerEnd;
pub use laws::{spelling_law, words_law};
pub use mem_door::MemDoor;
pub use seats::{rise, seat};
pub use serve_loops::{Acceptor, Acceptors, Listener, MemListener, NoTurn, ServeEnd, Turn, serve};
pub use served_words::Serving;
pub use serving::serve_words;
pub use shared_desk::SharedDesk;
pub use tcp_door::TcpDoor;
pub use tcp_ear::TcpEar;
pub use tcp_turn::TcpTurn;
pub use threads::serve_in_threads;
pub use words::read_words;
