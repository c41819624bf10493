//! Serving a number of connections by loops that share them, a thread for each.
//!
//! An `Acceptor` is what one loop works with: a `Listener` that gives connections, and a reader of the live board. `serve`
//! runs a loop for each of the `Acceptors`. Each turn of a loop draws a ticket, accepts a connection, and has a `Host`
//! serve it. Each ticket is drawn once, by whichever loop comes first: what the acceptors drew is counted by a ledger,
//! whose shares they hold. A second ledger counts the loops that found no ticket left. So where no listener failed,
//! the listeners accepted as many connections in all as there were tickets. A connection is given back to the listener
//! that it came from, and to nobody else; its `Turn`, which one connection at a time has, may be over before that.
//! Where no thread can be had for a loop, all of them stop.
#![tactic(auto)]

mod acceptor;
mod acceptor_loop;
mod acceptors;
mod begun;
mod host;
mod listener;
mod mem_listener;
mod running;
mod serve_end;
mod serving;
mod stub;
mod tickets;
mod turn;

pub use acceptor::Acceptor;
pub use acceptors::Acceptors;
pub use host::Host;
pub use listener::Listener;
pub use mem_listener::MemListener;
pub use serve_end::ServeEnd;
pub use serving::serve;
pub use turn::{NoTurn, Turn};
