// Tickets, one for each connection that a call may accept in all: loops draw one before they accept.
ghost use Rattle.std.specs.Prelude.{◌≡◌, ℕ, ◌+◌, ◌^◌, ◌<◌, ◌≤◌, true, false};

use crate::stub::Stub;
use std::marker::Brand;
use std::sync::ledger::{Book, Ledger};
use std::sync::{Mutex, Wait};

/// A ledger of what is drawn of a number of tickets.
pub trait Draws: Ledger {
    /// The tickets in all.
    ghost tickets: { ℕ };
}

/// The tickets that are left. What was drawn is counted, and how often none was found.
#[derive(Drop)]
pub struct Tickets<D: Draws, E: Ledger> {
    pub left: u64,
    pub drawn: Book<D>,
    pub ends: Book<E>,
    ghost counted: { left + drawn.total ≡ D.tickets },
    ghost fits: { D.tickets < 2 ^ 64 },
    ghost over: { 0 < ends.total → left ≡ 0 },
}

impl<D: Draws, E: Ledger> Tickets<D, E> {
    /// Draws a ticket, if one is left.
    pub fn draw(&mut self, stub: &mut Stub<D, E>) -> bool
        requires drawn { 0 < stub.old.drawn.parts }
        requires ends { 0 < stub.old.ends.parts }
        ensures drawn { result ≡ true → stub.new.drawn.amount ≡ stub.old.drawn.amount + 1 }
        ensures few { stub.new.drawn.amount < 2 ^ 64 }
        ensures none { result ≡ false → stub.new.drawn.amount ≡ stub.old.drawn.amount }
        ensures ends { result ≡ false → 0 < stub.new.ends.amount }
        ensures drawn_parts { stub.new.drawn.parts ≡ stub.old.drawn.parts }
        ensures ends_parts { stub.new.ends.parts ≡ stub.old.ends.parts }
    {
        let Tickets { left, drawn, ends } = self;
        if *left == 0 {
            drawn.audit(&mut stub.drawn);
            ends.add(&mut stub.ends, 1);
            return false;
        }
        *left -= 1;
        drawn.add(&mut stub.drawn, 1);
        drawn.audit(&mut stub.drawn);
        true
    }

    /// All were drawn, if the whole stub tells that none was found.
    pub fn settle(&mut self, all: &mut Stub<D, E>)
        requires drawn { all.old.drawn.parts ≡ D.parts }
        requires ends { all.old.ends.parts ≡ E.parts }
        ensures same { all.new.drawn.amount ≡ all.old.drawn.amount }
        ensures within { all.old.drawn.amount ≤ D.tickets }
        ensures over { 0 < all.old.ends.amount → all.old.drawn.amount ≡ D.tickets }
    {
        let Tickets {
            left: _,
            drawn,
            ends,
        } = self;
        drawn.audit(&mut all.drawn);
        ends.audit(&mut all.ends);
    }
}

/// Draws a ticket, if one is left.
pub fn draw<D: Draws, E: Ledger, R: Wait>(
    rt: &R,
    tickets: &Mutex<Tickets<D, E>>,
    stub: &mut Stub<D, E>,
) -> bool
    requires drawn { 0 < stub.old.drawn.parts }
    requires ends { 0 < stub.old.ends.parts }
    ensures drawn { result ≡ true → stub.new.drawn.amount ≡ stub.old.drawn.amount + 1 }
    ensures few { stub.new.drawn.amount < 2 ^ 64 }
    ensures none { result ≡ false → stub.new.drawn.amount ≡ stub.old.drawn.amount }
    ensures ends { result ≡ false → 0 < stub.new.ends.amount }
    ensures drawn_parts { stub.new.drawn.parts ≡ stub.old.drawn.parts }
    ensures ends_parts { stub.new.ends.parts ≡ stub.old.ends.parts }
{
    tickets.lock(rt).draw(stub)
}

impl Draws for Brand {
    ghost tickets = { 0 };
}
