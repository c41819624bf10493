// What an acceptor holds of the tickets.
ghost use Rattle.std.specs.Prelude.{◌≡◌, ◌+◌, ◌≤◌};

use std::sync::ledger::{Ledger, Share};

/// An acceptor's share of the ledgers of tickets: what it drew, and how often it found none. It takes no bytes.
#[derive(Drop)]
pub struct Stub<D: Ledger, E: Ledger> {
    pub drawn: Share<D>,
    pub ends: Share<E>,
}

impl<D: Ledger, E: Ledger> Stub<D, E> {
    /// Gives one part away, with no amount.
    pub fn part(&mut self) -> Stub<D, E>
        requires drawn { 1 ≤ self.old.drawn.parts }
        requires ends { 1 ≤ self.old.ends.parts }
        requires none { self.old.drawn.amount ≡ 0 }
        requires no_end { self.old.ends.amount ≡ 0 }
        ensures drawn { (result.drawn.parts ≡ 1) × (result.drawn.amount ≡ 0) }
        ensures ends { (result.ends.parts ≡ 1) × (result.ends.amount ≡ 0) }
        ensures drawn_left { (self.new.drawn.parts + 1 ≡ self.old.drawn.parts) × (self.new.drawn.amount ≡ 0) }
        ensures ends_left { (self.new.ends.parts + 1 ≡ self.old.ends.parts) × (self.new.ends.amount ≡ 0) }
    {
        Stub {
            drawn: self.drawn.split_off(1, 0),
            ends: self.ends.split_off(1, 0),
        }
    }

    /// Takes another stub in.
    pub fn merge(&mut self, other: Stub<D, E>)
        ensures drawn_parts { self.new.drawn.parts ≡ self.old.drawn.parts + other.drawn.parts }
        ensures ends_parts { self.new.ends.parts ≡ self.old.ends.parts + other.ends.parts }
        ensures drawn { self.new.drawn.amount ≡ self.old.drawn.amount + other.drawn.amount }
        ensures ends { self.new.ends.amount ≡ self.old.ends.amount + other.ends.amount }
    {
        let Stub { drawn, ends } = other;
        self.drawn.merge(drawn);
        self.ends.merge(ends);
    }
}
