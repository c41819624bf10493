// The loop of one acceptor.
ghost use Rattle.std.specs.Prelude.{◌≡◌, ◌+◌, ◌<◌, ◌-◌, ◌^◌, true, false};
ghost use Rattle.serve_loops.specs.Wires.{wire_by};
ghost use Rattle.serve_loops.specs.Acceptors.{AcceptorServes, TurnOf, AcceptorTurned};

use crate::acceptor::Acceptor;
use crate::host::Host;
use crate::listener::Listener;
use crate::stub::Stub;
use crate::tickets::{Draws, Tickets, draw};
use crate::turn::Turn;
use road_io::Failed;
use std::alloc::Global;
use std::sync::atomic::{AtomicBool, Ordering};
use std::sync::ledger::Ledger;
use std::sync::{Mutex, Wait};

impl<N: Listener, Q: Drop> Acceptor<N, Q> {
    /// Accepts a connection, has it served, and gives it back, so that what was answered reaches the client. Its turn
    /// is over then at the latest. Where the listener fails the acceptor failed; so it does where all loops are to stop.
    fn turn<H: Host<Q>>(&mut self, alloc: Global, host: &H, stop: &AtomicBool) -> bool
        requires room { N.accepted self.old.listener < 2 ^ 64 - 1 }
        requires goes { self.old.failed ≡ false }
        ensures serves { AcceptorServes N.faults H.follows self.old self.new }
        ensures accepts { result ≡ true → N.accepted self.new.listener ≡ N.accepted self.old.listener + 1 }
        ensures refuses { result ≡ false → N.accepted self.new.listener ≡ N.accepted self.old.listener }
        ensures turns { result ≡ true
            → TurnOf N.gives N.takes (wire_by N.Line.left N.Line.plan N.Line.written N.Line.room N.Line.faults)
            (H.attends host.now) self.old.listener self.old.reader self.new.listener self.new.reader }
        ensures stays { result ≡ false → self.new.reader ≡ self.old.reader }
        ensures failed { self.new.failed ≡ true → result ≡ false }
        ensures goes { self.new.failed ≡ false → result ≡ true }
    {
        if stop.load(Ordering::SeqCst) {
            self.listener.give_up();
            self.failed = true;
            return false;
        }
        match self.listener.accept() {
            Ok(line) => {
                let mut line = line;
                let mut pass = self.listener.pass(&mut line);
                host.attend(alloc, &mut line, &mut pass, &mut self.reader);
                pass.end();
                self.listener.end(line);
                true
            }
            Err(Failed) => {
                self.failed = true;
                false
            }
        }
    }

    /// Turns, until no ticket is left, the listener fails or all loops are to stop.
    #[tactic(auto, using(crate::proofs::AcceptorLaws::no_turn, crate::proofs::AcceptorLaws::failed_turn))]
    pub fn run<H: Host<Q>, D: Draws, E: Ledger, R: Wait>(
        &mut self,
        rt: &R,
        alloc: Global,
        host: &H,
        stop: &AtomicBool,
        tickets: &Mutex<Tickets<D, E>>,
        stub: &mut Stub<D, E>,
    )
        requires drawn { 0 < stub.old.drawn.parts }
        requires ends { 0 < stub.old.ends.parts }
        requires fresh { N.accepted self.old.listener ≡ stub.old.drawn.amount }
        ensures serves { AcceptorServes N.faults H.follows self.old self.new }
        ensures turned { AcceptorTurned N.accepted
            (TurnOf N.gives N.takes (wire_by N.Line.left N.Line.plan N.Line.written N.Line.room N.Line.faults)
            (H.attends host.now)) self.old self.new }
        ensures served { self.new.failed ≡ false → N.accepted self.new.listener ≡ stub.new.drawn.amount }
        ensures over { self.new.failed ≡ false → 0 < stub.new.ends.amount }
        ensures failed { self.new.failed ≡ true → N.accepted self.new.listener + 1 ≡ stub.new.drawn.amount }
        ensures drawn_parts { stub.new.drawn.parts ≡ stub.old.drawn.parts }
        ensures ends_parts { stub.new.ends.parts ≡ stub.old.ends.parts }
    {
        self.failed = false;
        while draw(rt, tickets, stub) {
            if !self.turn(alloc, host, stop) {
                return;
            }
        }
    }
}
