// Serving a number of connections.
ghost use Rattle.std.specs.Prelude.{◌≡◌, ◌≤◌, ◌↔◌, true, false, length, vec_len, All};
ghost use Rattle.std.specs.List.{AllZip, list_any};
ghost use Rattle.serve_loops.specs.Wires.{wire_by};
ghost use Rattle.serve_loops.specs.Acceptors.{AcceptorServes, HasFailedAcceptor, AnyRose, accepted_in_all, TurnOf, AcceptorTurned};
ghost use Rattle.serve_loops.specs.declared.serve_end.ServeEnd.TheVariants.{Served, ListenFault};

use crate::acceptor::Acceptor;
use crate::acceptors::Acceptors;
use crate::host::Host;
use crate::listener::Listener;
use crate::running::run_all;
use crate::serve_end::ServeEnd;
use crate::stub::Stub;
use crate::tickets::{Draws, Tickets};
use std::alloc::Global;
use std::marker::Brand;
use std::sync::atomic::AtomicBool;
use std::sync::ledger::{Blank, Ledger};
use std::sync::{Mutex, Wait};
use std::thread::Threads;

/// Runs the loops of acceptors over so many tickets, by two new ledgers.
fn run_over<
    N: Listener + Drop + Send,
    Q: Drop + Send,
    H: Host<Q> + Sync,
    D: Draws + Send + Sync,
    E: Ledger + Send + Sync,
    R: Threads + Wait + Sync,
>(
    rt: &R,
    alloc: Global,
    acceptors: Vec<Acceptor<N, Q>>,
    host: &H,
    sessions: u64,
    drawn: Blank,
    ends: Blank,
) -> Vec<Acceptor<N, Q>>
    requires drawn_name { drawn.name ≡ D.name }
    requires ends_name { ends.name ≡ E.name }
    requires drawn_parts { (drawn.parts ≡ D.parts) × (D.parts ≡ vec_len acceptors) }
    requires ends_parts { (ends.parts ≡ E.parts) × (E.parts ≡ vec_len acceptors) }
    requires tickets { sessions ≡ D.tickets }
    requires some { 1 ≤ vec_len acceptors }
    requires fresh { All (λ acceptor. N.accepted acceptor.listener ≡ 0) acceptors.items }
    ensures acceptors { AllZip (AcceptorServes N.faults H.follows) acceptors.items result.items }
    ensures turns { AllZip (AcceptorTurned N.accepted
        (TurnOf N.gives N.takes (wire_by N.Line.left N.Line.plan N.Line.written N.Line.room N.Line.faults)
        (H.attends host.now))) acceptors.items result.items }
    ensures within { accepted_in_all N.accepted result.items ≤ sessions }
    ensures served { list_any (λ acceptor. acceptor.failed) result.items ≡ false
        → accepted_in_all N.accepted result.items ≡ sessions }
{
    let (drawn, of_drawn) = drawn.open::<D>();
    let (ends, of_ends) = ends.open::<E>();
    let tickets = Mutex::new(Tickets {
        left: sessions,
        drawn,
        ends,
    });
    let stub = Stub {
        drawn: of_drawn,
        ends: of_ends,
    };
    let stop = AtomicBool::new(false);
    let (acceptors, stub) = run_all(rt, alloc, host, &stop, &tickets, acceptors, stub);
    let mut stub = stub;
    tickets.into_inner().settle(&mut stub);
    acceptors
}

/// Whether an acceptor failed.
fn has_failed<N, Q>(acceptors: &[Acceptor<N, Q>]) -> bool
    ensures { result ≡ list_any (λ acceptor. acceptor.failed) acceptors.now }
{
    acceptors.iter().any(|acceptor| acceptor.failed)
}

/// Serves `sessions` connections over 1 to 64 acceptors, whose listeners have accepted none: a loop for each acceptor, in a
/// thread of its own, with the host on each connection. A loop ends where no connection is left to accept, or where its
/// listener fails. Where a thread cannot be had all listeners give up. It waits.
pub fn serve<
    N: Listener + Drop + Send,
    Q: Drop + Send,
    H: Host<Q> + Sync,
    R: Threads + Wait + Sync,
>(rt: &R, alloc: Global, acceptors: &mut Acceptors<N, Q>, host: &H, sessions: u64) -> ServeEnd
    requires some { 1 ≤ length acceptors.old }
    requires few { length acceptors.old ≤ 64 }
    requires fresh { All (λ acceptor. N.accepted acceptor.listener ≡ 0) acceptors.old }
    ensures acceptors { AllZip (AcceptorServes N.faults H.follows) acceptors.old acceptors.new }
    ensures turns { AllZip (AcceptorTurned N.accepted
        (TurnOf N.gives N.takes (wire_by N.Line.left N.Line.plan N.Line.written N.Line.room N.Line.faults)
        (H.attends host.now))) acceptors.old acceptors.new }
    ensures end { (result ≡ ListenFault) ↔ HasFailedAcceptor acceptors.new }
    ensures cause { result ≡ ListenFault → AnyRose N.faults acceptors.old acceptors.new }
    ensures served { result ≡ Served → accepted_in_all N.accepted acceptors.new ≡ sessions }
    ensures fault { result ≡ ListenFault → accepted_in_all N.accepted acceptors.new ≤ sessions }
{
    let all = acceptors.take(alloc);
    let parts = all.len() as u64;
    let done = run_over::<N, Q, H, Brand, Brand, R>(
        rt,
        alloc,
        all,
        host,
        sessions,
        Blank::new(parts),
        Blank::new(parts),
    );
    let failed = has_failed(done.as_slice());
    *acceptors = Acceptors::from_vec(done);
    if failed {
        ServeEnd::ListenFault
    } else {
        ServeEnd::Served
    }
}
