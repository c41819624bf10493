// The loops of all acceptors.
ghost use Rattle.std.specs.Prelude.{◌≡◌, ◌≤◌, ◌<◌, ◌+◌, ◌++◌, ◌∷◌, [], ℕ, length, vec_len, vec_capacity, All};
ghost use denote.Param.Send.{IsSync, IsSend};
ghost use Rattle.serve_loops.specs.Wires.{wire_by};
ghost use Rattle.serve_loops.specs.Acceptors.{AcceptorRan, RanAll, TurnOf};

use crate::acceptor::Acceptor;
use crate::begun::heed;
use crate::host::Host;
use crate::listener::Listener;
use crate::stub::Stub;
use crate::tickets::{Draws, Tickets};
use std::alloc::Global;
use std::sync::atomic::{AtomicBool, Ordering};
use std::sync::ledger::Ledger;
use std::sync::{Mutex, Wait};
use std::thread::{Threads, join};

/// Runs the loop of an acceptor that accepted nothing, with a stub of nothing.
fn run_acceptor<N: Listener, Q: Drop, H: Host<Q>, D: Draws, E: Ledger, R: Wait>(
    rt: &R,
    alloc: Global,
    host: &H,
    stop: &AtomicBool,
    tickets: &Mutex<Tickets<D, E>>,
    acceptor: Acceptor<N, Q>,
    stub: Stub<D, E>,
) -> (Acceptor<N, Q>, Stub<D, E>)
    requires drawn { stub.drawn.parts ≡ 1 }
    requires ends { stub.ends.parts ≡ 1 }
    requires unused { stub.drawn.amount ≡ 0 }
    requires fresh { N.accepted acceptor.listener ≡ 0 }
    ensures ran { AcceptorRan N.faults N.accepted H.follows
        (TurnOf N.gives N.takes (wire_by N.Line.left N.Line.plan N.Line.written N.Line.room N.Line.faults)
        (H.attends host.now))
        acceptor result.0 result.1.drawn.amount result.1.ends.amount }
    ensures drawn { result.1.drawn.parts ≡ 1 }
    ensures ends { result.1.ends.parts ≡ 1 }
{
    let mut acceptor = acceptor;
    let mut stub = stub;
    acceptor.run(rt, alloc, host, stop, tickets, &mut stub);
    (acceptor, stub)
}

/// Puts an acceptor and its stub behind those that ran.
fn put_behind<N: Listener, Q, D: Ledger, E: Ledger>(
    acceptors: Vec<Acceptor<N, Q>>,
    stub: Stub<D, E>,
    last: Acceptor<N, Q>,
    own: Stub<D, E>,
) -> (Vec<Acceptor<N, Q>>, Stub<D, E>)
    requires room { vec_len acceptors < vec_capacity acceptors }
    ensures acceptors { result.0.items ≡ acceptors.items ++ last ∷ [] }
    ensures room { vec_capacity acceptors ≤ vec_capacity result.0 }
    ensures drawn_parts { result.1.drawn.parts ≡ stub.drawn.parts + own.drawn.parts }
    ensures ends_parts { result.1.ends.parts ≡ stub.ends.parts + own.ends.parts }
    ensures drawn { result.1.drawn.amount ≡ stub.drawn.amount + own.drawn.amount }
    ensures ends { result.1.ends.amount ≡ stub.ends.amount + own.ends.amount }
{
    let mut acceptors = acceptors;
    let mut stub = stub;
    stub.merge(own);
    match acceptors.push(last) {
        Ok(()) => (acceptors, stub),
        Err(_) => unreachable!(),
    }
}

/// Runs the loop of the last acceptor in a thread of its own, and beside it the loops of the others. Where that thread
/// cannot be had all loops stop.
#[cycle(acceptors)]
fn run_beside<
    N: Listener + Drop + Send,
    Q: Drop + Send,
    H: Host<Q> + Sync,
    D: Draws + Send + Sync,
    E: Ledger + Send + Sync,
    R: Threads + Wait + Sync,
>(
    rt: &R,
    alloc: Global,
    host: &H,
    stop: &AtomicBool,
    tickets: &Mutex<Tickets<D, E>>,
    acceptors: Vec<Acceptor<N, Q>>,
    stub: Stub<D, E>,
    last: Acceptor<N, Q>,
    own: Stub<D, E>,
) -> (Vec<Acceptor<N, Q>>, Stub<D, E>)
    requires own { (own.drawn.parts ≡ 1) × (own.ends.parts ≡ 1) × (own.drawn.amount ≡ 0) }
    requires last { N.accepted last.listener ≡ 0 }
    requires drawn { stub.drawn.parts ≡ vec_len acceptors }
    requires ends { stub.ends.parts ≡ vec_len acceptors }
    requires unused { (stub.drawn.amount ≡ 0) × (stub.ends.amount ≡ 0) }
    requires fresh { All (λ acceptor. N.accepted acceptor.listener ≡ 0) acceptors.items }
    requires room { vec_len acceptors < vec_capacity acceptors }
    ensures ran { RanAll N.faults N.accepted H.follows
        (TurnOf N.gives N.takes (wire_by N.Line.left N.Line.plan N.Line.written N.Line.room N.Line.faults)
        (H.attends host.now))
        (acceptors.items ++ last ∷ []) result.0.items
        result.1.drawn.amount result.1.ends.amount }
    ensures len { vec_len result.0 ≡ vec_len acceptors + 1 }
    ensures drawn { result.1.drawn.parts ≡ stub.drawn.parts + 1 }
    ensures ends { result.1.ends.parts ≡ stub.ends.parts + 1 }
    ensures room { vec_capacity acceptors ≤ vec_capacity result.0 }
{
    let begun = AtomicBool::new(false);
    let begun = &begun;
    let ((last, own), (acceptors, stub)) = join(
        rt,
        move || -> (Acceptor<N, Q>, Stub<D, E>)
            requires { (own.drawn.parts ≡ 1) × (own.ends.parts ≡ 1) × (own.drawn.amount ≡ 0)
                × (N.accepted last.listener ≡ 0) }
            ensures ran { AcceptorRan N.faults N.accepted H.follows
                (TurnOf N.gives N.takes (wire_by N.Line.left N.Line.plan N.Line.written N.Line.room N.Line.faults)
                (H.attends host.entry.now))
                last result.0 result.1.drawn.amount result.1.ends.amount }
            ensures parts { (result.1.drawn.parts ≡ 1) × (result.1.ends.parts ≡ 1) }
        {
            begun.store(true, Ordering::SeqCst);
            run_acceptor(rt, alloc, host, stop, tickets, last, own)
        },
        move || -> (Vec<Acceptor<N, Q>>, Stub<D, E>)
            requires bounds { IsSync R.row × IsSync H.row × IsSend Q.row × IsSend N.row × IsSend N.Line.row
                × IsSend N.Line.Out.row × IsSend N.Pass.row × IsSend D.row × IsSend E.row × IsSync D.row × IsSync E.row }
            requires drawn { stub.drawn.parts ≡ vec_len acceptors }
            requires ends { stub.ends.parts ≡ vec_len acceptors }
            requires unused { (stub.drawn.amount ≡ 0) × (stub.ends.amount ≡ 0) }
            requires fresh { All (λ acceptor. N.accepted acceptor.listener ≡ 0) acceptors.items }
            ensures ran { RanAll N.faults N.accepted H.follows
                (TurnOf N.gives N.takes (wire_by N.Line.left N.Line.plan N.Line.written N.Line.room N.Line.faults)
                (H.attends host.entry.now))
                acceptors.items result.0.items
                result.1.drawn.amount result.1.ends.amount }
            ensures len { vec_len result.0 ≡ vec_len acceptors }
            ensures drawn { result.1.drawn.parts ≡ stub.drawn.parts }
            ensures ends { result.1.ends.parts ≡ stub.ends.parts }
            ensures room { vec_capacity acceptors ≤ vec_capacity result.0 }
        {
            heed(begun, stop, acceptors.len());
            run_all(rt, alloc, host, stop, tickets, acceptors, stub)
        },
    );
    put_behind(acceptors, stub, last, own)
}

/// Runs the loops of acceptors that accepted nothing, each in a thread of its own. The stub has a part for each.
#[cycle(acceptors)]
pub fn run_all<
    N: Listener + Drop + Send,
    Q: Drop + Send,
    H: Host<Q> + Sync,
    D: Draws + Send + Sync,
    E: Ledger + Send + Sync,
    R: Threads + Wait + Sync,
>(
    rt: &R,
    alloc: Global,
    host: &H,
    stop: &AtomicBool,
    tickets: &Mutex<Tickets<D, E>>,
    acceptors: Vec<Acceptor<N, Q>>,
    stub: Stub<D, E>,
) -> (Vec<Acceptor<N, Q>>, Stub<D, E>)
    requires drawn { stub.drawn.parts ≡ vec_len acceptors }
    requires ends { stub.ends.parts ≡ vec_len acceptors }
    requires unused { (stub.drawn.amount ≡ 0) × (stub.ends.amount ≡ 0) }
    requires fresh { All (λ acceptor. N.accepted acceptor.listener ≡ 0) acceptors.items }
    ensures ran { RanAll N.faults N.accepted H.follows
        (TurnOf N.gives N.takes (wire_by N.Line.left N.Line.plan N.Line.written N.Line.room N.Line.faults)
        (H.attends host.now))
        acceptors.items result.0.items result.1.drawn.amount result.1.ends.amount }
    ensures len { vec_len result.0 ≡ vec_len acceptors }
    ensures drawn { result.1.drawn.parts ≡ stub.drawn.parts }
    ensures ends { result.1.ends.parts ≡ stub.ends.parts }
    ensures room { vec_capacity acceptors ≤ vec_capacity result.0 }
{
    let mut acceptors = acceptors;
    let mut stub = stub;
    let Some(last) = acceptors.pop() else {
        return (acceptors, stub);
    };
    let own = stub.part();
    run_beside(rt, alloc, host, stop, tickets, acceptors, stub, last, own)
}
