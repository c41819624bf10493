// One who has a host serve connections in memory.
use road_io::{MemLink, TwoWay};
use road_time::NoMemory;
use serve_loops::{Host, NoTurn};
use std::alloc::Global;

/// One who has a host serve connections.
#[derive(Drop)]
pub struct Caller<'a, H> {
    pub host: &'a H,
}

/// Has its host serve one, with a seat.
pub fn call<Q, H: Host<Q>, L: TwoWay>(
    alloc: Global,
    caller: &mut Caller<'_, H>,
    line: &mut L,
    seat: &mut Q,
) {
    caller.host.attend(alloc, line, &mut NoTurn, seat);
}

/// What a host writes on a connection of these bytes, which come in pieces.
pub fn told<Q, H: Host<Q>>(
    alloc: Global,
    host: &H,
    seat: &mut Q,
    request: &[u8],
    piece: usize,
) -> Result<Vec<u8>, NoMemory> {
    let mut link = MemLink::new(alloc, request, piece.max(1), 40_000, &[])?;
    host.attend(alloc, &mut link, &mut NoTurn, seat);
    let written = Vec::from_slice(alloc, link.bytes())?;
    Ok(written)
}

/// The same where they come in pieces of 100.
pub fn ask<Q, H: Host<Q>>(
    alloc: Global,
    host: &H,
    seat: &mut Q,
    request: &[u8],
) -> Result<Vec<u8>, NoMemory> {
    told(alloc, host, seat, request, 100)
}
