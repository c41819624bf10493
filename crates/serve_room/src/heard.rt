// A listener with its address.
ghost use Rattle.std.specs.Prelude.{◌≡◌, IfOk};
ghost use Rattle.serve_room.specs.OwnPorts.{IsOwnPort};

use mio::net::TcpListener;
use std::io;
use std::net::{IpAddr, Ipv4Addr, SocketAddr};
use std::rt::HostRuntime;

/// A listener, and the address that it was bound to.
#[derive(Drop)]
pub(crate) struct Heard {
    pub(crate) listener: TcpListener,
    pub(crate) at: SocketAddr,
}

/// The address of a port of 127.0.0.1, which this machine alone reaches.
fn own_port(port: u16) -> SocketAddr
    ensures { IsOwnPort result port }
{
    SocketAddr::new(IpAddr::V4(Ipv4Addr::new(127, 0, 0, 1)), port)
}

impl Heard {
    /// Listens at an address.
    fn bind(rt: &HostRuntime, at: SocketAddr) -> io::Result<Heard>
        ensures { IfOk result (λ heard. heard.at ≡ at) }
    {
        match TcpListener::bind(rt, at) {
            Ok(listener) => Ok(Heard { listener, at }),
            Err(fault) => Err(fault),
        }
    }

    /// Listens on a port of this machine, for this machine alone.
    pub(crate) fn own(rt: &HostRuntime, port: u16) -> io::Result<Heard>
        ensures { IfOk result (λ heard. IsOwnPort heard.at port) }
    {
        Heard::bind(rt, own_port(port))
    }
}
