// Doors, the ears behind them, and acceptors of ears.
ghost use Rattle.std.specs.Prelude.{◌≡◌, ◌∷◌, ◌+◌, ◌≤◌, ◌<◌, [], IfOk, IfSome, map, length, vec_len, vec_capacity};
ghost use Rattle.serve_loops.specs.MemListeners.{accepted_by, faults_of};
ghost use Rattle.serve_top.specs.MemDoors.{accepted_at};

use road_io::{Link, MemLink};
use road_time::NoMemory;
use serve_board::{Board, Readers, board};
use serve_loops::{Acceptor, Acceptors, Listener, MemListener, Turn};
use serve_top::{Door, DoorFault, Ear, Ears, MemDoor, TcpDoor, TcpEar, rise};
use std::alloc::{AllocError, Global};
use std::io;
use std::io::{Read, Write};
use std::net::{SocketAddr, TcpListener, TcpStream};
use std::sync::Wait;

/// A listener with one connection.
fn listener_of(alloc: Global) -> Result<MemListener, NoMemory>
    ensures { IfOk result (λ l. (accepted_by l ≡ 0) × (faults_of l ≡ 0)) }
{
    let mut links = Vec::new(alloc);
    links.push(MemLink::new(alloc, b"GET /live HTTP/1.1\r\n\r\n", 100, 1000, &[])?)?;
    MemListener::new(alloc, links, &[])
}

/// A door with two listeners.
fn door_of(alloc: Global) -> Result<MemDoor, NoMemory>
    ensures { IfOk result (λ door. accepted_at door ≡ 0) }
{
    let mut ears = Vec::new(alloc);
    ears.push(listener_of(alloc)?)?;
    ears.push(listener_of(alloc)?)?;
    Ok(MemDoor::new(ears, false))
}

/// Why a door was not opened.
fn refusal<N: Drop>(opened: Result<Ears<N>, DoorFault>) -> Option<DoorFault> {
    match opened {
        Ok(_) => None,
        Err(fault) => Some(fault),
    }
}

/// The ear, where there is one.
fn only<N: Drop>(ears: Ears<N>) -> Option<N>
    requires { length ears ≡ 1 }
    ensures { IfSome result (λ ear. ears ≡ ear ∷ []) }
{
    let mut ears = ears.into_vec();
    ears.pop()
}

/// One ear.
fn ears_of<N: Drop>(alloc: Global, ear: N) -> Result<Ears<N>, AllocError>
    ensures { IfOk result (λ ears. ears ≡ ear ∷ []) }
{
    let mut ears = Vec::new(alloc);
    ears.push(ear)?;
    Ok(Ears::from_vec(ears))
}

/// What an ear counts, accepted and failed, after it was to accept once more.
fn count_next<N: Ear>(ear: &mut N) -> (u64, u64)
    requires { N.Listener.accepted ear.old < 9 }
    ensures { N.Listener.accepted ear.new ≤ N.Listener.accepted ear.old + 1 }
{
    if let Ok(line) = ear.accept() {
        ear.end(line);
    }
    (ear.accepted(), ear.faults())
}

/// An acceptor for each ear, with a reader of its own, in their order. There is to be room for them.
fn seat_each<N: Drop, Q: Drop>(
    room: Vec<Acceptor<N, Q>>,
    ears: Ears<N>,
    readers: Vec<Q>,
) -> Acceptors<N, Q>
    requires empty { room.items ≡ [] }
    requires none { vec_len room ≡ 0 }
    requires room { length ears ≤ vec_capacity room }
    requires readers { vec_len readers ≡ length ears }
    ensures { map (λ acceptor. acceptor.listener) result ≡ ears }
{
    let mut acceptors = room;
    let mut readers = readers;
    for listener in ears.into_vec() {
        let Some(reader) = readers.pop() else {
            unreachable!()
        };
        acceptors.push_reserved(Acceptor {
            listener,
            reader,
            failed: false,
        });
    }
    Acceptors::from_vec(acceptors)
}

/// Ears that sat in acceptors, and rose from them again.
fn seated(
    alloc: Global,
    ears: Ears<MemListener>,
    readers: Readers,
) -> Result<Ears<MemListener>, NoMemory>
    requires few { length ears ≤ 1 }
    requires readers { length readers ≡ length ears }
    ensures { IfOk result (λ risen. risen ≡ ears) }
{
    let room = Vec::with_capacity(alloc, 1)?;
    let back = Vec::with_capacity(alloc, 1)?;
    Ok(rise(back, seat_each(room, ears, readers.into_vec())))
}

/// What an ear of a door counts after each of two calls, of which the second finds no connection.
fn heard(alloc: Global, door: &mut MemDoor) -> Result<[(u64, u64); 2], NoMemory>
    requires { accepted_at door.old ≡ 0 }
    ensures { IfOk result (λ _. accepted_at door.new ≤ 2) }
{
    let Ok(ears) = door.open(alloc, 8080, 1) else {
        return Err(NoMemory);
    };
    let Some(mut ear) = only(ears) else {
        return Err(NoMemory);
    };
    let first = count_next(&mut ear);
    let second = count_next(&mut ear);
    door.close(ears_of(alloc, ear)?);
    Ok([first, second])
}

/// Has a door open an ear, which sits in an acceptor and rises again, and close it; how many ears that were.
fn sat(alloc: Global, door: &mut MemDoor, readers: Readers) -> Result<usize, NoMemory>
    requires few { accepted_at door.old ≤ 2 }
    requires readers { length readers ≡ 1 }
{
    let Ok(ears) = door.open(alloc, 8080, 1) else {
        return Err(NoMemory);
    };
    let ears = seated(alloc, ears, readers)?;
    let count = ears.items().len();
    door.close(ears);
    Ok(count)
}

/// A door gives its two ears, which count what they accept, sit in an acceptor and are closed; then it has none left.
#[test]
fn a_door_gives_its_ears(rt: HostRuntime) -> Result<(), NoMemory> {
    let alloc = rt.alloc();
    let mut door = door_of(alloc)?;
    let many = refusal(door.open(alloc, 8080, 3));
    let heard = heard(alloc, &mut door)?;
    let Board { writer, readers } = board(rt, alloc, 1)?;
    let count = sat(alloc, &mut door, readers);
    writer.end();
    let none = refusal(door.open(alloc, 8080, 1));
    assert_eq!(rt; many, Some(DoorFault::Failed));
    assert_eq!(rt; heard, [(1, 0), (1, 1)]);
    assert_eq!(rt; count?, 1);
    assert_eq!(rt; none, Some(DoorFault::Failed));
    Ok(())
}

/// Whether a client and the connection that an ear accepts of it hear one another, once what it asks is whole.
fn hear_one_another<R: Wait + Copy + Drop + Send>(
    client: &mut TcpStream,
    ear: &mut TcpEar<R>,
) -> io::Result<bool>
    requires { ⟦<TcpEar<R> as Listener>⟧.accepted ear.old ≡ 0 }
    ensures { ⟦<TcpEar<R> as Listener>⟧.accepted ear.new ≤ 1 }
{
    client.write_all(b"GET / HTTP/1.1\r\n\r\n")?;
    let Ok(line) = ear.accept() else {
        return Ok(false);
    };
    let mut line = line;
    let mut asked = [0u8; 32];
    let came = matches!(line.read(&mut asked), Ok(18))
        && asked.starts_with(b"GET / HTTP/1.1\r\n\r\n");
    let went = line.write(b"told").is_ok();
    let mut told = [0u8; 4];
    let heard = client.read_exact(&mut told);
    ear.end(line);
    heard?;
    Ok(came && went && told == *b"told")
}

/// A port that another has is refused. Once it is free an ear hears on it, and accepts a connection.
#[test]
fn a_door_hears_on_a_free_port(rt: HostRuntime) -> io::Result<()> {
    let alloc = rt.alloc();
    let holder = TcpListener::bind(&rt, "127.0.0.1:0")?;
    let address = holder.local_addr()?;
    let mut door = TcpDoor::new(rt, rt);
    let taken = refusal(door.open(alloc, address.port(), 1));
    drop(holder);
    assert_eq!(rt; taken, Some(DoorFault::Failed));
    let Ok(ears) = door.open(alloc, address.port(), 1) else {
        return Err(io::Error::from(io::ErrorKind::AddrInUse));
    };
    let Some(mut ear) = only(ears) else {
        return Err(io::Error::from(io::ErrorKind::NotFound));
    };
    let mut client = TcpStream::connect(&rt, address)?;
    assert!(rt; hear_one_another(&mut client, &mut ear)?);
    assert_eq!(rt; (ear.accepted(), ear.faults()), (1, 0));
    door.close(ears_of(alloc, ear)?);
    Ok(())
}

/// Whether the second of two connections comes once the turn of the first is over, while that is still served.
fn hear_both<R: Wait + Copy + Drop + Send>(ear: &mut TcpEar<R>) -> bool
    requires { ⟦<TcpEar<R> as Listener>⟧.accepted ear.old ≡ 0 }
    ensures { ⟦<TcpEar<R> as Listener>⟧.accepted ear.new ≤ 2 }
{
    let Ok(first) = ear.accept() else {
        return false;
    };
    let mut first = first;
    let mut turn = ear.pass(&mut first);
    turn.over();
    let came = match ear.accept() {
        Ok(second) => {
            ear.end(second);
            true
        }
        Err(_) => false,
    };
    turn.end();
    ear.end(first);
    came
}

/// A client that posted a day to a port, whose body is still to come.
fn post_to(rt: &HostRuntime, address: SocketAddr) -> io::Result<TcpStream> {
    let mut client = TcpStream::connect(rt, address)?;
    client.write_all(b"POST /days/100 HTTP/1.1\r\nContent-Length: 9\r\n\r\n")?;
    Ok(client)
}

/// Of two clients that post a day the second is heard while the first is still served, once its turn is over.
#[test]
fn a_post_whose_turn_is_over_holds_no_other(rt: HostRuntime) -> io::Result<()> {
    let alloc = rt.alloc();
    let holder = TcpListener::bind(&rt, "127.0.0.1:0")?;
    let address = holder.local_addr()?;
    drop(holder);
    let mut door = TcpDoor::new(rt, rt);
    let Ok(ears) = door.open(alloc, address.port(), 4) else {
        return Err(io::Error::from(io::ErrorKind::AddrInUse));
    };
    let mut ears = ears.into_vec();
    let Some(mut ear) = ears.pop() else {
        return Err(io::Error::from(io::ErrorKind::NotFound));
    };
    if ear.accepted() != 0 {
        return Err(io::Error::from(io::ErrorKind::InvalidData));
    }
    let first = post_to(&rt, address)?;
    let second = post_to(&rt, address)?;
    assert!(rt; hear_both(&mut ear));
    assert_eq!(rt; (ear.accepted(), ear.faults()), (2, 0));
    drop(first);
    drop(second);
    door.close(ears_of(alloc, ear)?);
    Ok(())
}
