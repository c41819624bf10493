// A door on a port of this machine.
ghost use Rattle.std.specs.Prelude.{◌≡◌, ◌≢◌, ◌≤◌, ◌<◌, ◌^◌, ◌+◌, All, Err, IfOk, OnOk, length, max};
ghost use Rattle.road_io.specs.Faults.{Rose};
ghost use Rattle.serve_room.specs.OwnPorts.{IsOwnPort};
ghost use Rattle.serve_top.specs.Doors.{accepted_in, has_fault, counted_where};
ghost use Rattle.serve_top.specs.TcpDoors.{accepted_by, faults_of, HearsAt, refused_by, faults_at, accepted_at};
ghost use Rattle.serve_top.specs.declared.door.DoorFault.TheVariants.{Failed};

use crate::counting::counted;
use crate::door::{Door, DoorFault};
use crate::ears::Ears;
use crate::shared_room::SharedRoom;
use crate::tcp_ear::TcpEar;
use serve_room::{RoomFault, WaitingRoom};
use std::alloc::Global;
use std::rt::HostRuntime;
use std::sync::Wait;

/// Hears on a port of 127.0.0.1, which only this machine reaches. All its ears hear in one waiting room.
#[derive(Drop)]
pub struct TcpDoor<R> {
    host: HostRuntime,
    rt: R,
    refused: u64,
    faults: u64,
    accepted: u64,
}

impl<R> TcpDoor<R> {
    /// Nothing is open.
    pub fn new(host: HostRuntime, rt: R) -> TcpDoor<R>
        ensures { (refused_by result ≡ 0) × (faults_at result ≡ 0) × (accepted_at result ≡ 0) }
    {
        TcpDoor {
            host,
            rt,
            refused: 0,
            faults: 0,
            accepted: 0,
        }
    }
}

/// One more ear.
fn add<R: Drop>(ears: &mut Vec<TcpEar<R>>, ear: TcpEar<R>, port: u16) -> Result<(), DoorFault>
    requires fresh { All (λ ear. (accepted_by ear ≡ 0) × (faults_of ear ≡ 0)) ears.old.items }
    requires unused { (accepted_by ear ≡ 0) × (faults_of ear ≡ 0) }
    requires hears { All (λ ear. HearsAt ear port) ears.old.items }
    requires own { HearsAt ear port }
    ensures count { OnOk result (length ears.new.items ≡ length ears.old.items + 1) }
    ensures fresh { OnOk result (All (λ ear. (accepted_by ear ≡ 0) × (faults_of ear ≡ 0)) ears.new.items) }
    ensures hears { OnOk result (All (λ ear. HearsAt ear port) ears.new.items) }
    ensures memory { result ≢ Err Failed }
{
    let Ok(()) = ears.push(ear) else {
        return Err(DoorFault::NoMemory);
    };
    Ok(())
}

/// How many of so many ears may be busy with connections that post a day, and how many with those that ask for what is
/// kept: one at least, and of three and more all but two. As one more may be with both together, one ear is always free for
/// all others.
fn most_out(count: u8) -> usize
    requires { 1 ≤ count }
    ensures one { count ≤ 3 → result ≡ 1 }
    ensures free { 3 ≤ count → result + 2 ≡ count }
{
    count.saturating_sub(2).max(1) as usize
}

/// A room on a port, which so many ears share: all of them but one may be busy with connections for which others wait.
fn open_room(
    host: HostRuntime,
    alloc: Global,
    port: u16,
    count: u8,
) -> Result<SharedRoom, DoorFault>
    requires { 1 ≤ count }
    ensures { IfOk result (λ shared. IsOwnPort shared.at port) }
{
    let room = match WaitingRoom::open(host, alloc, port, most_out(count)) {
        Ok(room) => room,
        Err(RoomFault::Failed) => return Err(DoorFault::Failed),
        Err(RoomFault::NoMemory) => return Err(DoorFault::NoMemory),
    };
    match SharedRoom::new(alloc, room) {
        Ok(shared) => Ok(shared),
        Err(_) => Err(DoorFault::NoMemory),
    }
}

/// Ears on one port, all in one room.
fn listen<R: Copy + Drop>(
    host: HostRuntime,
    rt: R,
    alloc: Global,
    port: u16,
    count: u8,
) -> Result<Ears<TcpEar<R>>, DoorFault>
    requires { 1 ≤ count }
    ensures count { IfOk result (λ opened. length opened ≡ count) }
    ensures fresh { IfOk result (All (λ ear. (accepted_by ear ≡ 0) × (faults_of ear ≡ 0))) }
    ensures hears { IfOk result (All (λ ear. HearsAt ear port)) }
{
    let room = open_room(host, alloc, port, count)?;
    let mut ears = Vec::new(alloc);
    for _ in 1..count {
        let Ok(again) = room.again() else {
            return Err(DoorFault::NoMemory);
        };
        add(&mut ears, TcpEar::new(rt, alloc, again), port)?;
    }
    add(&mut ears, TcpEar::new(rt, alloc, room), port)?;
    Ok(Ears::from_vec(ears))
}

/// How many connections ears accepted in all.
fn accepted_by_all<R>(ears: &[TcpEar<R>]) -> u64
    requires { accepted_in accepted_by ears.now < 2 ^ 64 }
    ensures { result ≡ accepted_in accepted_by ears.now }
{
    let mut accepted = 0;
    for ear in ears {
        accepted += ear.accepted;
    }
    accepted
}

/// Whether an ear failed.
fn any_failed<R>(ears: &[TcpEar<R>]) -> bool
    ensures { result ≡ has_fault faults_of ears.now }
{
    ears.iter().any(|ear| ear.faults > 0)
}

/// Drops what still comes of the connections that ears gave back, so that the last answers reach their clients too.
fn drain_all<R: Wait>(ears: &[TcpEar<R>]) {
    if let Some(ear) = ears.first() {
        ear.room.drain_all(&ear.rt);
    }
}

impl<R: Wait + Copy + Drop + Send + Sync> Door for TcpDoor<R> {
    type Ear = TcpEar<R>;

    ghost refused = { refused_by };

    ghost faults = { faults_at };

    ghost accepted = { accepted_at };

    ghost acceptors_for = { λ readers. max readers 6 };

    ghost hears = { HearsAt };

    /// Six at least: one for a day that is posted, three for what is left of other POSTs, one for who asks for what is kept,
    /// and one that is always free for all others.
    fn acceptors(&self, readers: u8) -> u8 {
        readers.max(6)
    }

    fn open(&mut self, alloc: Global, port: u16, ears: u8) -> Result<Ears<TcpEar<R>>, DoorFault>
        requires some { 1 ≤ ears }
        requires few { ears ≤ 64 }
        ensures count { IfOk result (λ opened. length opened ≡ ears) }
        ensures fresh { IfOk result (All (λ ear. (accepted_by ear ≡ 0) × (faults_of ear ≡ 0))) }
        ensures hears { IfOk result (All (λ ear. HearsAt ear port)) }
        ensures cause { result ≡ Err Failed → Rose (refused_by self.old) (refused_by self.new) }
        ensures still { result ≢ Err Failed → refused_by self.new ≡ refused_by self.old }
        ensures later { refused_by self.old ≤ refused_by self.new }
        ensures faults { faults_at self.new ≡ faults_at self.old }
        ensures accepted { accepted_at self.new ≡ accepted_at self.old }
    {
        match listen(self.host, self.rt, alloc, port, ears) {
            Ok(opened) => Ok(opened),
            Err(DoorFault::Failed) => {
                self.refused = counted(self.refused, true);
                Err(DoorFault::Failed)
            }
            Err(DoorFault::NoMemory) => Err(DoorFault::NoMemory),
        }
    }

    fn close(&mut self, ears: Ears<TcpEar<R>>)
        requires room { accepted_at self.old + accepted_in accepted_by ears < 2 ^ 64 }
        ensures accepted { accepted_at self.new ≡ accepted_at self.old + accepted_in accepted_by ears }
        ensures faults { faults_at self.new ≡ counted_where (has_fault faults_of ears) (faults_at self.old) }
        ensures later { faults_at self.old ≤ faults_at self.new }
        ensures refused { refused_by self.new ≡ refused_by self.old }
    {
        self.accepted += accepted_by_all(ears.items());
        self.faults = counted(self.faults, any_failed(ears.items()));
        drain_all(ears.items());
    }
}
