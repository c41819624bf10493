// The places of the jobs that are out.
ghost use Rattle.std.specs.Prelude.{◌≡◌, ◌<◌, [], length, Contains, position, is_none, None, Some, slice_get};
ghost use Rattle.std.specs.Prelude.{slice_set};
ghost use Rattle.ways_crews.specs.Places.{out_of, IsPut, IsTaken};

use std::array;
use std::snapshot::Snapshot;
use ways_expressway::{Done, Job};

/// What a crew keeps of a job that is out.
#[derive(Drop)]
pub enum TicketEntry {
    /// What was done of it.
    Ran(Done),
    /// The job, which is run when it is asked for.
    Waits(Job),
    /// The job, which could not be listed and is not run.
    Unlisted(Job),
}

/// A ticket that is no more than its number.
#[derive(Drop)]
pub struct Ticket {
    pub number: u8,
}

/// Sixty-four places, each free or with the entry of a job that is out. They need no memory beyond their own.
#[derive(Drop)]
pub struct Places {
    items: [Option<TicketEntry>; 64],
    ghost all: { length items ≡ 64 },
}

/// Sixty-four places, each free or with a memory of a job that a thread has, which takes no bytes.
#[derive(Drop)]
pub struct ThreadPlaces {
    items: [Option<Snapshot<Job>>; 64],
    ghost all: { length items ≡ 64 },
}

/// The first place that is free.
pub(crate) fn first_free<T>(items: &[Option<T>]) -> Option<usize>
    ensures { result ≡ position is_none items.now }
{
    items.iter().position(|place| place.is_none())
}

/// Puts an entry into the first free place, and answers its number.
fn put_first<T: Drop>(items: &mut [Option<T>], entry: T) -> u8
    requires all { length items.old ≡ 64 }
    requires room { length (out_of items.old) < 64 }
    ensures { IsPut result entry items.old items.new }
{
    match first_free(items) {
        Some(at) => {
            items[at] = Some(entry);
            at as u8
        }
        None => unreachable!(),
    }
}

/// Takes what a place has out of it.
fn taken<T>(items: &mut [Option<T>], at: usize) -> Option<T>
    requires { at < length items.old }
    ensures value { slice_get items.old at ≡ Some result }
    ensures rest { items.new ≡ slice_set items.old at None }
{
    items[at].take()
}

/// Takes the entry out of a place, which is free then.
pub(crate) fn take_out<T>(items: &mut [Option<T>], number: u8) -> T
    requires all { length items.old ≡ 64 }
    requires out { Contains (out_of items.old) number }
    ensures { IsTaken number result items.old items.new }
{
    match taken(items, usize::from(number)) {
        Some(entry) => entry,
        None => unreachable!(),
    }
}

impl Places {
    /// All places are free.
    pub fn new() -> Places
        ensures { out_of result.items ≡ [] }
    {
        Places {
            items: array::from_fn(
                |_at: usize| -> Option<TicketEntry>
                    ensures { result ≡ None }
                { None },
            ),
        }
    }

    /// Puts an entry into the first free place, and answers its number.
    pub fn put(&mut self, entry: TicketEntry) -> u8
        requires { length (out_of self.old.items) < 64 }
        ensures { IsPut result entry self.old.items self.new.items }
    {
        put_first(&mut self.items, entry)
    }

    /// Takes the entry out of a place, which is free then.
    pub fn take(&mut self, number: u8) -> TicketEntry
        requires { Contains (out_of self.old.items) number }
        ensures { IsTaken number result self.old.items self.new.items }
    {
        take_out(&mut self.items, number)
    }
}

impl ThreadPlaces {
    /// All places are free.
    pub fn new() -> ThreadPlaces
        ensures { out_of result.items ≡ [] }
    {
        ThreadPlaces {
            items: array::from_fn(
                |_at: usize| -> Option<Snapshot<Job>>
                    ensures { result ≡ None }
                { None },
            ),
        }
    }

    /// Remembers a job in the first free place, and answers its number.
    pub fn put(&mut self, job: Snapshot<Job>) -> u8
        requires { length (out_of self.old.items) < 64 }
        ensures { IsPut result job self.old.items self.new.items }
    {
        put_first(&mut self.items, job)
    }

    /// Forgets the job of a place, which is free then.
    pub fn take(&mut self, number: u8) -> Snapshot<Job>
        requires { Contains (out_of self.old.items) number }
        ensures { IsTaken number result self.old.items self.new.items }
    {
        take_out(&mut self.items, number)
    }
}
