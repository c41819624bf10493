// What the tuples of a day tell, position by position.
ghost use Rattle.std.specs.Prelude.{◌≡◌};

use day_floor::Tracked;
use std::marker::Model;

/// Per position what its report tells of its vehicle, and nothing where it is none; and by how many shards the vehicles
/// were seen.
#[derive(Drop)]
pub struct TrackedList {
    items: Vec<Option<Tracked>>,
    shards: usize,
}

impl Model for TrackedList {
    ghost use Rattle.std.specs.Prelude.{Option};
    ghost use Rattle.day_floor.specs.declared.tracked.Tracked.{Tracked};
    ghost use Rattle.ways_audit.specs.Counted.{ByShards};

    ghost Value = { ByShards (Option Tracked) };

    ghost view = { λ t. record { list = t.items.items; shards = t.shards } };
}

impl TrackedList {
    pub fn from_vec(items: Vec<Option<Tracked>>, shards: usize) -> Self
        ensures list { result.list ≡ items.items }
        ensures by { result.shards ≡ shards }
    {
        TrackedList { items, shards }
    }

    pub fn into_vec(self) -> Vec<Option<Tracked>>
        ensures { result.items ≡ self.list }
    {
        self.items
    }

    /// By how many shards the vehicles were seen.
    pub fn shards(&self) -> usize
        ensures { result ≡ self.now.shards }
    {
        self.shards
    }

    pub fn items(&self) -> &[Option<Tracked>]
        ensures { result.now ≡ self.now.list }
    {
        self.items.as_slice()
    }
}
