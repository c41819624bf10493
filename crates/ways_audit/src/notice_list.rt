// The notices of a day.
ghost use Rattle.std.specs.Prelude.{◌≡◌};

use road_time::Notice;
use std::marker::Model;

/// The notices of a day, in the order of the tuples that cause them, and by how many shards its vehicles were seen.
#[derive(Drop)]
pub struct NoticeList {
    items: Vec<Notice>,
    shards: usize,
}

impl Model for NoticeList {
    ghost use Rattle.road_time.specs.declared.road.Notice.{Notice};
    ghost use Rattle.ways_audit.specs.Counted.{ByShards};

    ghost Value = { ByShards Notice };

    ghost view = { λ n. record { list = n.items.items; shards = n.shards } };
}

impl NoticeList {
    pub fn from_vec(items: Vec<Notice>, shards: usize) -> Self
        ensures list { result.list ≡ items.items }
        ensures by { result.shards ≡ shards }
    {
        NoticeList { items, shards }
    }

    /// By how many shards the vehicles were seen.
    pub fn shards(&self) -> usize
        ensures { result ≡ self.now.shards }
    {
        self.shards
    }

    pub fn items(&self) -> &[Notice]
        ensures { result.now ≡ self.now.list }
    {
        self.items.as_slice()
    }

    pub fn into_vec(self) -> Vec<Notice>
        ensures { result.items ≡ self.list }
    {
        self.items
    }
}
