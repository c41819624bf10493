// The shards of the vehicles, at work at once.
ghost use Rattle.std.specs.Prelude.{◌≡◌, ◌≤◌, ◌<◌, ◌++◌, ◌∷◌, ℕ, [], true, false, List, OnOk, IfOk, length, vec_len};
ghost use Rattle.std.specs.Prelude.{slice_index_or};
ghost use Rattle.road_time.specs.declared.road.Tuple.{Tuple as TupleValue};
ghost use Rattle.ways_audit.specs.declared.shard.Shard.{Shard as ShardValue};
ghost use Rattle.ways_audit.specs.Seen.{tracked_by, tracked_after};
ghost use Rattle.ways_audit.specs.Own.{HavePlaces};
ghost use Rattle.ways_audit.specs.Stands.{HaveSeen, WentOver, Await};

use crate::shard::Shard;
use crate::splitting::{OwnPlaces, split};
use crate::tracked_list::TrackedList;
use day_floor::Tracked;
use road_time::{NoMemory, Tuple};
use std::alloc::Global;
use std::marker::Model;
use std::thread;
use std::thread::Threads;

/// The vehicles in shards: vehicle `v` belongs to shard `v % shards`. Contracts see the list of the shards.
#[derive(Drop)]
pub struct Shards {
    alloc: Global,
    shards: Vec<Shard>,
}

impl Model for Shards {
    ghost use Rattle.std.specs.Prelude.{◌<◌, ◌≤◌, List, vec_len};
    ghost use Rattle.ways_audit.specs.declared.shard.Shard.{Shard as ShardValue};

    ghost Value = { List ShardValue };

    ghost view = { λ s. s.shards.items };

    ghost invariant = { λ s. (0 < vec_len s.shards) × (vec_len s.shards ≤ 64) };
}

/// No shard was refused memory.
fn all_serve(shards: &[Shard]) -> bool
    ensures { result ≡ true → (place : ℕ) (d : ShardValue) → place < length shards.now
        → (slice_index_or shards.now place d).refused ≡ false }
{
    for at in 0..shards.len() {
        if shards[at].refused {
            return false;
        }
    }
    true
}

/// Lets each shard go over the tuples, all at once.
fn go_over_all<R: Threads + Sync>(rt: &R, shards: &mut [Shard], tuples: &[Tuple])
    requires { 0 < length shards.old }
    ensures len { length shards.new ≡ length shards.old }
    ensures each { (place : ℕ) (d : ShardValue) → place < length shards.old
        → WentOver place (length shards.old) tuples.now (slice_index_or shards.old place d)
        (slice_index_or shards.new place d) }
{
    let count = shards.len();
    thread::for_each_mut(
        rt,
        shards,
        count,
        &|place, shard| shard.go_over(tuples, place, count),
    );
}

/// Lets each shard go over the tuples, all at once, where the positions of each shard's reports are given.
fn go_over_own<R: Threads + Sync>(
    rt: &R,
    shards: &mut [Shard],
    tuples: &[Tuple],
    lists: &[OwnPlaces],
)
    requires some { 0 < length shards.old }
    requires own { HavePlaces lists.now tuples.now (length shards.old) }
    ensures len { length shards.new ≡ length shards.old }
    ensures each { (place : ℕ) (d : ShardValue) → place < length shards.old
        → WentOver place (length shards.old) tuples.now (slice_index_or shards.old place d)
        (slice_index_or shards.new place d) }
{
    let count = shards.len();
    thread::for_each_mut(
        rt,
        shards,
        count,
        &|place, shard| shard.go_over_own(tuples, lists, place, count),
    );
}

/// How many tuples are split by shards at most: those of a day.
const MOST_SPLIT: usize = 16_000_000;

/// Lets each shard go over the tuples, all at once. One alone looks at each; several are given the positions of their
/// own.
fn go_over_by<R: Threads + Sync>(
    rt: &R,
    alloc: Global,
    shards: &mut [Shard],
    tuples: &[Tuple],
) -> Result<(), NoMemory>
    requires { 0 < length shards.old }
    ensures len { length shards.new ≡ length shards.old }
    ensures each { OnOk result ((place : ℕ) (d : ShardValue) → place < length shards.old
        → WentOver place (length shards.old) tuples.now (slice_index_or shards.old place d)
        (slice_index_or shards.new place d)) }
{
    let count = shards.len();
    if count < 2 || tuples.len() > MOST_SPLIT {
        go_over_all(rt, shards, tuples);
        return Ok(());
    }
    let lists = split(alloc, tuples, count)?;
    go_over_own(rt, shards, tuples, lists.as_slice());
    Ok(())
}

/// What a tuple told: it stands first in the queue of its shard, if it is a report.
fn take_told(shards: &mut [Shard], tuple: &Tuple) -> Option<Tracked>
    requires { 0 < length shards.old }
    ensures len { length shards.new ≡ length shards.old }
    ensures told { (whole given rest : List TupleValue) → Await whole given (tuple.now ∷ rest) shards.old
        → result ≡ tracked_by (given, tuple.now) }
    ensures left { (whole given rest : List TupleValue) → Await whole given (tuple.now ∷ rest) shards.old
        → Await whole (given ++ tuple.now ∷ []) rest shards.new }
{
    match tuple {
        Tuple::Report(report) => {
            let at = report.vid as usize % shards.len();
            shards[at].next_told()
        }
        _ => None,
    }
}

/// What each tuple told, position by position. It takes all that waits in the shards.
fn gather(
    alloc: Global,
    shards: &mut [Shard],
    tuples: &[Tuple],
) -> Result<Vec<Option<Tracked>>, NoMemory>
    requires { 0 < length shards.old }
    ensures len { length shards.new ≡ length shards.old }
    ensures list { IfOk result (λ list. (whole given : List TupleValue) → Await whole given tuples.now shards.old
        → list.items ≡ tracked_after given tuples.now) }
    ensures left { OnOk result ((whole given : List TupleValue) → Await whole given tuples.now shards.old
        → HaveSeen shards.new whole) }
{
    let mut list = Vec::new(alloc);
    list.reserve(tuples.len())?;
    for tuple in tuples {
        let told = take_told(shards, tuple);
        list.push(told)?;
    }
    Ok(list)
}

/// Shards of which no vehicle was seen.
fn new_shards(alloc: Global, count: usize) -> Result<Vec<Shard>, NoMemory>
    ensures len { IfOk result (λ shards. vec_len shards ≡ count) }
    ensures seen { IfOk result (λ shards. HaveSeen shards.items []) }
{
    let mut shards = Vec::new(alloc);
    for _ in 0..count {
        shards.push(Shard::new(alloc))?;
    }
    Ok(shards)
}

/// Shows tuples to the shards, all at once, and takes what they were told.
fn see_by<R: Threads + Sync>(
    rt: &R,
    alloc: Global,
    shards: &mut [Shard],
    tuples: &[Tuple],
) -> Result<Vec<Option<Tracked>>, NoMemory>
    requires { 0 < length shards.old }
    ensures len { length shards.new ≡ length shards.old }
    ensures told { IfOk result (λ list. (given : List TupleValue) → HaveSeen shards.old given
        → list.items ≡ tracked_after given tuples.now) }
    ensures seen { OnOk result ((given : List TupleValue) → HaveSeen shards.old given
        → HaveSeen shards.new (given ++ tuples.now)) }
{
    go_over_by(rt, alloc, shards, tuples)?;
    if !all_serve(shards) {
        return Err(NoMemory);
    }
    let list = gather(alloc, shards, tuples)?;
    Ok(list)
}

impl Shards {
    /// No vehicle was seen.
    pub fn new(alloc: Global, shards: u8) -> Result<Self, NoMemory>
        requires some { 1 ≤ shards }
        requires few { shards ≤ 64 }
        ensures count { IfOk result (λ new. length new ≡ shards) }
        ensures seen { IfOk result (λ new. HaveSeen new []) }
    {
        let shards = new_shards(alloc, shards as usize)?;
        Ok(Shards { alloc, shards })
    }

    /// Sees further tuples of the day, each shard its own vehicles' reports, all at once: per position what its report
    /// tells, over all tuples that were given.
    /// The one error is want of memory; afterwards the shards serve no more.
    pub fn see_all<R: Threads + Sync>(
        &mut self,
        rt: &R,
        tuples: &[Tuple],
    ) -> Result<TrackedList, NoMemory>
        ensures told { IfOk result (λ list. (given : List TupleValue) → HaveSeen self.old given
            → list.list ≡ tracked_after given tuples.now) }
        ensures by { IfOk result (λ list. list.shards ≡ length self.old) }
        ensures seen { OnOk result ((given : List TupleValue) → HaveSeen self.old given
            → HaveSeen self.new (given ++ tuples.now)) }
    {
        let count = self.shards.len();
        let list = see_by(rt, self.alloc, self.shards.as_mut_slice(), tuples)?;
        Ok(TrackedList::from_vec(list, count))
    }
}
