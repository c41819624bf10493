// The positions of each shard's reports among tuples.
ghost use Rattle.std.specs.Prelude.{◌≡◌, ◌≤◌, ◌<◌, ◌++◌, ◌∷◌, [], ◌==◌, ℕ, List, OnOk, IfOk, length, if◌then◌else◌};
ghost use Rattle.ways_audit.specs.Own.{is_own, HasPlaces, HavePlaces};

use road_time::{NoMemory, Tuple};
use std::alloc::Global;

/// The positions of the reports of one shard's vehicles.
#[derive(Drop)]
pub(crate) struct OwnPlaces {
    pub(crate) places: Vec<u32>,
}

/// Puts a position behind those of a shard.
fn put(lists: &mut [OwnPlaces], shard: usize, position: u32) -> Result<(), NoMemory>
    requires { shard < length lists.old }
    ensures len { OnOk result (length lists.new ≡ length lists.old) }
    ensures put { OnOk result ((s : ℕ) (ps : List ℕ) → HasPlaces lists.old s ps
        → HasPlaces lists.new s (ps ++ (if shard == s then position ∷ [] else []))) }
{
    lists[shard].places.push(position)?;
    Ok(())
}

/// Puts the position of a tuple behind those of its shard, if it is a report.
fn put_own(lists: &mut [OwnPlaces], position: u32, tuple: &Tuple) -> Result<(), NoMemory>
    requires { 0 < length lists.old }
    ensures len { OnOk result (length lists.new ≡ length lists.old) }
    ensures put { OnOk result ((s : ℕ) (ps : List ℕ) → HasPlaces lists.old s ps
        → HasPlaces lists.new s (ps ++ (if is_own s (length lists.old) tuple.now then position ∷ [] else []))) }
{
    let Tuple::Report(report) = tuple else {
        return Ok(());
    };
    let shard = report.vid as usize % lists.len();
    put(lists, shard, position)?;
    Ok(())
}

/// No positions yet, with room for so many where memory has it.
fn room_for(alloc: Global, count: usize) -> Vec<u32>
    ensures { result.items ≡ [] }
{
    match Vec::with_capacity(alloc, count) {
        Ok(places) => places,
        Err(_) => Vec::new(alloc),
    }
}

/// No positions yet, of so many shards, each with room for so many where memory has it.
fn new_lists(alloc: Global, count: usize, room: usize) -> Result<Vec<OwnPlaces>, NoMemory>
    ensures len { IfOk result (λ lists. length lists.items ≡ count) }
    ensures empty { IfOk result (λ lists. (s : ℕ) → HasPlaces lists.items s []) }
{
    let mut lists = Vec::with_capacity(alloc, count)?;
    for _ in 0..count {
        lists.push(OwnPlaces {
            places: room_for(alloc, room),
        })?;
    }
    Ok(lists)
}

/// Puts the positions of the reports among tuples behind those of their shards.
fn put_all(lists: &mut [OwnPlaces], tuples: &[Tuple]) -> Result<(), NoMemory>
    requires some { 0 < length lists.old }
    requires few { length tuples.now ≤ 16000000 }
    requires empty { (s : ℕ) → HasPlaces lists.old s [] }
    ensures len { OnOk result (length lists.new ≡ length lists.old) }
    ensures places { OnOk result (HavePlaces lists.new tuples.now (length lists.old)) }
{
    for at in 0..tuples.len() {
        put_own(lists, at as u32, &tuples[at])?;
    }
    Ok(())
}

/// The positions of each shard's reports, of so many shards. It goes over the tuples once. Each has room from the start
/// for its share, were all the same, and an eighth more.
pub(crate) fn split(
    alloc: Global,
    tuples: &[Tuple],
    count: usize,
) -> Result<Vec<OwnPlaces>, NoMemory>
    requires some { 0 < count }
    requires few { length tuples.now ≤ 16000000 }
    ensures len { IfOk result (λ lists. length lists.items ≡ count) }
    ensures places { IfOk result (λ lists. HavePlaces lists.items tuples.now count) }
{
    let share = tuples.len() / count;
    let mut lists = new_lists(alloc, count, share.saturating_add(share / 8))?;
    put_all(lists.as_mut_slice(), tuples)?;
    Ok(lists)
}
