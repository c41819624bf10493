// A whole day, recomputed from its list.
ghost use Rattle.std.specs.Prelude.{◌≡◌, ◌≤◌, [], true, List, IfOk, OnOk, OnErr, All, map, length};
ghost use Rattle.road_time.specs.Day.{notices, merged};
ghost use Rattle.road_time.specs.Fits.{IsDay};
ghost use Rattle.ways_expressway.specs.declared.finding.Finding.{Finding as FindingValue};
ghost use Rattle.ways_expressway.specs.Findings.{shown};
ghost use Rattle.ways_expressway.specs.Results.{IsPossible};
ghost use Rattle.road_time.specs.History.{paid, KeysDiffer};
ghost use Rattle.ways_crews.specs.Told.{WhereTold};
ghost use Rattle.ways_audit.specs.Seen.{tracked_after};
ghost use Rattle.ways_audit.specs.Jobs.{StartsAll, StartsFirst, AddsFindings};

use crate::closing::close;
use crate::jobs::find_all;
use crate::notice_list::NoticeList;
use crate::payments::Payments;
use crate::placing::place_found;
use crate::shards::Shards;
use crate::tracked_list::TrackedList;
use day_floor::Tracked;
use road_time::{NoMemory, SpentRow, Tariffs, Tuple};
use std::alloc::Global;
use std::thread::Threads;
use ways_crews::Crew;
use ways_expressway::Finding;

/// What a whole day's tuples tell, by so many shards.
fn see_day<R: Threads + Sync>(
    rt: &R,
    alloc: Global,
    tuples: &[Tuple],
    shards: u8,
) -> Result<TrackedList, NoMemory>
    requires some { 1 ≤ shards }
    requires few { shards ≤ 64 }
    ensures told { IfOk result (λ list. list.list ≡ tracked_after [] tuples.now) }
    ensures by { IfOk result (λ list. list.shards ≡ shards) }
{
    let mut all = Shards::new(alloc, shards)?;
    let list = all.see_all(rt, tuples)?;
    Ok(list)
}

/// The notices of a day, by what its tuples tell to so many shards and what was found. The findings are let go before
/// notices are made.
fn merge_all(
    alloc: Global,
    tuples: &[Tuple],
    tracked: &[Option<Tracked>],
    shards: usize,
    found: Vec<Finding>,
    day: u32,
    history: &[SpentRow],
) -> Result<NoticeList, NoMemory>
    requires fit { IsDay tuples.now }
    requires tracked { tracked.now ≡ tracked_after [] tuples.now }
    requires possible { All IsPossible found.items }
    ensures merged { IfOk result (λ all. all.list ≡ merged tuples.now (map shown found.items) day (paid history.now)) }
    ensures by { IfOk result (λ all. all.shards ≡ shards) }
{
    let payments = Payments::of(alloc, history)?;
    let places = place_found(alloc, tuples.len(), found)?;
    let notices = close(alloc, tuples, tracked, places.as_slice(), day, &payments)?;
    Ok(NoticeList::from_vec(notices, shards))
}

/// The notices of a day, recomputed from its list: what its reports tell by shards of vehicles at work at once, what
/// is found by ways, one job for each worker
/// that has events, and charges and answers in one pass at the end. It asks what `plain_notices` asks, 1 to 64 shards,
/// a width of 1 to 64, and a crew with no
/// job out. The one error is want of memory; on each exit the crew has no job out.
pub fn bulk<R: Threads + Sync, C: Crew>(
    rt: &R,
    alloc: Global,
    tuples: &[Tuple],
    tariffs: &Tariffs,
    day: u32,
    history: &[SpentRow],
    shards: u8,
    width: u8,
    crew: &mut C,
) -> Result<NoticeList, NoMemory>
    requires fit { IsDay tuples.now }
    requires low { 70 ≤ day }
    requires high { day ≤ 1000000 }
    requires keys { KeysDiffer history.now }
    requires some { 1 ≤ shards }
    requires few { shards ≤ 64 }
    requires wide { 1 ≤ width }
    requires narrow { width ≤ 64 }
    requires idle { C.out crew.old ≡ [] }
    ensures exact { C.exact ≡ true → IfOk result (λ all. all.list ≡ notices tuples.now tariffs.now day (paid history.now)) }
    ensures merged { IfOk result (λ all. (found : List FindingValue)
        × WhereTold (AddsFindings found) (C.answers crew.old) (C.answers crew.new)
        × (all.list ≡ merged tuples.now (map shown found) day (paid history.now))) }
    ensures by { IfOk result (λ all. all.shards ≡ shards) }
    ensures jobs { OnOk result (WhereTold (StartsAll tuples.now width) (C.jobs crew.old) (C.jobs crew.new)) }
    ensures first { OnErr result (WhereTold (StartsFirst tuples.now width) (C.jobs crew.old) (C.jobs crew.new)) }
    ensures idle { C.out crew.new ≡ [] }
    ensures which { C.which crew.new ≡ C.which crew.old }
{
    let tracked = see_day(rt, alloc, tuples, shards)?;
    let found = find_all(alloc, crew, tuples, tracked.items(), tariffs, width)?;
    let all = merge_all(
        alloc,
        tuples,
        tracked.items(),
        tracked.shards(),
        found,
        day,
        history,
    )?;
    Ok(all)
}
