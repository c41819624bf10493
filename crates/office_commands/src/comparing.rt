// The commands `validate DAY` and `audit DAY`: notices compared with those of the rules.
ghost use Rattle.std.specs.Prelude.{◌≡◌, ◌≢◌, ◌≤◌, [], ℕ, List, Some, Err, IfOk, IsOk, false, length};
ghost use Rattle.road_time.specs.Day.{notices};
ghost use Rattle.road_time.specs.Fits.{IsDay, IsLimits};
ghost use Rattle.road_time.specs.Lines.{lines_of};
ghost use Rattle.road_io.specs.Plans.{NeverFails};
ghost use Rattle.keep_office.specs.Office.{Office};
ghost use Rattle.keep_office.specs.declared.kept.KeepFault.TheVariants.{Failed};
ghost use Rattle.road_time.specs.History.{paid, KeysDiffer};
ghost use Rattle.road_io.specs.Within.{ReadsWithin};
ghost use Rattle.office_words.specs.Meaning.{IsComparing};
ghost use Rattle.office_commands.specs.Commands.{compare_command, comparison_by, comparison_of, compared_tuples};
ghost use Rattle.office_commands.specs.Commands.{notices_of_day, unless_refused};
ghost use Rattle.office_commands.specs.Differences.{differences_text};
ghost use Rattle.office_commands.specs.Days.{recomputed, in_bulk, IsRightFor};
ghost use Rattle.office_commands.specs.Listings.{most_listed};
ghost use Rattle.office_commands.specs.Closings.{status_of};
ghost use Rattle.office_commands.specs.Endings.{StandsBefore};
ghost use Rattle.office_commands.specs.Rests.{HasReadDay, SaysBy};
ghost use Rattle.office_commands.specs.declared.closing.Closing.TheVariants.{ReadFault, KeeperFault, Words};
ghost use Rattle.office_commands.specs.ComparedDays.{ListsWhatDiffers, ReadsBehind, ReadsCompared, KeepsCompared, WorksCompared};
ghost use Rattle.office_commands.specs.Starts.{shards_of, StartsBulk, SaysCompared};
ghost use Rattle.office_commands.specs.Faults.{ReadFaults};
ghost use Rattle.road_io.specs.Blame.{FaultsByPlan};

use crate::closing::Closing;
use crate::day::{ReadDay, read_day, stopped};
use crate::difference::Difference;
use crate::listed::compare_and_list;
use crate::refusal::refused;
use day_past::history_for;
use keep_office::{KeepFault, Keeper};
use office_words::{Comparison, Recomputing};
use road_io::Source;
use road_rules::plain_notices;
use road_time::{Limits, NoMemory, Notice, SpentRow, Tariffs, Tuple};
use std::alloc::Global;
use std::thread::Threads;
use ways_audit::{NoticeList, bulk};
use ways_crews::Crew;

/// The notices of a day, recomputed by the plain rules or in bulk.
fn recompute<C: Crew, R: Threads + Sync>(
    rt: &R,
    alloc: Global,
    asked: Comparison,
    tuples: &[Tuple],
    tariffs: &Tariffs,
    history: &[SpentRow],
    crew: &mut C,
) -> Result<NoticeList, NoMemory>
    requires fit { IsDay tuples.now }
    requires range { IsComparing asked }
    requires keys { KeysDiffer history.now }
    requires idle { C.out crew.old ≡ [] }
    ensures exact { IsRightFor asked.how C.exact
        → IfOk result (λ all. all.list ≡ notices tuples.now tariffs.now asked.day (paid history.now)) }
    ensures by { IfOk result (λ all. all.shards ≡ shards_of asked.how) }
    ensures unused { in_bulk asked.how ≡ false → crew.new ≡ crew.old }
    ensures jobs { StartsBulk asked.how tuples.now (IsOk result) (C.jobs crew.old) (C.jobs crew.new) }
    ensures idle { C.out crew.new ≡ [] }
    ensures crew { C.which crew.new ≡ C.which crew.old }
{
    match asked.how {
        Recomputing::Plainly => {
            let all = plain_notices(alloc, tuples, tariffs, asked.day, history)?;
            Ok(NoticeList::from_vec(all, 0))
        }
        Recomputing::InBulk { shards, width } => bulk(
            rt, alloc, tuples, tariffs, asked.day, history, shards, width, crew,
        ),
    }
}

/// The notices of a day that was read, after what the keeper keeps.
fn wanted_notices<K: Keeper, C: Crew, R: Threads + Sync>(
    rt: &R,
    alloc: Global,
    asked: Comparison,
    tuples: &[Tuple],
    tariffs: &Tariffs,
    keeper: &mut K,
    crew: &mut C,
) -> Result<NoticeList, KeepFault>
    requires fit { IsDay tuples.now }
    requires range { IsComparing asked }
    requires idle { C.out crew.old ≡ [] }
    ensures exact { IsRightFor asked.how C.exact → (o : Office) → K.told keeper.old ≡ Some o → tariffs.now ≡ o.tariffs
        → IfOk result (λ all. all.list ≡ notices_of_day asked.day tuples.now o) }
    ensures by { IfOk result (λ all. all.shards ≡ shards_of asked.how) }
    ensures kept { K.told keeper.new ≡ K.told keeper.old }
    ensures unused { in_bulk asked.how ≡ false → crew.new ≡ crew.old }
    ensures jobs { StartsBulk asked.how tuples.now (IsOk result) (C.jobs crew.old) (C.jobs crew.new) }
    ensures idle { C.out crew.new ≡ [] }
    ensures crew { C.which crew.new ≡ C.which crew.old }
    ensures keeper { FaultsByPlan (K.faults keeper.old) (K.faults keeper.new) (K.plan keeper.old)
        (result ≡ Err Failed) }
{
    let history = history_for(alloc, asked.day, tuples, keeper)?;
    match recompute(rt, alloc, asked, tuples, tariffs, history.as_slice(), crew) {
        Ok(all) => Ok(all),
        Err(_) => Err(KeepFault::NoMemory),
    }
}

/// Compares notices with the lines of an aside, and gives the first differences, where more than one is asked for.
fn compare_notices<A: Source>(
    alloc: Global,
    any_order: bool,
    show: u32,
    wanted: &[Notice],
    aside: &mut A,
    shown: &mut Vec<Difference>,
) -> Closing
    requires some { 1 ≤ show }
    requires few { show ≤ 1000 }
    requires empty { shown.old.items ≡ [] }
    ensures exact { (lines : List ℕ) (o : Office) → A.left aside.old ≡ Some lines
        → StandsBefore (comparison_by any_order show wanted.now (lines_of lines) o) result
        (differences_text shown.new.items) }
    ensures own { (result ≢ KeeperFault) × (result ≢ Words) }
    ensures unnamed { status_of result ≢ 2 }
    ensures none { status_of result ≢ 7 → shown.new.items ≡ [] }
    ensures bounded { ReadsWithin (most_listed any_order show (length wanted.now)) (A.left aside.old)
        (A.left aside.new) }
    ensures aside { FaultsByPlan (A.faults aside.old) (A.faults aside.new) (A.plan aside.old) (result ≡ ReadFault) }
{
    match compare_and_list(alloc, any_order, show, wanted, aside, shown) {
        Ok(closing) => closing,
        Err(stop) => stopped(stop),
    }
}

/// How a comparison closes, and by how many shards the vehicles were seen, where notices were compared.
#[derive(Clone, Copy)]
pub(crate) struct Compared {
    pub closing: Closing,
    pub shards: usize,
}

/// Compares the notices of a day that was read with the lines of an aside, and gives the first differences.
fn compare_day<A: Source, K: Keeper, C: Crew, R: Threads + Sync>(
    rt: &R,
    alloc: Global,
    asked: Comparison,
    day: &ReadDay,
    tariffs: &Tariffs,
    aside: &mut A,
    keeper: &mut K,
    crew: &mut C,
    shown: &mut Vec<Difference>,
) -> Compared
    requires fit { IsDay day.now.tuples.items }
    requires range { IsComparing asked }
    requires idle { C.out crew.old ≡ [] }
    requires empty { shown.old.items ≡ [] }
    ensures exact { IsRightFor asked.how C.exact → (lines : List ℕ) (o : Office) → A.left aside.old ≡ Some lines
        → K.told keeper.old ≡ Some o → tariffs.now ≡ o.tariffs
        → StandsBefore (unless_refused day.now.refused
        (comparison_of asked day.now.tuples.items (lines_of lines) o)) result.closing
        (differences_text shown.new.items) }
    ensures kept { K.told keeper.new ≡ K.told keeper.old }
    ensures says { SaysBy day.now.refused (status_of result.closing) }
    ensures lists { ListsWhatDiffers result.closing shown.new.items }
    ensures aside { ReadsBehind A.Source asked day.now.tuples.items day.now.refused (IsRightFor asked.how C.exact)
        (K.told keeper.old) tariffs.now result.closing aside.old aside.new }
    ensures crew { WorksCompared C.Crew asked.how
        (λ told now. StartsBulk asked.how day.now.tuples.items (SaysCompared (status_of result.closing)) told now)
        crew.old crew.new }
    ensures by { SaysCompared (status_of result.closing) → result.shards ≡ shards_of asked.how }
    ensures keeper { FaultsByPlan (K.faults keeper.old) (K.faults keeper.new) (K.plan keeper.old)
        (result.closing ≡ KeeperFault) }
{
    if let Some((line, cause)) = day.refused {
        return Compared {
            closing: Closing::Refused { line, cause },
            shards: 0,
        };
    }
    match wanted_notices(
        rt,
        alloc,
        asked,
        day.tuples.as_slice(),
        tariffs,
        keeper,
        crew,
    ) {
        Ok(wanted) => Compared {
            shards: wanted.shards(),
            closing: compare_notices(
                alloc,
                asked.any_order,
                asked.show,
                wanted.items(),
                aside,
                shown,
            ),
        },
        Err(fault) => Compared {
            closing: refused(fault),
            shards: 0,
        },
    }
}

/// Compares the notices of what the source has, after what the keeper keeps, with the lines of an aside, unless a
/// line is refused. Gives the first differences, where more than one is asked for.
pub(crate) fn compare_source<S: Source, A: Source, K: Keeper, C: Crew, R: Threads + Sync>(
    rt: &R,
    alloc: Global,
    asked: Comparison,
    limits: &Limits,
    source: &mut S,
    aside: &mut A,
    keeper: &mut K,
    crew: &mut C,
    shown: &mut Vec<Difference>,
) -> Compared
    requires range { IsComparing asked }
    requires within { IsLimits limits.now }
    requires idle { C.out crew.old ≡ [] }
    requires empty { shown.old.items ≡ [] }
    ensures exact { IsRightFor asked.how C.exact → (bytes lines : List ℕ) (o : Office) → S.left source.old ≡ Some bytes
        → A.left aside.old ≡ Some lines → K.told keeper.old ≡ Some o
        → StandsBefore (compare_command limits.now asked bytes lines o) result.closing
        (differences_text shown.new.items) }
    ensures lists { ListsWhatDiffers result.closing shown.new.items }
    ensures reads { HasReadDay (recomputed asked.how limits.now) asked.late (status_of result.closing)
        (S.left source.old) (S.left source.new) }
    ensures aside { ReadsCompared S.Source A.Source limits.now asked (IsRightFor asked.how C.exact) (K.told keeper.old)
        (status_of result.closing) source.old source.new aside.old aside.new }
    ensures crew { WorksCompared C.Crew asked.how
        (λ told now. (bytes : List ℕ) → S.left source.old ≡ Some bytes
        → StartsBulk asked.how (compared_tuples limits.now asked bytes) (SaysCompared (status_of result.closing))
        told now) crew.old crew.new }
    ensures by { SaysCompared (status_of result.closing) → result.shards ≡ shards_of asked.how }
    ensures read { ReadFaults (S.faults source.old) (S.faults source.new) (A.faults aside.old) (A.faults aside.new)
        (NeverFails (S.plan source.old)) (NeverFails (A.plan aside.old)) (result.closing ≡ ReadFault) (Unit {0}) }
    ensures keeper { KeepsCompared K.Keeper (result.closing ≡ KeeperFault) keeper.old keeper.new }
{
    let tariffs = match keeper.tariffs() {
        Ok(tariffs) => tariffs,
        Err(fault) => {
            return Compared {
                closing: refused(fault),
                shards: 0,
            };
        }
    };
    match read_day(rt, alloc, limits, asked.how, asked.late, source) {
        Ok(read) => compare_day(
            rt, alloc, asked, &read, &tariffs, aside, keeper, crew, shown,
        ),
        Err(stop) => Compared {
            closing: stopped(stop),
            shards: 0,
        },
    }
}
