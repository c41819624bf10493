// The whole output of a day.
ghost use Rattle.std.specs.Prelude.{◌≡◌, ◌≤◌, ◌<◌, ◌^◌, ◌+◌, ◌-◌, ◌++◌, ◌∷◌, [], IfOk, OnOk, ℕ, List, nat_eq, map};
ghost use Rattle.std.specs.HashMap.{get};
ghost use Rattle.road_time.specs.declared.road.Tuple.{Tuple as TupleValue};
ghost use Rattle.road_time.specs.declared.road.Tuple.TheVariants.{Report as ReportTuple};
ghost use Rattle.road_time.specs.Tuples.{reports};
ghost use Rattle.road_time.specs.Fits.{IsDay, IsReport, IsValid};
ghost use Rattle.road_time.specs.Stays.{is_told};
ghost use Rattle.road_time.specs.Tolls.{finding_at};
ghost use Rattle.road_time.specs.Day.{notices as defined_notices, charges as defined_charges, sum_of};
ghost use Rattle.road_time.specs.Sights.{moments};
ghost use Rattle.road_rules.specs.Findings.{shown_told, finding_if, KnowsSpots};
ghost use Rattle.road_rules.specs.Accounts.{shown_charge, notices_told, owed_kept, toll_kept};
ghost use Rattle.road_time.specs.History.{paid as defined_paid, KeysDiffer};
ghost use Rattle.road_rules.specs.Payments.{amount_in};
ghost use Rattle.road_rules.specs.Gathered.{IsGathered};
ghost use Rattle.road_rules.specs.Outputs.{IsOutput, StandsAfter};

use crate::account::{Account, StayCharge, add_charge, after, newest, owed};
use crate::found::{SpotFound, found_for};
use crate::owed::begins;
use crate::payments::Payments;
use crate::spots::{Gathered, Spot, gather};
use road_time::{NoMemory, Notice, Report, SpentRow, Tariffs, Tuple};
use std::alloc::Global;
use std::collections::HashMap;

/// The notices so far, with what is kept of vehicles and spots.
#[derive(Drop)]
pub struct Output {
    accounts: HashMap<u32, Account>,
    found: HashMap<Spot, SpotFound>,
    charges: Vec<StayCharge>,
    notices: Vec<Notice>,
}

/// What the report is told, after its vehicle's previous one.
fn told(
    alloc: Global,
    gathered: &Gathered,
    tariffs: &Tariffs,
    found: &mut HashMap<Spot, SpotFound>,
    prev: Option<Report>,
    r: &Report,
) -> Result<Option<SpotFound>, NoMemory>
    requires fit { IsDay gathered.now.tuples.now }
    requires right { IsGathered gathered.now }
    requires valid { IsReport r.now }
    requires known { KnowsSpots (reports gathered.now.tuples.now) tariffs.now found.old }
    ensures exact { IfOk result (λ f. shown_told f ≡ finding_if (is_told prev r.now)
        (finding_at (reports gathered.now.tuples.now) tariffs.now r.now)) }
    ensures kept { OnOk result (KnowsSpots (reports gathered.now.tuples.now) tariffs.now found.new) }
{
    if begins(prev, r) && r.lane != 4 {
        let now = found_for(alloc, gathered, tariffs, found, r)?;
        Ok(Some(now))
    } else {
        Ok(None)
    }
}

/// Adds the notices of a report.
fn add_told(notices: &mut Vec<Notice>, r: &Report, told: Option<SpotFound>) -> Result<(), NoMemory>
    ensures { OnOk result (notices.new.items ≡ notices.old.items ++ notices_told r.now (shown_told told)) }
{
    if let Some(found) = told {
        if let Some(seg) = found.alert {
            notices.push(Notice::Alert {
                time: r.time,
                vid: r.vid,
                seg,
            })?;
        }
        notices.push(Notice::Toll {
            vid: r.vid,
            time: r.time,
            lav: found.lav,
            toll: found.toll,
        })?;
    }
    Ok(())
}

/// Takes a report: its notices, and its vehicle's account after it.
fn take_report(
    alloc: Global,
    gathered: &Gathered,
    tariffs: &Tariffs,
    output: &mut Output,
    r: &Report,
) -> Result<(), NoMemory>
    requires fit { IsDay gathered.now.tuples.now }
    requires right { IsGathered gathered.now }
    requires valid { IsReport r.now }
    requires known { KnowsSpots (reports gathered.now.tuples.now) tariffs.now output.old.found }
    requires small { (vid : ℕ) → owed_kept (get nat_eq output.old.accounts vid) + toll_kept
        (get nat_eq output.old.accounts vid) < 2 ^ 64 }
    ensures { OnOk result ((number : ℕ) → (kept : ℕ → ℕ → ℕ → ℕ) → (before : List TupleValue)
        → IsOutput gathered.now.tuples.now tariffs.now number kept output.old before
        → IsOutput gathered.now.tuples.now tariffs.now number kept output.new (before ++ ReportTuple r.now ∷ [])) }
{
    let last = output.accounts.get(&r.vid).copied();
    let now = told(alloc, gathered, tariffs, &mut output.found, newest(last), r)?;
    add_told(&mut output.notices, r, now)?;
    add_charge(&mut output.charges, last, r)?;
    output.accounts.insert(r.vid, after(last, r, now))?;
    Ok(())
}

/// Takes a tuple: what it causes, and what is kept after it.
fn take_tuple(
    alloc: Global,
    gathered: &Gathered,
    tariffs: &Tariffs,
    day: u32,
    payments: &Payments,
    output: &mut Output,
    tuple: &Tuple,
) -> Result<(), NoMemory>
    requires fit { IsDay gathered.now.tuples.now }
    requires right { IsGathered gathered.now }
    requires late { 70 ≤ day }
    requires valid { IsValid tuple.now }
    requires stands { StandsAfter gathered.now.tuples.now tariffs.now day (amount_in payments.now) output.old }
    ensures { OnOk result ((before : List TupleValue)
        → IsOutput gathered.now.tuples.now tariffs.now day (amount_in payments.now) output.old before
        → IsOutput gathered.now.tuples.now tariffs.now day (amount_in payments.now) output.new
        (before ++ tuple.now ∷ [])) }
{
    match tuple {
        Tuple::Report(r) => {
            take_report(alloc, gathered, tariffs, output, r)?;
        }
        Tuple::Balance { time, vid, qid } => {
            let amount = owed(output.accounts.get(vid).copied());
            output.notices.push(Notice::Balance {
                time: *time,
                qid: *qid,
                amount,
            })?;
        }
        Tuple::Spent {
            time,
            vid,
            xway,
            qid,
            day: ago,
        } => {
            let amount = payments.paid(day - u32::from(*ago), *vid, *xway);
            output.notices.push(Notice::Spent {
                time: *time,
                qid: *qid,
                amount,
            })?;
        }
        Tuple::Travel { .. } => {}
    }
    Ok(())
}

/// The notices and charges of the day, and what is kept at its end.
fn outputs(
    alloc: Global,
    tuples: &[Tuple],
    tariffs: &Tariffs,
    day: u32,
    history: &[SpentRow],
) -> Result<Output, NoMemory>
    requires fit { IsDay tuples.now }
    requires late { 70 ≤ day }
    ensures { IfOk result (λ o. IsOutput tuples.now tariffs.now day (defined_paid history.now) o tuples.now) }
{
    let payments = Payments::of(alloc, history)?;
    let gathered = gather(alloc, tuples)?;
    let mut output = Output {
        accounts: HashMap::new(alloc),
        found: HashMap::new(alloc),
        charges: Vec::new(alloc),
        notices: Vec::new(alloc),
    };
    for tuple in gathered.tuples {
        take_tuple(
            alloc,
            &gathered,
            tariffs,
            day,
            &payments,
            &mut output,
            tuple,
        )?;
    }
    Ok(output)
}

/// The charges of the day.
pub fn charges(
    alloc: Global,
    tuples: &[Tuple],
    tariffs: &Tariffs,
) -> Result<Vec<StayCharge>, NoMemory>
    requires fit { IsDay tuples.now }
    ensures few { IfOk result (λ cs. sum_of (map shown_charge cs.items) < 2 ^ 63) }
    ensures exact { IfOk result (λ cs. map shown_charge cs.items ≡ defined_charges tuples.now tariffs.now
        (moments tuples.now)) }
{
    let none: [SpentRow; 0] = [];
    let output = outputs(alloc, tuples, tariffs, 70, &none)?;
    Ok(output.charges)
}

/// All notices of the day with this number, where the history says what was paid on earlier days.
pub fn plain_notices(
    alloc: Global,
    tuples: &[Tuple],
    tariffs: &Tariffs,
    day: u32,
    history: &[SpentRow],
) -> Result<Vec<Notice>, NoMemory>
    requires fit { IsDay tuples.now }
    requires low { 70 ≤ day }
    requires high { day ≤ 1000000 }
    requires keys { KeysDiffer history.now }
    ensures { IfOk result (λ all. all.items ≡ defined_notices tuples.now tariffs.now day (defined_paid history.now)) }
{
    let output = outputs(alloc, tuples, tariffs, day, history)?;
    Ok(output.notices)
}
