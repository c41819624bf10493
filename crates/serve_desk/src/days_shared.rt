// All kept days of a keeper that others may call between, each looked for in a call of its own.
ghost use Rattle.std.specs.Prelude.{◌≡◌, ◌≢◌, ◌≤◌, ◌<◌, ◌+◌, ◌-◌, ◌++◌, List, Option, Some, IfOk, IfErr, OnOk};
ghost use Rattle.road_io.specs.Faults.{Rose};
ghost use Rattle.road_io.specs.Rooms.{Endless};
ghost use Rattle.keep_office.specs.Calls.{CountsFaults};
ghost use Rattle.keep_office.specs.Office.{Office, record_of, last_day as last_day_of};
ghost use Rattle.keep_office.specs.declared.kept.DayRecord.{DayRecord as TheDay};
ghost use Rattle.serve_requests.specs.Lists.{days_body as body_of_days};
ghost use Rattle.serve_requests.specs.declared.session_end.SessionEnd.TheVariants.{Answered, LinkFault};
ghost use Rattle.serve_desk.specs.Answers.{good, wire_of, TellsFault};
ghost use Rattle.serve_desk.specs.Calls.{FailsShared};
ghost use Rattle.serve_desk.specs.Days.{first_day as first_of_past, as_list};
ghost use Rattle.serve_desk.specs.Shared.{AnswersListed, AnswersSome, ListsDays, ListsFrom};

use crate::answers::{send_made, send_refusal};
use crate::history::Naming;
use crate::kept_days::{add, first_of};
use crate::shared::SharedKeeper;
use http::StatusCode;
use keep_office::{DayRecord, KeepFault, Keeper};
use road_io::Link;
use serve_requests::{SessionEnd, days_body};
use std::alloc::Global;
use std::sync::Wait;

/// The first day that may be kept: the base of the history, else 1.
fn first_shared<'a, J: Naming, K: Keeper, R: Wait>(
    keeper: &mut SharedKeeper<'a, J, K, R>,
) -> Result<u32, KeepFault>
    ensures seen { IfOk result (λ first. (k : K) × ((o : Office) → K.told k ≡ Some o → first ≡ first_of_past o.past)) }
    ensures cause { CountsFaults keeper.old.faults keeper.new.faults result }
    ensures fails { IfErr result (FailsShared K.faults) }
{
    match keeper.past() {
        Ok(past) => Ok(first_of(past)),
        Err(fault) => Err(fault),
    }
}

/// The last day that is kept.
fn last_shared<'a, J: Naming, K: Keeper, R: Wait>(
    keeper: &mut SharedKeeper<'a, J, K, R>,
) -> Result<u32, KeepFault>
    ensures seen { IfOk result (λ last. (k : K) × ((o : Office) → K.told k ≡ Some o → last ≡ last_day_of o)) }
    ensures cause { CountsFaults keeper.old.faults keeper.new.faults result }
    ensures fails { IfErr result (FailsShared K.faults) }
{
    match keeper.last_day() {
        Ok(last) => Ok(last),
        Err(fault) => Err(fault),
    }
}

/// Adds the record of a day, if it is kept.
fn add_shared<'a, J: Naming, K: Keeper, R: Wait>(
    day: u32,
    keeper: &mut SharedKeeper<'a, J, K, R>,
    days: &mut Vec<DayRecord>,
) -> Result<(), KeepFault>
    ensures added { OnOk result ((k : K) × (kept : Option TheDay) × (days.new.items ≡ days.old.items ++ as_list kept)
        × ((o : Office) → K.told k ≡ Some o → kept ≡ record_of o day)) }
    ensures cause { CountsFaults keeper.old.faults keeper.new.faults result }
    ensures fails { IfErr result (FailsShared K.faults) }
{
    match keeper.day(day) {
        Ok(kept) => add(kept, days),
        Err(fault) => Err(fault),
    }
}

/// The records of the days from one to another, in the order of days.
fn list_from<'a, J: Naming, K: Keeper, R: Wait>(
    alloc: Global,
    first: u32,
    last: u32,
    keeper: &mut SharedKeeper<'a, J, K, R>,
) -> Result<Vec<DayRecord>, KeepFault>
    ensures lists { IfOk result (λ days. ListsFrom K.told first ((last + 1) - first) days.items) }
    ensures cause { CountsFaults keeper.old.faults keeper.new.faults result }
    ensures fails { IfErr result (FailsShared K.faults) }
{
    let mut days = Vec::new(alloc);
    let mut day = u64::from(first);
    while day <= u64::from(last) {
        match add_shared(day as u32, keeper, &mut days) {
            Ok(()) => day += 1,
            Err(fault) => return Err(fault),
        }
    }
    Ok(days)
}

/// The records of the kept days up to one, in the order of days.
fn list_to<'a, J: Naming, K: Keeper, R: Wait>(
    alloc: Global,
    last: u32,
    keeper: &mut SharedKeeper<'a, J, K, R>,
) -> Result<Vec<DayRecord>, KeepFault>
    requires { (k : K) × ((o : Office) → K.told k ≡ Some o → last ≡ last_day_of o) }
    ensures lists { IfOk result (λ days. ListsDays K.told days.items) }
    ensures cause { CountsFaults keeper.old.faults keeper.new.faults result }
    ensures fails { IfErr result (FailsShared K.faults) }
{
    match first_shared(keeper) {
        Ok(first) => list_from(alloc, first, last, keeper),
        Err(fault) => Err(fault),
    }
}

/// The records of all kept days, in the order of days: each day up to the last that is kept is looked for.
fn list_shared<'a, J: Naming, K: Keeper, R: Wait>(
    alloc: Global,
    keeper: &mut SharedKeeper<'a, J, K, R>,
) -> Result<Vec<DayRecord>, KeepFault>
    ensures lists { IfOk result (λ days. ListsDays K.told days.items) }
    ensures cause { CountsFaults keeper.old.faults keeper.new.faults result }
    ensures fails { IfErr result (FailsShared K.faults) }
{
    match last_shared(keeper) {
        Ok(last) => list_to(alloc, last, keeper),
        Err(fault) => Err(fault),
    }
}

/// Answers all kept days.
pub fn share_days<'a, L: Link, J: Naming, K: Keeper, R: Wait>(
    alloc: Global,
    keeper: &mut SharedKeeper<'a, J, K, R>,
    link: &mut L,
) -> SessionEnd
    ensures listed { AnswersListed K.told K.faults
        (wire_of (L.left link.old) (L.plan link.old) (L.written link.old) (L.room link.old))
        (wire_of (L.left link.new) (L.plan link.new) (L.written link.new) (L.room link.new)) result }
    ensures some { AnswersSome {T = List TheDay} K.faults (λ days. good (body_of_days days))
        (wire_of (L.left link.old) (L.plan link.old) (L.written link.old) (L.room link.old))
        (wire_of (L.left link.new) (L.plan link.new) (L.written link.new) (L.room link.new)) result }
    ensures unavailable { result ≡ Answered 503 → Rose keeper.old.faults keeper.new.faults }
    ensures failed { keeper.old.faults < keeper.new.faults → TellsFault result }
    ensures unread { L.left link.new ≡ L.left link.old }
    ensures sure { L.room link.old ≡ Endless → result ≢ LinkFault }
    ensures cause { result ≡ LinkFault → Rose (L.faults link.old) (L.faults link.new) }
    ensures later { L.faults link.old ≤ L.faults link.new }
{
    match list_shared(alloc, keeper) {
        Ok(days) => send_made(
            alloc,
            link,
            StatusCode::OK,
            days_body(alloc, days.as_slice()),
        ),
        Err(fault) => send_refusal(fault, link),
    }
}
