// Whether notices are those of a day.
ghost use Rattle.std.specs.Prelude.{◌≡◌, ◌≤◌, IfOk, true, slice_get};
ghost use Rattle.road_time.specs.Fits.{IsDay};
ghost use Rattle.road_time.specs.Day.{notices as defined_notices};
ghost use Rattle.road_time.specs.History.{paid, KeysDiffer};
ghost use Rattle.road_rules.specs.Verdicts.{IsVerdict};

use crate::output::plain_notices;
use road_time::{NoMemory, Notice, SpentRow, Tariffs, Tuple};
use std::alloc::Global;

/// Whether notices are those of a day, and where not, the first line, from 1, at which they part: what the day has
/// there, and what was found.
#[derive(Clone, Copy, Debug, PartialEq, Eq)]
pub enum Verdict {
    Agree,
    Differs {
        line: u64,
        wanted: Option<Notice>,
        found: Option<Notice>,
    },
}

/// Whether both are the same notice.
fn is_same(wanted: Notice, found: Notice) -> bool
    ensures yes { result ≡ true → wanted ≡ found }
    ensures no { wanted ≡ found → result ≡ true }
{
    match (wanted, found) {
        (
            Notice::Toll {
                vid,
                time,
                lav,
                toll,
            },
            Notice::Toll {
                vid: other,
                time: at,
                lav: average,
                toll: amount,
            },
        ) => vid == other && time == at && lav == average && toll == amount,
        (
            Notice::Alert { time, vid, seg },
            Notice::Alert {
                time: at,
                vid: other,
                seg: segment,
            },
        ) => { time == at && vid == other && seg == segment }
        (
            Notice::Balance { time, qid, amount },
            Notice::Balance {
                time: at,
                qid: asked,
                amount: other,
            },
        ) => { time == at && qid == asked && amount == other }
        (
            Notice::Spent { time, qid, amount },
            Notice::Spent {
                time: at,
                qid: asked,
                amount: other,
            },
        ) => { time == at && qid == asked && amount == other }
        _ => false,
    }
}

/// Whether both are the same notice, or none.
fn are_same(wanted: Option<Notice>, found: Option<Notice>) -> bool
    ensures yes { result ≡ true → wanted ≡ found }
    ensures no { wanted ≡ found → result ≡ true }
{
    match (wanted, found) {
        (None, None) => true,
        (Some(here), Some(there)) => is_same(here, there),
        _ => false,
    }
}

/// The notice at a place, if there is one.
#[tactic(auto, using(std::proofs::lemmas::Option::slice_get_read, std::proofs::lemmas::Option::slice_get_past))]
fn at(notices: &[Notice], i: usize) -> Option<Notice>
    ensures { result ≡ slice_get notices.now i }
{
    if i < notices.len() {
        Some(notices[i])
    } else {
        None
    }
}

/// The first line at which two lists part, if they do.
fn compare(wanted: &[Notice], found: &[Notice]) -> Verdict
    ensures { IsVerdict wanted.now found.now result }
{
    let lines = wanted.len().max(found.len());
    for i in 0..lines {
        let here = at(wanted, i);
        let there = at(found, i);
        if !are_same(here, there) {
            return Verdict::Differs {
                line: i as u64 + 1,
                wanted: here,
                found: there,
            };
        }
    }
    Verdict::Agree
}

/// Whether the notices are the whole output of the day with this number, where the history says what was paid on
/// earlier days.
pub fn check(
    alloc: Global,
    tuples: &[Tuple],
    tariffs: &Tariffs,
    day: u32,
    history: &[SpentRow],
    notices: &[Notice],
) -> Result<Verdict, NoMemory>
    requires fit { IsDay tuples.now }
    requires low { 70 ≤ day }
    requires high { day ≤ 1000000 }
    requires keys { KeysDiffer history.now }
    ensures { IfOk result (λ verdict. IsVerdict
        (defined_notices tuples.now tariffs.now day (paid history.now)) notices.now verdict) }
{
    let wanted = plain_notices(alloc, tuples, tariffs, day, history)?;
    Ok(compare(wanted.as_slice(), notices))
}
