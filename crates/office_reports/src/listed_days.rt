// The list of the kept days, a line each.
ghost use Rattle.std.specs.Prelude.{◌≡◌, ◌≢◌, Some, Err, IfOk, length, take};
ghost use Rattle.std.specs.String.{string_bytes};
ghost use Rattle.hex.specs.Hex.{encode_lower};
ghost use Rattle.road_io.specs.Blame.{FaultsByPlan};
ghost use Rattle.keep_office.specs.Office.{Office, last_day};
ghost use Rattle.keep_office.specs.declared.kept.KeepFault.TheVariants.{Failed};
ghost use Rattle.office_reports.specs.DayLists.{listed_counts, listed_end, first_digits, listed_line, list_text};

use crate::finding_days::kept_days;
use keep_office::{DayRecord, KeepFault, Keeper};
use road_digest::Digest;
use road_time::NoMemory;
use std::alloc::Global;

/// The lines of the kept days, how many they are, and the last day that is kept.
#[derive(Drop)]
pub struct DayList {
    pub text: Vec<u8>,
    pub days: u64,
    pub last: u32,
}

/// The counts of a kept day.
#[tactic(auto, unfolding(crate::specs::DayLists::listed_counts))]
fn listed_counts(alloc: Global, day: u32, tuples: u64, notices: u64) -> Result<String, NoMemory>
    ensures { IfOk result (λ text. string_bytes text ≡ listed_counts day tuples notices) }
{
    let text = format!(in alloc; "day {day} tuples {tuples} notices {notices}")?;
    Ok(text)
}

/// The end of a kept day's line, with the first digits of its digest.
#[tactic(auto, unfolding(crate::specs::DayLists::listed_end))]
fn listed_end(alloc: Global, total: u64, digits: &str) -> Result<String, NoMemory>
    ensures { IfOk result (λ text. string_bytes text ≡ listed_end total digits.now) }
{
    let text = format!(in alloc; " total {total} digest {digits}\n")?;
    Ok(text)
}

/// The first 16 digits of a digest.
fn first_digits(alloc: Global, digest: &Digest) -> Result<String, NoMemory>
    ensures { IfOk result (λ text. string_bytes text ≡ encode_lower (take 8 digest.now.bytes)) }
{
    Ok(hex::encode(alloc, &digest.bytes[..8])?)
}

/// The line of a kept day.
fn listed_line(alloc: Global, kept: &DayRecord) -> Result<Vec<u8>, NoMemory>
    ensures { IfOk result (λ line. line.items ≡ listed_line kept.now) }
{
    let digits = first_digits(alloc, &kept.digest)?;
    let counts = listed_counts(alloc, kept.day, kept.tuples, kept.notices)?;
    let rest = listed_end(alloc, kept.total, digits.as_str())?;
    let mut line = Vec::new(alloc);
    line.extend_from_slice(counts.as_bytes())?;
    line.extend_from_slice(rest.as_bytes())?;
    Ok(line)
}

/// The lines of kept days.
fn list_text(alloc: Global, days: &[DayRecord]) -> Result<Vec<u8>, NoMemory>
    ensures { IfOk result (λ text. text.items ≡ list_text days.now) }
{
    let mut text = Vec::new(alloc);
    for kept in days {
        let line = listed_line(alloc, kept)?;
        text.extend_from_slice(line.as_slice())?;
    }
    Ok(text)
}

/// Lists the kept days: exactly these, in rising order. It asks for the last day and the history, and then for each day
/// from the history's base on, or from 1, up to the last.
pub fn day_list<K: Keeper>(alloc: Global, keeper: &mut K) -> Result<DayList, KeepFault>
    ensures exact { (o : Office) → K.told keeper.old ≡ Some o
        → IfOk result (λ list. (list.text.items ≡ list_text o.days) × (list.days ≡ length o.days)
        × (list.last ≡ last_day o)) }
    ensures kept { K.told keeper.new ≡ K.told keeper.old }
    ensures keeper { FaultsByPlan (K.faults keeper.old) (K.faults keeper.new) (K.plan keeper.old)
        (result ≡ Err Failed) }
{
    let found = match kept_days(alloc, keeper) {
        Ok(found) => found,
        Err(fault) => return Err(fault),
    };
    match list_text(alloc, found.records.as_slice()) {
        Ok(text) => Ok(DayList {
            text,
            days: found.records.as_slice().len() as u64,
            last: found.last,
        }),
        Err(NoMemory) => Err(KeepFault::NoMemory),
    }
}
