// The body that lists all kept days.
ghost use Rattle.std.specs.Prelude.{◌≡◌, string_bytes, IfOk};
ghost use Rattle.std.specs.List.{flat_map};
ghost use Rattle.serve_requests.specs.Lists as lists;

use crate::bodies::day_body;
use keep_office::DayRecord;
use road_time::NoMemory;
use std::alloc::Global;

/// A kept day behind others.
fn next_day(alloc: Global, r: &DayRecord) -> Result<String, NoMemory>
    ensures { IfOk result (λ s. string_bytes s ≡ lists.next_day r.now) }
{
    let day = day_body(alloc, r)?;
    Ok(format!(in alloc; ",{day}")?)
}

/// Kept days behind others.
fn next_days(alloc: Global, days: &[DayRecord]) -> Result<String, NoMemory>
    ensures { IfOk result (λ s. string_bytes s ≡ flat_map lists.next_day days.now) }
{
    let mut text = String::new(alloc);
    for r in days {
        let day = next_day(alloc, r)?;
        text.push_str(day.as_str())?;
    }
    Ok(text)
}

/// Kept days, each as it is answered alone.
pub fn days_body(alloc: Global, days: &[DayRecord]) -> Result<String, NoMemory>
    ensures { IfOk result (λ s. string_bytes s ≡ lists.days_body days.now) }
{
    match days.split_first() {
        None => Ok(String::from_str(alloc, "[]")?),
        Some((first, rest)) => {
            let day = day_body(alloc, first)?;
            let next = next_days(alloc, rest)?;
            Ok(format!(in alloc; "[{day}{next}]")?)
        }
    }
}
