// What was kept before tariffs were.
ghost use Rattle.std.specs.Prelude.{◌≡◌, map, IfOk};
ghost use Rattle.keep_office.specs.Office.{IsSound};
ghost use Rattle.keep_office.specs.Kept.{sealed, old_office};
ghost use Rattle.keep_office.specs.Memory.{memory_office};

use super::MemOffice;
use crate::kept::{DayRecord, OldRecord, PastRecord};
use crate::tariff_seal::seal;
use road_digest::Digest;
use road_time::{NoMemory, SpentRow, Tariffs};
use std::alloc::Global;

impl MemOffice {
    /// Keeps old records under the seal of no tariffs.
    pub fn from_old(
        alloc: Global,
        days: &[OldRecord],
        rows: &[SpentRow],
        past: Option<PastRecord>,
    ) -> Result<MemOffice, NoMemory>
        requires { IsSound (old_office days.now rows.now past) }
        ensures { IfOk result (λ office. memory_office office ≡ old_office days.now rows.now past) }
    {
        let tariffs = Tariffs::new(alloc);
        let none = seal(alloc, &tariffs)?;
        let days = seal_all(alloc, days, none)?;
        let rows = Vec::from_slice(alloc, rows)?;
        Ok(MemOffice {
            alloc,
            days,
            rows,
            past,
            tariffs,
        })
    }
}

/// The records under the tariffs that a seal stands for.
fn seal_all(alloc: Global, days: &[OldRecord], tariffs: Digest) -> Result<Vec<DayRecord>, NoMemory>
    ensures { IfOk result (λ records. records.items ≡ map (sealed tariffs) days.now) }
{
    let records = days.iter().map(|kept| kept.seal(tariffs)).collect(alloc)?;
    Ok(records)
}
