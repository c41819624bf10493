// Amounts as a history's file: its digest and its length.
ghost use Rattle.std.specs.Prelude.{◌≡◌, ◌<◌, ◌≤◌, ◌^◌, length, IfOk};
ghost use Rattle.std.specs.List.{AllByRecursion};
ghost use Rattle.std.specs.String.{string_bytes};
ghost use Rattle.road_digest.specs.Digests.{digest_of};
ghost use Rattle.keep_office.specs.Renewed.{ended_line, history_text};

use crate::kept::PastRecord;
use road_digest::Digester;
use road_time::{NoMemory, SpentRow};
use std::alloc::Global;

/// The numbers of an amount fit their types.
fn fit_types(row: &SpentRow)
    ensures vid { row.now.vid < 2 ^ 32 }
    ensures xway { row.now.xway < 2 ^ 8 }
{
    // numbers that were read are known to fit their types
    let _vid = row.vid;
    let _xway = row.xway;
}

/// An amount as a line of a history.
fn line_of(alloc: Global, base: u32, row: &SpentRow) -> Result<String, NoMemory>
    requires day { row.now.day < base }
    requires tolls { row.now.tolls ≤ 9999999999 }
    ensures line { IfOk result (λ line. string_bytes line ≡ ended_line base row.now) }
    ensures short { length (ended_line base row.now) ≤ 45 }
{
    fit_types(row);
    let vid = row.vid;
    let back = base - row.day;
    let xway = row.xway;
    let tolls = row.tolls;
    let line = format!(in alloc; "{vid},{back},{xway},{tolls}\n")?;
    Ok(line)
}

/// The record of the history that amounts are.
pub fn record_of(alloc: Global, base: u32, rows: &[SpentRow]) -> Result<PastRecord, NoMemory>
    requires days { AllByRecursion (λ r. r.day < base) rows.now }
    requires tolls { AllByRecursion (λ r. r.tolls ≤ 9999999999) rows.now }
    requires few { length rows.now ≤ 4000000000 }
    ensures base { IfOk result (λ kept. kept.base ≡ base) }
    ensures digest { IfOk result (λ kept. kept.digest ≡ digest_of (history_text base rows.now)) }
    ensures bytes { IfOk result (λ kept. kept.bytes ≡ length (history_text base rows.now)) }
    ensures short { IfOk result (λ kept. kept.bytes < 2 ^ 63) }
    ensures rows { IfOk result (λ kept. kept.rows ≡ length rows.now) }
{
    let mut digester = Digester::new();
    let mut bytes: u64 = 0;
    'rows: for row in rows {
        let line = line_of(alloc, base, row)?;
        digester.add(line.as_bytes());
        bytes += line.len() as u64;
    }
    Ok(PastRecord {
        base,
        digest: digester.finish(),
        bytes,
        rows: rows.len() as u64,
    })
}
