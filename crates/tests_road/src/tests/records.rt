// Records and amounts that the rows keep.
//
// A check takes by far the most time at what a function does besides one call, at each `?` and at each assertion. So a
// row is a function that says whether all was as it is to be, and a failed call is not.
ghost use Rattle.std.specs.Prelude.{◌≡◌};

use keep_office::{DayRecord, KeepFault, PastRecord};
use road_digest::Digest;
use road_time::SpentRow;
use std::alloc::Global;

/// An amount on expressway 0.
pub(crate) fn amount(day: u32, vid: u32, tolls: u64) -> SpentRow
    ensures { result ≡ record { day = day; vid = vid; xway = 0; tolls = tolls } }
{
    SpentRow {
        day,
        vid,
        xway: 0,
        tolls,
    }
}

/// Day 100 without a tuple, on which `total` was charged.
pub(crate) fn day_of(digest: Digest, total: u64) -> DayRecord
    ensures { result
        ≡ record {
          day = 100;
          digest = digest;
          bytes = 0;
          tuples = 0;
          notices = 0;
          notices_digest = digest;
          tariffs = digest;
          total = total;
        } }
{
    DayRecord {
        day: 100,
        digest,
        bytes: 0,
        tuples: 0,
        notices: 0,
        notices_digest: digest,
        tariffs: digest,
        total,
    }
}

/// A history of two amounts before day 100.
pub(crate) fn past_of(digest: Digest) -> PastRecord
    ensures { result ≡ record { base = 100; digest = digest; bytes = 18; rows = 2 } }
{
    PastRecord {
        base: 100,
        digest,
        bytes: 18,
        rows: 2,
    }
}

/// Whether these amounts were answered.
pub(crate) fn are_amounts(found: Result<Vec<SpentRow>, KeepFault>, wanted: &[SpentRow]) -> bool {
    match found {
        Ok(rows) => rows.as_slice() == wanted,
        Err(_) => false,
    }
}

/// Whether a digest has this text.
pub(crate) fn has_text(alloc: Global, digest: &Digest, wanted: &str) -> bool {
    match digest.text(alloc) {
        Ok(text) => text.as_str() == wanted,
        Err(_) => false,
    }
}
