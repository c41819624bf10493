// What of a kept record is not right.
ghost use Rattle.std.specs.Prelude.{◌≡◌};
ghost use Rattle.day_verify.specs.Verdicts.{amiss_of};

use crate::verdict::Amiss;
use day_import::AnsweredDay;
use keep_office::DayRecord;
use road_digest::Digest;

/// The first of a record that is not right, by what its day comes to and the digest of its notices.
pub(crate) fn first_amiss(kept: &DayRecord, sums: &AnsweredDay, text: &Digest) -> Option<Amiss>
    ensures { result ≡ amiss_of kept.now sums.now text.now }
{
    if kept.bytes != sums.bytes {
        return Some(Amiss::Bytes {
            kept: kept.bytes,
            right: sums.bytes,
        });
    }
    if kept.tuples != sums.tuples {
        return Some(Amiss::Tuples {
            kept: kept.tuples,
            right: sums.tuples,
        });
    }
    if kept.notices != sums.notices {
        return Some(Amiss::Notices {
            kept: kept.notices,
            right: sums.notices,
        });
    }
    if kept.notices_digest.bytes != text.bytes {
        return Some(Amiss::Text {
            kept: kept.notices_digest,
            right: *text,
        });
    }
    if kept.total != sums.total {
        return Some(Amiss::Total {
            kept: kept.total,
            right: sums.total,
        });
    }
    None
}
