// What is said of a kept day.
ghost use Rattle.std.specs.Prelude.{◌≡◌, ◌≢◌};
ghost use Rattle.day_import.specs.declared.fault.DayFault.TheVariants as fault_of;
ghost use Rattle.day_verify.specs.Verdicts.{stopped_verdict, refused_verdict};

use day_import::DayFault;
use keep_office::{DayRecord, KeepFault};
use road_digest::Digest;
use tuples_text::Cause;

/// A vehicle and an expressway of which another amount is kept than is right, 0 for none.
#[derive(Clone, Copy, Debug, PartialEq, Eq)]
pub struct Parting {
    pub vid: u32,
    pub xway: u8,
    pub kept: u64,
    pub right: u64,
}

/// What of a day's record is kept otherwise than is right.
#[derive(Clone, Copy, Debug, PartialEq, Eq)]
pub enum Amiss {
    /// How many bytes it has.
    Bytes { kept: u64, right: u64 },
    /// How many tuples it has.
    Tuples { kept: u64, right: u64 },
    /// How many notices they cause.
    Notices { kept: u64, right: u64 },
    /// The digest of the notices.
    Text { kept: Digest, right: Digest },
    /// What it charges in all.
    Total { kept: u64, right: u64 },
}

/// What is said of a kept day.
#[derive(Clone, Copy, Debug, PartialEq, Eq)]
pub enum Verdict {
    /// The record is right, and so are all its amounts, which are so many.
    Verified { kept: DayRecord, amounts: u64 },
    /// This is the first amount, by vehicle and expressway, that is not right.
    UnsoundAmount(Parting),
    /// The amounts are right, and this is the first of the record that is not.
    UnsoundRecord(Amiss),
    /// The day is kept of other bytes.
    Differs { kept: Digest, found: Digest },
    /// The day was charged under other tariffs than those of now.
    OtherTariffs { kept: Digest, now: Digest },
    /// The day is not kept.
    NoDay,
    /// This line, counted from 1, is the first that is refused.
    Refused { line: u64, cause: Cause },
    /// The source failed.
    ReadFault,
    /// The keeper failed.
    KeeperFault,
    /// Memory ran out.
    NoMemory,
}

/// What is said of a day whose work was stopped, and not by its sink.
pub(crate) fn stopped(fault: DayFault) -> Verdict
    requires { fault ≢ fault_of.WriteFault }
    ensures { result ≡ stopped_verdict fault }
{
    match fault {
        DayFault::ReadFault => Verdict::ReadFault,
        DayFault::KeeperFault => Verdict::KeeperFault,
        DayFault::NoMemory => Verdict::NoMemory,
        DayFault::WriteFault => unreachable!(),
    }
}

/// What is said of a day whose keeper refused.
pub(crate) fn refused(fault: KeepFault) -> Verdict
    ensures { result ≡ refused_verdict fault }
{
    match fault {
        KeepFault::Failed => Verdict::KeeperFault,
        KeepFault::NoMemory => Verdict::NoMemory,
    }
}
