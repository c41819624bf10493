// What is kept of a day and of a history, and why a keeper refuses.
ghost use Rattle.std.specs.Prelude.{◌≡◌};
ghost use Rattle.keep_office.specs.Kept.{sealed};

use road_digest::Digest;
use road_time::NoMemory;
use std::alloc::{AllocError, AllocFailed};
use thiserror::Error;

/// What is kept of a day: its number, the digest and length of its bytes, how many tuples it has, how many notices they
/// cause, the digest of those, the seal of the tariffs that it was charged under, and what it charges in all.
#[derive(Clone, Copy, Debug, PartialEq, Eq)]
pub struct DayRecord {
    pub day: u32,
    pub digest: Digest,
    pub bytes: u64,
    pub tuples: u64,
    pub notices: u64,
    pub notices_digest: Digest,
    pub tariffs: Digest,
    pub total: u64,
}

/// What was kept of a day before tariffs were.
#[derive(Clone, Copy, Debug, PartialEq, Eq)]
pub struct OldRecord {
    pub day: u32,
    pub digest: Digest,
    pub bytes: u64,
    pub tuples: u64,
    pub notices: u64,
    pub notices_digest: Digest,
    pub total: u64,
}

impl OldRecord {
    /// The record under the tariffs that a seal stands for.
    pub fn seal(&self, tariffs: Digest) -> DayRecord
        ensures { result ≡ sealed tariffs self.now }
    {
        DayRecord {
            day: self.day,
            digest: self.digest,
            bytes: self.bytes,
            tuples: self.tuples,
            notices: self.notices,
            notices_digest: self.notices_digest,
            tariffs,
            total: self.total,
        }
    }
}

/// What is kept of a history: the day that it is counted back from, 70 or more, the digest and length of its bytes, and
/// how many amounts of it are kept.
#[derive(Clone, Copy, Debug, PartialEq, Eq)]
pub struct PastRecord {
    pub base: u32,
    pub digest: Digest,
    pub bytes: u64,
    pub rows: u64,
}

/// Why a keeper refuses a call.
#[derive(Clone, Copy, Debug, PartialEq, Eq, Error)]
pub enum KeepFault {
    /// The keeper failed, and counted it.
    #[error("the keeper failed")]
    Failed,
    #[error("no memory")]
    NoMemory,
}

impl From<AllocError> for KeepFault {
    ghost use Rattle.keep_office.specs.declared.kept.KeepFault.TheVariants.{NoMemory};

    ghost from_gives = { λ _ fault. fault ≡ NoMemory };

    fn from(_error: AllocError) -> Self {
        KeepFault::NoMemory
    }
}

impl<T: Drop> From<AllocFailed<T>> for KeepFault {
    ghost use Rattle.keep_office.specs.declared.kept.KeepFault.TheVariants.{NoMemory};

    ghost from_gives = { λ _ fault. fault ≡ NoMemory };

    fn from(_failed: AllocFailed<T>) -> Self {
        KeepFault::NoMemory
    }
}

impl From<NoMemory> for KeepFault {
    ghost use Rattle.keep_office.specs.declared.kept.KeepFault.TheVariants.{NoMemory};

    ghost from_gives = { λ _ fault. fault ≡ NoMemory };

    fn from(_error: NoMemory) -> Self {
        KeepFault::NoMemory
    }
}
