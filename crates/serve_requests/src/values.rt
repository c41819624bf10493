// The bodies of answers as JSON values.
ghost use Rattle.std.specs.Prelude.{◌≡◌, codes, IfOk};
ghost use Rattle.serde_json.specs.Data.{number, string, unsigned, object, member, no_members};
ghost use Rattle.serde_json.specs.View.{view};

use keep_office::DayRecord;
use serde_json::{Value, json};
use std::alloc::{AllocError, Global};

pub fn error_value(alloc: Global, word: &str) -> Result<Value, AllocError>
    ensures { IfOk result (λ v. view v ≡ object (member (codes "error") (string word.now) no_members)) }
{
    json!(in alloc; {"error": word})
}

pub fn spent_value(alloc: Global, amount: u64) -> Result<Value, AllocError>
    ensures { IfOk result (λ v. view v ≡ object (member (codes "spent") (number (unsigned amount)) no_members)) }
{
    json!(in alloc; {"spent": amount})
}

pub fn health_value(alloc: Global, last: u32) -> Result<Value, AllocError>
    ensures { IfOk result (λ v. view v ≡ object (member (codes "last_day") (number (unsigned last)) no_members)) }
{
    json!(in alloc; {"last_day": last})
}

pub fn passed_value(alloc: Global, last: u32) -> Result<Value, AllocError>
    ensures { IfOk result (λ v. view v ≡ object
        (member (codes "error") (string (codes "passed"))
        (member (codes "last") (number (unsigned last)) no_members))) }
{
    json!(in alloc; {"error": "passed", "last": last})
}

pub fn differs_value(alloc: Global, found: &str, kept: &str) -> Result<Value, AllocError>
    ensures { IfOk result (λ v. view v ≡ object
        (member (codes "error") (string (codes "differs"))
        (member (codes "found") (string found.now)
        (member (codes "kept") (string kept.now) no_members)))) }
{
    json!(in alloc; {"error": "differs", "found": found, "kept": kept})
}

pub fn refused_value(alloc: Global, cause: &str, line: u64) -> Result<Value, AllocError>
    ensures { IfOk result (λ v. view v ≡ object
        (member (codes "cause") (string cause.now)
        (member (codes "error") (string (codes "refused"))
        (member (codes "line") (number (unsigned line)) no_members)))) }
{
    json!(in alloc; {"cause": cause, "error": "refused", "line": line})
}

pub fn live_value(alloc: Global, as_of: u64, balance: u64, day: u32) -> Result<Value, AllocError>
    ensures { IfOk result (λ v. view v ≡ object
        (member (codes "as_of") (number (unsigned as_of))
        (member (codes "balance") (number (unsigned balance))
        (member (codes "day") (number (unsigned day)) no_members)))) }
{
    json!(in alloc; {"as_of": as_of, "balance": balance, "day": day})
}

pub fn total_value(alloc: Global, as_of: u64, day: u32, total: u64) -> Result<Value, AllocError>
    ensures { IfOk result (λ v. view v ≡ object
        (member (codes "as_of") (number (unsigned as_of))
        (member (codes "day") (number (unsigned day))
        (member (codes "total") (number (unsigned total)) no_members)))) }
{
    json!(in alloc; {"as_of": as_of, "day": day, "total": total})
}

pub fn day_value(
    alloc: Global,
    r: &DayRecord,
    digest: &str,
    notices_digest: &str,
    tariffs: &str,
) -> Result<Value, AllocError>
    ensures { IfOk result (λ v. view v ≡ object
        (member (codes "bytes") (number (unsigned r.now.bytes))
        (member (codes "day") (number (unsigned r.now.day))
        (member (codes "digest") (string digest.now)
        (member (codes "notices") (number (unsigned r.now.notices))
        (member (codes "notices_digest") (string notices_digest.now)
        (member (codes "tariffs") (string tariffs.now)
        (member (codes "total") (number (unsigned r.now.total))
        (member (codes "tuples") (number (unsigned r.now.tuples)) no_members))))))))) }
{
    json!(in alloc; {
        "bytes": r.bytes,
        "day": r.day,
        "digest": digest,
        "notices": r.notices,
        "notices_digest": notices_digest,
        "tariffs": tariffs,
        "total": r.total,
        "tuples": r.tuples
    })
}

pub fn imported_value(
    alloc: Global,
    r: &DayRecord,
    digest: &str,
    notices_digest: &str,
    outcome: &str,
    tariffs: &str,
) -> Result<Value, AllocError>
    ensures { IfOk result (λ v. view v ≡ object
        (member (codes "bytes") (number (unsigned r.now.bytes))
        (member (codes "day") (number (unsigned r.now.day))
        (member (codes "digest") (string digest.now)
        (member (codes "notices") (number (unsigned r.now.notices))
        (member (codes "notices_digest") (string notices_digest.now)
        (member (codes "outcome") (string outcome.now)
        (member (codes "tariffs") (string tariffs.now)
        (member (codes "total") (number (unsigned r.now.total))
        (member (codes "tuples") (number (unsigned r.now.tuples)) no_members)))))))))) }
{
    json!(in alloc; {
        "bytes": r.bytes,
        "day": r.day,
        "digest": digest,
        "notices": r.notices,
        "notices_digest": notices_digest,
        "outcome": outcome,
        "tariffs": tariffs,
        "total": r.total,
        "tuples": r.tuples
    })
}
