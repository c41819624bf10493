// The words of the server, read.
ghost use Rattle.std.specs.Prelude.{◌≡◌, IfOk, IfSome, map, string_bytes};
ghost use Rattle.clap.specs.Words.{first_value, found_of};
ghost use Rattle.serve_top.specs.Meaning.{ReadsServing, serving_of, serving_meant, IsServingInRange};

use crate::served_words::Serving;
use crate::table;
use clap::ArgMatches;
use office_words::{WordFault, fault_of, needed, optional};
use std::alloc::Global;

/// How to serve by the values that were found.
fn serving(m: &ArgMatches<'_>) -> Option<Serving>
    ensures value { result ≡ serving_of (first_value (found_of m.now)) }
    ensures range { IfSome result IsServingInRange }
{
    let port = needed(m, "port", 1, 65_535)?;
    let sessions = optional(m, "sessions", 1, u64::MAX, u64::MAX)?;
    let readers = optional(m, "readers", 1, 64, 4)?;
    Some(Serving {
        port: port as u16,
        sessions,
        readers: readers as u8,
    })
}

/// How to serve by the words. They are refused exactly where they are of no stated form.
pub fn read_words(alloc: Global, words: &[String]) -> Result<Serving, WordFault>
    ensures reads { ReadsServing (serving_meant (map string_bytes words.now)) result }
    ensures range { IfOk result IsServingInRange }
{
    let matches = match table::parse(alloc, words) {
        Ok(matches) => matches,
        Err(error) => return Err(fault_of(&error)),
    };
    match serving(&matches) {
        Some(serving) => Ok(serving),
        None => Err(WordFault::Words),
    }
}
