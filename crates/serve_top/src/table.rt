// The form of the words, as clap is told it.
ghost use Rattle.std.specs.Prelude.{◌≡◌, IfOk, map, string_bytes};
ghost use Rattle.clap.specs.Words.{app_of, FailsBy, fault_of, HasMatchesOf};
ghost use Rattle.serve_top.specs.App.{bare_server, server_app};

use clap::{ArgMatches, Command, Error};
use office_words::{option, place};
use std::alloc::{AllocError, Global};

/// The program, with no words yet.
fn bare<'a>(alloc: Global) -> Command<'a>
    ensures app { app_of result ≡ bare_server }
{
    Command::new(alloc, "serve")
        .no_binary_name(true)
        .disable_help_flag(true)
        .disable_version_flag(true)
}

/// The program with its words.
fn server<'a>(alloc: Global) -> Result<Command<'a>, AllocError>
    ensures { IfOk result (λ c. app_of c ≡ server_app) }
{
    let with_port = bare(alloc).arg(place(alloc, "port"))?;
    let with_sessions = with_port.arg(option(alloc, "sessions"))?;
    with_sessions.arg(option(alloc, "readers"))
}

/// What clap makes of the words.
pub fn parse<'a>(alloc: Global, words: &'a [String]) -> Result<ArgMatches<'a>, Error>
    ensures kinds { FailsBy (fault_of server_app (map string_bytes words.entry.now)) result }
    ensures matches { IfOk result (HasMatchesOf server_app (map string_bytes words.entry.now)) }
{
    server(alloc)?.try_get_matches_from(words)
}
