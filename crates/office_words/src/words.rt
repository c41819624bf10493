// The words of the command line, read.
ghost use Rattle.std.specs.Prelude.{◌≡◌, IfOk, map, string_bytes};
ghost use Rattle.clap.specs.Words.{kind_of};
ghost use Rattle.clap.specs.declared.error.kind.ErrorKind.TheVariants as kind;
ghost use Rattle.office_words.specs.Meaning.{ReadsCommand, means, IsInRange};

use crate::command::{Command, WordFault};
use crate::{reading, table};
use clap::Error;
use clap::error::ErrorKind;
use std::alloc::Global;

/// Why there are no matches.
pub fn fault_of(error: &Error) -> WordFault
    ensures words { (result ≡ WordFault.Words) → (kind_of error.now ≡ kind.OutOfMemory) → ⊥ }
    ensures memory { (result ≡ WordFault.NoMemory) → kind_of error.now ≡ kind.OutOfMemory }
{
    match error.kind() {
        ErrorKind::OutOfMemory => WordFault::NoMemory,
        _ => WordFault::Words,
    }
}

/// The command that the words mean. They are refused exactly where they are of no stated form.
pub fn read_words(alloc: Global, words: &[String]) -> Result<Command, WordFault>
    ensures reads { ReadsCommand (means (map string_bytes words.now)) result }
    ensures range { IfOk result IsInRange }
{
    let matches = match table::parse(alloc, words) {
        Ok(matches) => matches,
        Err(error) => return Err(fault_of(&error)),
    };
    match matches.subcommand() {
        Some((name, inner)) => match reading::command(name, inner) {
            Some(command) => Ok(command),
            None => Err(WordFault::Words),
        },
        None => Err(WordFault::Words),
    }
}
