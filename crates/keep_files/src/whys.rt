// The cause of a call that failed, by what is held of the file.
ghost use Rattle.std.specs.Prelude.{◌≡◌, ◌≢◌, Some, None, IsSomeAnd};
ghost use Rattle.sqlite.specs.declared.error.Error.{Error};
ghost use Rattle.sqlite.specs.declared.error.Error.TheVariants.{SqliteFailure};
ghost use Rattle.sqlite.specs.declared.error.ErrorCode.TheVariants.{OutOfMemory};
ghost use Rattle.keep_files.specs.Asked.{IsHeld, SaysOf};
ghost use Rattle.keep_files.specs.Causes.{IsCauseOf, IsSaid};
ghost use Rattle.keep_files.specs.Whys.{IsOddAs, IsWhy, IsWhyOf, TellsNone};

use crate::cause::{Cause, cause_of};
use crate::kept::Kept;
use keep_database::{ProvedKeeper, Steady};
use keep_office::KeepFault;
use keep_trees::PageTrees;
use sqlite::{Error as Refused, ErrorCode};
use sqlite_pages::Pages;

/// What is held after an answer: nothing where it is a failure, which says why.
pub fn unless_failed<A, P: Pages + Drop, S: Steady>(
    answer: &Result<A, KeepFault>,
    mut kept: Kept<PageTrees<P>, ProvedKeeper<S>>,
    said: &mut Option<Cause>,
) -> Option<Kept<PageTrees<P>, ProvedKeeper<S>>>
    ensures held { IsHeld answer.now result kept }
    ensures said { IsSaid answer.now said.old said.new }
    ensures says { SaysOf (IsWhyOf S.Store) kept said.new answer.now }
{
    if let Err(KeepFault::Failed) = answer {
        *said = Some(why(&mut kept));
        return None;
    }
    Some(kept)
}

/// Why a call failed. The trees of a file say no more than that a page or a row of it is not as it should be.
fn why<P: Pages, S: Steady>(kept: &mut Kept<PageTrees<P>, ProvedKeeper<S>>) -> Cause
    ensures { IsWhyOf S.Store kept.old result }
{
    match kept {
        Kept::Trees(_) => Cause::Unreadable,
        Kept::Whole(kept) => why_whole(kept),
    }
}

/// Why a call on a whole file failed: the database's own error where it refused the making of the tables or a put, or
/// else what is odd in the file.
fn why_whole<S: Steady>(kept: &mut ProvedKeeper<S>) -> Cause
    ensures { IsWhy S.Store kept.old result }
{
    match told(kept.refused()) {
        Some(cause) => cause,
        None => oddity(kept),
    }
}

/// The cause of an error that was told, none for want of memory.
fn told(refused: Option<Refused>) -> Option<Cause>
    ensures told { (e : Error) → refused ≡ Some e → e ≢ SqliteFailure OutOfMemory
        → IsSomeAnd result (λ cause. IsCauseOf cause e) }
    ensures none { TellsNone refused → result ≡ None }
{
    match refused {
        None => None,
        Some(Refused::SqliteFailure(ErrorCode::OutOfMemory)) => None,
        Some(error) => Some(cause_of(error)),
    }
}

/// What is odd in a file: its version, or a row.
fn oddity<S: Steady>(kept: &mut ProvedKeeper<S>) -> Cause
    ensures { IsOddAs S.Store result kept.old.conn }
{
    match kept.has_second() {
        Ok(true) => Cause::Odd,
        Ok(false) => Cause::OtherVersion,
        Err(_) => Cause::Unreadable,
    }
}
