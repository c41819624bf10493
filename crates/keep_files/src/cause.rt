// Why a call of a keeper in a file failed.
ghost use Rattle.std.specs.Prelude.{◌≡◌, ◌↔◌};
ghost use Rattle.keep_office.specs.declared.kept.KeepFault.TheVariants.{Failed, NoMemory};
ghost use Rattle.std.specs.Prelude.{Some};
ghost use Rattle.keep_files.specs.declared.cause.Cause.TheVariants.{Memory};
ghost use Rattle.keep_files.specs.Asked.{store_fault};
ghost use Rattle.keep_files.specs.Causes.{IsCauseOf, IsSaidOf, cause_in_store, checking_cause, close_cause, kind_cause};
ghost use Rattle.keep_files.specs.Causes.{opening_cause};

use keep_office::KeepFault;
use sqlite::{Error as Refused, ErrorCode};
use sqlite_pages::Error as PageError;
use sqlite_std_file::OpenError;
use sqlite_store::OpenError as Unchecked;
use sqlite_trees::error::StoreError;
use std::io::ErrorKind;
use thiserror::Error;

/// Why a call of a keeper in a file failed, as far as the database knows.
#[derive(Clone, Copy, Debug, PartialEq, Eq, Error)]
pub enum Cause {
    #[error("another program has it open")]
    InUse,
    #[error("a journal of another program lies beside it, or something else has that name")]
    Journal,
    #[error("it or its folder may not be written to")]
    ReadOnly,
    #[error("it is a link, a folder or a device, or has a second name")]
    NotPlain,
    #[error("it cannot be opened")]
    Unopened,
    #[error("the system gave no random number")]
    Undrawn,
    #[error("a page of it is spoiled")]
    Spoiled,
    #[error("it is no database of these programs")]
    NotOurs,
    #[error("it is of another version than 2")]
    OtherVersion,
    #[error("a row of it is not as these programs write it")]
    Odd,
    #[error("a page or a row of it is spoiled, or the disk failed")]
    Unreadable,
    #[error("there is no room for it on the disk")]
    NoRoom,
    #[error("the disk failed")]
    DiskFailed,
    #[error("an earlier failure of the disk closed it")]
    Shut,
    #[error("memory ran out")]
    Memory,
    #[error("it was replaced, removed or emptied while it was open, or its log was, or it got a second name")]
    Replaced,
    #[error("it is empty or missing, but its log is not: put the file back, or move the log away")]
    Emptied,
}

/// The cause that an error of the database is.
pub fn cause_of(error: Refused) -> Cause
    ensures { IsCauseOf result error }
{
    match error {
        Refused::SqliteFailure(ErrorCode::DatabaseBusy) => Cause::InUse,
        Refused::SqliteFailure(ErrorCode::CannotOpen) => Cause::Unopened,
        Refused::SqliteFailure(ErrorCode::DatabaseCorrupt) => Cause::Spoiled,
        Refused::SqliteFailure(ErrorCode::NotADatabase) => Cause::NotOurs,
        Refused::SqliteFailure(ErrorCode::DiskFull) => Cause::NoRoom,
        Refused::SqliteFailure(ErrorCode::SystemIoFailure) => Cause::DiskFailed,
        Refused::SqliteFailure(ErrorCode::Closed) => Cause::Shut,
        Refused::SqliteFailure(ErrorCode::OutOfMemory) => Cause::Memory,
        _ => Cause::Odd,
    }
}

/// The cause that an error of an opening is.
pub fn cause_of_opening(error: OpenError) -> Cause
    ensures { result ≡ opening_cause error }
{
    match error {
        OpenError::Busy => Cause::InUse,
        OpenError::HotJournal => Cause::Journal,
        OpenError::OutOfMemory => Cause::Memory,
        OpenError::Io(error) => cause_of_kind(error.kind()),
    }
}

/// The cause that a refusal of the file system is.
pub fn cause_of_kind(kind: ErrorKind) -> Cause
    ensures { result ≡ kind_cause kind }
{
    match kind {
        ErrorKind::PermissionDenied | ErrorKind::ReadOnlyFilesystem => Cause::ReadOnly,
        ErrorKind::StorageFull | ErrorKind::QuotaExceeded => Cause::NoRoom,
        ErrorKind::Unsupported | ErrorKind::IsADirectory | ErrorKind::FilesystemLoop => {
            Cause::NotPlain
        }
        ErrorKind::OutOfMemory => Cause::Memory,
        _ => Cause::Unopened,
    }
}

/// What a cause is to a keeper: want of memory, or a failure.
pub fn fault_of(cause: Cause) -> KeepFault
    ensures { (result ≡ NoMemory) ↔ (cause ≡ Memory) }
{
    match cause {
        Cause::Memory => KeepFault::NoMemory,
        _ => KeepFault::Failed,
    }
}

/// Says the cause of a failure. Want of memory is not one.
pub fn say(said: &mut Option<Cause>, cause: Cause) -> KeepFault
    ensures said { IsSaidOf result said.old said.new }
    ensures which { result ≡ Failed → said.new ≡ Some cause }
    ensures fault { (result ≡ NoMemory) ↔ (cause ≡ Memory) }
{
    match cause {
        Cause::Memory => KeepFault::NoMemory,
        _ => {
            *said = Some(cause);
            KeepFault::Failed
        }
    }
}

/// The cause that an error of a store of trees is.
fn cause_of_store(error: StoreError) -> Cause
    ensures { result ≡ cause_in_store error }
{
    match error {
        StoreError::OutOfMemory => Cause::Memory,
        StoreError::Io => Cause::DiskFailed,
        StoreError::Corrupt => Cause::Spoiled,
        StoreError::Full => Cause::NoRoom,
        StoreError::Broken => Cause::Shut,
        StoreError::Unstorable => Cause::Odd,
    }
}

/// Says the cause of a failure of a store of trees.
pub fn say_of_store(said: &mut Option<Cause>, error: StoreError) -> KeepFault
    ensures said { IsSaidOf result said.old said.new }
    ensures which { result ≡ Failed → said.new ≡ Some (cause_in_store error) }
    ensures fault { result ≡ store_fault error }
{
    say(said, cause_of_store(error))
}

/// The cause that an error of pages is as they are closed, by whether a write found no room.
pub fn cause_at_close(error: PageError, no_room: bool) -> Cause
    ensures { result ≡ close_cause error no_room }
{
    match error {
        PageError::OutOfMemory => Cause::Memory,
        PageError::Corrupt => Cause::Spoiled,
        PageError::Full => Cause::NoRoom,
        PageError::Io => {
            if no_room {
                return Cause::NoRoom;
            }
            Cause::DiskFailed
        }
    }
}

/// The cause that an error of the opening of a store is, by whether a write found no room.
pub fn cause_of_checking(error: Unchecked, no_room: bool) -> Cause
    ensures { result ≡ checking_cause error no_room }
{
    match error {
        Unchecked::OutOfMemory => Cause::Memory,
        Unchecked::Io => {
            if no_room {
                return Cause::NoRoom;
            }
            Cause::DiskFailed
        }
        Unchecked::Full => Cause::NoRoom,
        Unchecked::Refused => Cause::NotOurs,
    }
}
