// Files that are opened by a path.
ghost use Rattle.std.specs.Prelude.{◌≡◌, true, false, IfOk, IfErr, OnOk, IsTrue};
ghost use Rattle.sqlite_std_file.specs.File.{file_is_usable, IsFresh};
ghost use Rattle.keep_files.specs.declared.cause.Cause.TheVariants.{Undrawn, Unopened};
ghost use Rattle.keep_files.specs.Openings.{IsOfLook, IsOfOpening, NamesNoFile};

use crate::cause::{Cause, cause_of_opening};
use crate::place::{Place, Places, look_at, places_at, refuse_lost};
use sqlite::{FileFrom, FileStore, Files, Start, Wary};
use sqlite_disk::{Disk, Memory};
use sqlite_pool::Pool;
use std::hash::{BuildHasher, RandomState};
use std::rt::HostRuntime;
use std::thread;
use std::time::Duration;

/// How often in a second a file is tried that another has open.
const TRIES: u32 = 20;

/// The milliseconds between two tries.
const PAUSE: u64 = 50;

/// A file of the machine. What a crash leaves of it is said without the hypothesis that a torn write leaves each byte
/// old or new.
pub type KeptDisk = FileFrom<Wary>;

/// A store in such a file.
pub type KeptStore = FileStore<KeptDisk>;

/// The pages of such a file.
pub type KeptPages = Pool<KeptDisk>;

/// Files that are opened by a path: the database and its log.
pub trait AtPath: Disk + Drop {
    ghost use Rattle.std.specs.Prelude.{ℕ, List};
    ghost use Rattle.sqlite_disk.specs.declared.Files.{Files};
    ghost use Rattle.keep_files.specs.declared.cause.Cause.{Cause};
    ghost use Rattle.keep_files.specs.declared.place.Places.{Places};

    /// What is known of the files that are opened at a path.
    ghost reaches: { List ℕ → Files Self → Type 0 };

    /// What is known where the files at a path are not opened, for a cause.
    ghost refuses: { List ℕ → Cause → Type 0 };

    /// What is known where no number is drawn, for a cause.
    ghost undrawn: { Cause → Type 0 };

    /// What is known where the files at a path are found where they lay.
    ghost there: { List ℕ → Places → Type 0 };

    /// What is known where they are not, for a cause.
    ghost gone: { List ℕ → Places → Cause → Type 0 };

    /// The two files at a path. Nobody else opens them until they are let go. Where another has them open, it waits that
    /// number of seconds at most.
    fn open(rt: &HostRuntime, path: &str, wait: u32) -> Result<Files<Self>, Cause>
        ensures usable { IfOk result (λ files. IsTrue (Self.Disk.is_usable files.log)
            × IsTrue (Self.Disk.is_usable files.db)) }
        ensures opened { IfOk result (reaches path.now) }
        ensures refused { IfErr result (refuses path.now) };

    /// Where the files at a path lie. It is refused where the database lay elsewhere before.
    fn places(rt: &HostRuntime, path: &str, before: &Option<Places>) -> Result<Places, Cause>
        ensures { IfErr result (refuses path.now) };

    /// Looks whether the files at a path are where they lay.
    fn look(rt: &HostRuntime, path: &str, places: &Places) -> Result<(), Cause>
        ensures there { OnOk result (there path.now places.now) }
        ensures gone { IfErr result (gone path.now places.now) };

    /// A number for the salt of a log.
    fn draw(rt: &HostRuntime) -> Result<u64, Cause>
        ensures { IfErr result undrawn };
}

// Nothing is known of the files of the machine but that their opening settled them, and the causes for which they may
// be refused.
impl AtPath for KeptDisk {
    ghost use Rattle.std.specs.Prelude.{◌≡◌, true, false};
    ghost use Rattle.keep_files.specs.declared.cause.Cause.TheVariants.{Undrawn};
    ghost use Rattle.sqlite_std_file.specs.File.{IsFresh};
    ghost use Rattle.keep_files.specs.Openings.{IsOfLook, IsOfOpening};

    ghost reaches = { λ path files. IsFresh true files.log × IsFresh false files.db };

    ghost refuses = { IsOfOpening };

    ghost undrawn = { λ cause. cause ≡ Undrawn };

    ghost there = { λ path places. Unit {0} };

    ghost gone = { λ path places. IsOfLook };

    fn places(rt: &HostRuntime, path: &str, before: &Option<Places>) -> Result<Places, Cause> {
        places_at(rt, path, before)
    }

    fn look(rt: &HostRuntime, path: &str, places: &Places) -> Result<(), Cause> {
        look_at(rt, path, places)
    }

    fn open(rt: &HostRuntime, path: &str, wait: u32) -> Result<Files<KeptDisk>, Cause> {
        waited_for(rt, path, wait)
    }

    fn draw(rt: &HostRuntime) -> Result<u64, Cause> {
        drawn(rt)
    }
}

/// Files in memory, which are new at each opening. None is ever refused.
impl AtPath for Memory {
    ghost use Rattle.std.specs.Prelude.{◌≡◌, []};
    ghost use Rattle.sqlite_disk.specs.Memory.{memory_bytes};

    ghost reaches = { λ path files. (memory_bytes files.log ≡ []) × (memory_bytes files.db ≡ []) };

    ghost refuses = { λ path cause. ⊥ };

    ghost undrawn = { λ cause. ⊥ };

    ghost there = { λ path places. Unit {0} };

    ghost gone = { λ path places cause. ⊥ };

    fn places(rt: &HostRuntime, _path: &str, _before: &Option<Places>) -> Result<Places, Cause> {
        Ok(Places {
            database: Place::NOWHERE,
            log: Some(Place::NOWHERE),
            log_path: String::new(rt.alloc()),
        })
    }

    fn look(_rt: &HostRuntime, _path: &str, _places: &Places) -> Result<(), Cause> {
        Ok(())
    }

    fn open(rt: &HostRuntime, _path: &str, _wait: u32) -> Result<Files<Memory>, Cause> {
        Ok(Files {
            log: Memory::new(rt.alloc()),
            db: Memory::new(rt.alloc()),
        })
    }

    fn draw(_rt: &HostRuntime) -> Result<u64, Cause> {
        Ok(1)
    }
}

/// A random number.
fn drawn(rt: &HostRuntime) -> Result<u64, Cause>
    ensures { IfErr result (λ cause. cause ≡ Undrawn) }
{
    match RandomState::new(rt) {
        Ok(random) => Ok(random.hash_one(&0u8)),
        Err(_) => Err(Cause::Undrawn),
    }
}

/// Whether a path names no file: it is that of a database in memory, or begins as an address.
fn names_no_file(path: &str) -> bool
    ensures { IsTrue result → NamesNoFile path.now }
{
    if path == ":memory:" {
        return true;
    }
    path.starts_with("file:")
}

/// The two files at a path.
fn opened<S: Start>(rt: &HostRuntime, path: &str, start: S) -> Result<Files<FileFrom<S>>, Cause>
    ensures usable { IfOk result (λ files. IsTrue (file_is_usable S.Start files.log)
        × IsTrue (file_is_usable S.Start files.db)) }
    ensures opened { IfOk result (λ files. IsFresh true files.log × IsFresh false files.db) }
    ensures refused { IfErr result (IsOfOpening path.now) }
{
    if names_no_file(path) {
        return Err(Cause::Unopened);
    }
    if let Err(cause) = refuse_lost(rt, path) {
        return Err(cause);
    }
    match sqlite_std_file::open(rt, path, start) {
        Ok(files) => Ok(files),
        Err(error) => Err(cause_of_opening(error)),
    }
}

/// The same of files of the machine. As long as another has them open it tries again, that number of seconds at most.
fn waited_for(rt: &HostRuntime, path: &str, wait: u32) -> Result<Files<KeptDisk>, Cause>
    ensures usable { IfOk result (λ files. IsTrue (file_is_usable ⟦<Wary as Start>⟧ files.log)
        × IsTrue (file_is_usable ⟦<Wary as Start>⟧ files.db)) }
    ensures opened { IfOk result (λ files. IsFresh true files.log × IsFresh false files.db) }
    ensures refused { IfErr result (IsOfOpening path.now) }
{
    for _ in 0..wait.saturating_mul(TRIES) {
        match opened(rt, path, Wary) {
            Ok(files) => return Ok(files),
            Err(Cause::InUse) => thread::sleep(rt, Duration::from_millis(PAUSE)),
            Err(cause) => return Err(cause),
        }
    }
    opened(rt, path, Wary)
}
