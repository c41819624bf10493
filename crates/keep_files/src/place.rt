// Where the files of a database lie, and whether they still lie there.
ghost use Rattle.std.specs.Prelude.{◌≡◌, IfErr};
ghost use Rattle.keep_files.specs.Openings.{IsOfLook, IsOfOpening};
ghost use Rattle.keep_files.specs.Places.{is_held};

use crate::cause::{Cause, cause_of_kind};
use std::fs;
use std::io::{ErrorKind, Read};
use std::os::unix::fs::MetadataExt;
use std::rt::HostRuntime;

/// The longest log that has no page: a header, and what the making of a new file writes behind it.
const EMPTY_LOG: u64 = 41;

/// Where a file lies: its device, its number there, how many names it has, and its bytes. As long as a file is open, no
/// other has its device and number.
#[derive(Clone, Copy, Debug, PartialEq, Eq)]
pub struct Place {
    pub device: u64,
    pub number: u64,
    pub names: u64,
    pub bytes: u64,
}

impl Place {
    /// The place of a file that has none, since it lies in memory.
    pub const NOWHERE: Place = Place {
        device: 0,
        number: 0,
        names: 1,
        bytes: 0,
    };
}

/// Where the two files of a database lie, with the path of its log.
#[derive(Debug, Drop)]
pub struct Places {
    pub database: Place,
    pub log: Option<Place>,
    pub log_path: String,
}

/// The place of the file that a path names, behind a link that stands there.
fn place_at(rt: &HostRuntime, path: &str) -> Result<Place, Cause>
    ensures { IfErr result IsOfLook }
{
    match fs::metadata(rt, path) {
        Ok(found) => Ok(Place {
            device: found.dev(),
            number: found.ino(),
            names: found.nlink(),
            bytes: found.len(),
        }),
        Err(error) => Err(cause_of_look(error.kind())),
    }
}

/// The cause that a refused look at a path is: there is no file, or the system refuses it.
fn cause_of_look(kind: ErrorKind) -> Cause
    ensures { IsOfLook result }
{
    match kind {
        ErrorKind::NotFound | ErrorKind::NotADirectory => Cause::Replaced,
        _ => cause_of_kind(kind),
    }
}

/// Whether the file that a path names is the one that is held, under as many names, and not empty. A put may cut what
/// lay behind the last page, but never all.
fn is_held(held: &Place, named: &Place) -> bool
    ensures { result ≡ is_held held.now named.now }
{
    held.device == named.device
        && held.number == named.number
        && held.names == named.names
        && named.bytes > 0
}

/// The path of the log of the database at a path, which the database's file puts beside the file that a link leads to.
fn log_path_of(rt: &HostRuntime, path: &str) -> Result<String, Cause>
    ensures { IfErr result IsOfLook }
{
    let real = match fs::canonicalize(rt, path) {
        Ok(real) => real,
        Err(error) => return Err(cause_of_look(error.kind())),
    };
    match format!(in rt.alloc(); "{}-wal", real.as_str()) {
        Ok(path) => Ok(path),
        Err(_) => Err(Cause::Memory),
    }
}

/// Where the files at a path lie. Where the database lay elsewhere before, it was replaced.
pub fn places_at(rt: &HostRuntime, path: &str, before: &Option<Places>) -> Result<Places, Cause>
    ensures { IfErr result IsOfLook }
{
    let database = match place_at(rt, path) {
        Ok(database) => database,
        Err(cause) => return Err(cause),
    };
    if let Some(before) = before {
        if !is_held(&before.database, &database) {
            return Err(Cause::Replaced);
        }
    }
    let log_path = match log_path_of(rt, path) {
        Ok(log_path) => log_path,
        Err(cause) => return Err(cause),
    };
    match place_at(rt, log_path.as_str()) {
        Ok(log) => Ok(Places {
            database,
            log: Some(log),
            log_path,
        }),
        Err(Cause::Replaced) => Ok(Places {
            database,
            log: None,
            log_path,
        }),
        Err(cause) => Err(cause),
    }
}

/// Looks whether the files at a path are those that lay there.
pub fn look_at(rt: &HostRuntime, path: &str, places: &Places) -> Result<(), Cause>
    ensures { IfErr result IsOfLook }
{
    let database = match place_at(rt, path) {
        Ok(database) => database,
        Err(cause) => return Err(cause),
    };
    if !is_held(&places.database, &database) {
        return Err(Cause::Replaced);
    }
    let Some(held) = places.log else {
        return Err(Cause::Replaced);
    };
    match place_at(rt, places.log_path.as_str()) {
        Ok(log) => same_file(&held, &log),
        Err(cause) => Err(cause),
    }
}

/// Nothing, where two places are of one file under as many names. A log may be empty.
fn same_file(held: &Place, named: &Place) -> Result<(), Cause>
    ensures { IfErr result IsOfLook }
{
    let filled = Place { bytes: 1, ..*named };
    if is_held(held, &filled) {
        return Ok(());
    }
    Err(Cause::Replaced)
}

/// Refuses what an opening would take for a new file and make anew, though another lost it: a file that is empty or
/// missing beside a log that has pages, or one of a single byte with which none of ours begins.
pub fn refuse_lost(rt: &HostRuntime, path: &str) -> Result<(), Cause>
    ensures { IfErr result (IsOfOpening path.now) }
{
    let bytes = match place_at(rt, path) {
        Ok(found) => found.bytes,
        Err(Cause::Replaced) => 0,
        Err(_) => return Ok(()),
    };
    if bytes == 0 {
        return refuse_emptied(rt, path);
    }
    if bytes == 1 && begins_otherwise(rt, path) {
        return Err(Cause::NotOurs);
    }
    Ok(())
}

/// Refuses the log of a file that is empty or missing, where it has pages.
fn refuse_emptied(rt: &HostRuntime, path: &str) -> Result<(), Cause>
    ensures { IfErr result (IsOfOpening path.now) }
{
    let log_path = match log_path_of(rt, path) {
        Ok(log_path) => log_path,
        Err(Cause::Replaced) => match format!(in rt.alloc(); "{}-wal", path) {
            Ok(log_path) => log_path,
            Err(_) => return Err(Cause::Memory),
        },
        Err(cause) => return Err(cause),
    };
    match place_at(rt, log_path.as_str()) {
        Ok(log) => {
            if log.bytes > EMPTY_LOG {
                return Err(Cause::Emptied);
            }
            Ok(())
        }
        Err(_) => Ok(()),
    }
}

/// Whether the first byte of a file is not that of a file of ours that is half made, which is 0.
fn begins_otherwise(rt: &HostRuntime, path: &str) -> bool {
    let Ok(mut file) = fs::open(rt, path) else {
        return false;
    };
    let mut first = [0];
    match file.read(&mut first) {
        Ok(_) => first[0] != 0,
        Err(_) => false,
    }
}
