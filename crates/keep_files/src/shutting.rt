// The end of what is held of a file: what its log has is copied into it.
ghost use Rattle.std.specs.Prelude.{IfErr, OnOk};
ghost use Rattle.keep_files.specs.Closes.{IsEmptied, StaysFull, IsShut, StaysOpen, IsEnded, IsNotEnded};

use crate::cause::{Cause, cause_at_close, cause_of};
use crate::kept::Kept;
use sqlite::{Connection, FileStore};
use sqlite_disk::Disk;
use sqlite_pages::Pages;
use sqlite_pool::Pool;

/// Copies into the database file what the log has, and lets both go.
pub fn shut<D: Disk + Drop>(mut pool: Pool<D>) -> Result<(), Cause>
    ensures copied { OnOk result (IsEmptied pool) }
    ensures failed { IfErr result (StaysFull pool) }
{
    let before = pool.tally().refused;
    let copied = pool.checkpoint();
    let no_room = before < pool.tally().refused;
    drop(pool.close());
    match copied {
        Ok(()) => Ok(()),
        Err(error) => Err(cause_at_close(error, no_room)),
    }
}

/// The same of a connection, which is rolled back before.
fn shut_whole<D: Disk + Drop>(conn: Connection<FileStore<D>>) -> Result<(), Cause>
    ensures copied { OnOk result (IsShut conn) }
    ensures failed { IfErr result (StaysOpen conn) }
{
    match conn.close_files() {
        Ok(files) => {
            drop(files);
            Ok(())
        }
        Err((error, store)) => {
            drop(store.close());
            Err(cause_of(error))
        }
    }
}

/// The same of what is held of a file.
pub fn end<D: Disk + Drop>(kept: Kept<Pool<D>, Connection<FileStore<D>>>) -> Result<(), Cause>
    ensures ended { OnOk result (IsEnded kept) }
    ensures failed { IfErr result (IsNotEnded kept) }
{
    match kept {
        Kept::Trees(pool) => shut(pool),
        Kept::Whole(conn) => shut_whole(conn),
    }
}
