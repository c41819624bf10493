// A keeper on a connection.
ghost use Rattle.std.specs.Prelude.{◌≡◌, ◌≢◌, ◌↔◌, true, false, Some, None, Ok, Err, IsOk, IsTrue, IfErr, MatchResult};
ghost use Rattle.sqlite.specs.Held.{state};
ghost use Rattle.sqlite.specs.State.{HasCleanDisk, KeepsCommit, Survives};
ghost use Rattle.sqlite.specs.declared.error.Error.TheVariants.{SqliteFailure};
ghost use Rattle.sqlite.specs.declared.error.ErrorCode.TheVariants.{OutOfMemory};
ghost use Rattle.keep_office.specs.Office.{Office};
ghost use Rattle.keep_office.specs.declared.kept.KeepFault.TheVariants.{NoMemory};
ghost use Rattle.keep_tables.specs.Stands.{HasOffice, StandsForOffice};
ghost use Rattle.keep_tables.specs.Told.{told_in};
ghost use Rattle.keep_writes.specs.Causes.{HasCause};
ghost use Rattle.keep_writes.specs.Growth.{CommitsSame, HasVersion, IsAtRest, IsOurs, LacksVersion};
ghost use Rattle.keep_writes.specs.Objects.{MayBeMade};
ghost use Rattle.keep_writes.specs.Unmade.{CommitsTables, IsUnmadeBy, LeavesTables};
ghost use Rattle.keep_database.specs.Looks.{ShowsSecond, ShowsOther};

use crate::steady::Steady;
use crate::versions::has_second;
use keep_office::KeepFault;
use keep_writes::make;
use keep_writes::refusals::refusal;
use sqlite::{Connection, Error};
use std::alloc::Global;

/// A keeper on a connection, which counts the calls that failed.
#[derive(Drop)]
pub struct ProvedKeeper<S: Steady> {
    pub(crate) alloc: Global,
    pub(crate) conn: Connection<S>,
    pub(crate) faults: u64,
    pub(crate) unmade: Option<KeepFault>,
    pub(crate) refused: Option<Error>,
}

/// Why tables could not be made, none where they were.
fn why_unmade(made: Result<(), Error>) -> Option<KeepFault>
    ensures none { result ≡ None → IsOk made }
    ensures made { IsOk made → result ≡ None }
    ensures memory { (result ≡ Some NoMemory) ↔ (made ≡ Err (SqliteFailure OutOfMemory)) }
{
    match made {
        Ok(()) => None,
        Err(error) => Some(refusal(error)),
    }
}

/// The database's error, none where the tables were made.
fn error_of(made: Result<(), Error>) -> Option<Error>
    ensures { MatchResult made (λ _. result ≡ None) (λ e. result ≡ Some e) }
{
    match made {
        Ok(()) => None,
        Err(error) => Some(error),
    }
}

impl<S: Steady> ProvedKeeper<S> {
    /// The keeper on a connection. What is under way in it is undone, and the tables are made where nothing is listed
    /// or version 1 exactly; a database with the table of the version stays as it is, and so does one that lists
    /// anything else, which is refused. Where that is refused, `unmade` says why. Each call asks for version 2 itself,
    /// and is refused where it is not there.
    pub fn adopt(alloc: Global, connection: Connection<S>) -> ProvedKeeper<S>
        ensures tells { S.Steady.is_steady ≡ true → (o : Office)
            → StandsForOffice (state S.Store connection).committed o
            → told_in S.Steady.is_steady (state S.Store result.conn).committed ≡ Some o }
        ensures stands { HasCleanDisk (state S.Store result.conn) → IsTrue (state S.Store result.conn).is_open
            → (o : Office) → StandsForOffice (state S.Store connection).committed o
            → StandsForOffice (state S.Store result.conn).committed o }
        ensures made { HasCleanDisk (state S.Store result.conn) → IsTrue (state S.Store result.conn).is_open
            → result.unmade ≡ None → (o : Office) → StandsForOffice (state S.Store connection).committed o
            → HasOffice (state S.Store result.conn).committed o }
        ensures left { HasCleanDisk (state S.Store result.conn) → ¬ MayBeMade (state S.Store connection).committed
            → KeepsCommit (state S.Store connection) (state S.Store result.conn) }
        ensures there { HasCleanDisk (state S.Store result.conn) → HasVersion (state S.Store connection).committed
            → KeepsCommit (state S.Store connection) (state S.Store result.conn) }
        ensures ours { HasCleanDisk (state S.Store result.conn) → result.unmade ≡ None
            → IsOurs (state S.Store connection).committed }
        ensures wrote { HasCleanDisk (state S.Store result.conn) → result.unmade ≡ None
            → LacksVersion (state S.Store connection).committed → CommitsTables S.Store connection result.conn }
        ensures kept { HasCleanDisk (state S.Store result.conn) → result.unmade ≢ None
            → KeepsCommit (state S.Store connection) (state S.Store result.conn) }
        ensures rest { HasCleanDisk (state S.Store result.conn) → result.unmade ≡ None
            → IsAtRest (state S.Store result.conn) }
        ensures leaves { Survives (state S.Store connection) (state S.Store result.conn) (LeavesTables S.Store
            connection) }
        ensures crash { Survives (state S.Store connection) (state S.Store result.conn) (CommitsSame
            (state S.Store connection).committed) }
        ensures why { HasCleanDisk (state S.Store result.conn)
            → IsUnmadeBy S.Store connection result.conn result.refused }
        ensures faultless { result.faults ≡ 0 }
        ensures quiet { result.unmade ≡ None → result.refused ≡ None }
        ensures told { result.refused ≡ None → result.unmade ≡ None }
        ensures memory { (result.unmade ≡ Some NoMemory) ↔ (result.refused ≡ Some (SqliteFailure OutOfMemory)) }
    {
        let mut conn = connection;
        let made = make(&mut conn, alloc);
        ProvedKeeper {
            alloc,
            conn,
            faults: 0,
            unmade: why_unmade(made),
            refused: error_of(made),
        }
    }

    /// Why the tables could not be made as the connection was adopted, none where they were.
    pub fn unmade(&self) -> Option<KeepFault>
        ensures { result ≡ self.now.unmade }
    {
        self.unmade
    }

    /// The error with which the database refused to make the tables, or a put since.
    pub fn refused(&self) -> Option<Error>
        ensures { result ≡ self.now.refused }
    {
        self.refused
    }

    /// Whether the database has version 2, where it can be asked.
    pub fn has_second(&mut self) -> Result<bool, KeepFault>
        ensures kept { HasCleanDisk (state S.Store self.new.conn)
            → KeepsCommit (state S.Store self.old.conn) (state S.Store self.new.conn) }
        ensures second { HasCleanDisk (state S.Store self.new.conn) → result ≡ Ok true
            → ShowsSecond S.Store self.old.conn self.new.conn }
        ensures other { HasCleanDisk (state S.Store self.new.conn) → result ≡ Ok false
            → ShowsOther S.Store self.old.conn self.new.conn }
        ensures why { HasCleanDisk (state S.Store self.new.conn)
            → IfErr result (HasCause S.Store self.old.conn self.new.conn) }
        ensures crash { Survives (state S.Store self.old.conn) (state S.Store self.new.conn) (λ _. ⊥) }
        ensures uncounted { self.new.faults ≡ self.old.faults }
        ensures quiet { self.new.refused ≡ self.old.refused }
        ensures made { self.new.unmade ≡ self.old.unmade }
    {
        has_second(&mut self.conn)
    }

    /// The connection.
    pub fn give_up(self) -> Connection<S>
        ensures { result ≡ self.conn }
    {
        let ProvedKeeper {
            alloc: _,
            conn,
            faults: _,
            unmade: _,
            refused: _,
        } = self;
        conn
    }
}
