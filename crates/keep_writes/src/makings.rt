// The making of tables, in one transaction.
ghost use Rattle.std.specs.Prelude.{◌≡◌, ◌≢◌, ◌⊎◌, false, [], IsTrue, IfOk, IfErr, OnOk, OnErr};
ghost use Rattle.sqlite.specs.Held.{state};
ghost use Rattle.sqlite.specs.Listing.{understood};
ghost use Rattle.sqlite.specs.State.{HasCleanDisk, Survives, KeepsCommit, IsNotRun, IsUnchanged};
ghost use Rattle.sqlite.specs.declared.error.Error.TheVariants.{SqlInputError};
ghost use Rattle.sqlite_resolve.specs.declared.error.CompileError.{CompileError};
ghost use Rattle.keep_office.specs.Office.{Office};
ghost use Rattle.keep_tables.specs.Stands.{HasOffice, HasOld, StandsForOffice};
ghost use Rattle.keep_tables.specs.Steps.{StaysInside};
ghost use Rattle.keep_tables.specs.Texts.{list_days};
ghost use Rattle.keep_writes.specs.Growth.{Stood, IsUnderstood, SaysIf, LacksVersion, CommitsGrown, CommitsHere};
ghost use Rattle.keep_writes.specs.Growth.{CommitsListed, CommitsOpen, CommitsSame, HasVersion, IsOurs};
ghost use Rattle.keep_writes.specs.Growth.{IsAtRest};
ghost use Rattle.keep_writes.specs.Objects.{Lists, MayBeMade, texts_of};
ghost use Rattle.keep_writes.specs.Unmade.{new_texts, lacking_texts, MakesTables, EndsTables, EndsInside};
ghost use Rattle.keep_writes.specs.Unmade.{CommitsTables, IsUnmade, SeesCommitted};
ghost use Rattle.keep_writes.specs.Unmade.{LeavesGrown, LeavesListed, LeavesHere, LeavesOpen, LeavesTables};

use crate::objects::{are_texts, list_texts};
use crate::seals::seal_tables;
use crate::tables::{make_old, make_rest, put_version};
use crate::unfinished::settle;
use sqlite::{Alter, Connection, Error, ErrorCode, Transaction};
use std::alloc::Global;

/// Undoes what is under way, and makes the tables where nothing is listed or version 1 exactly. A database with the
/// table of the version stays as it is, and one that lists anything else is refused and stays as it is.
pub fn make<S: Alter>(conn: &mut Connection<S>, alloc: Global) -> Result<(), Error>
    ensures stands { HasCleanDisk (state S.Store conn.new) → IsTrue (state S.Store conn.new).is_open → (o : Office)
        → StandsForOffice (state S.Store conn.old).committed o
        → OnOk result (HasOffice (state S.Store conn.new).committed o)
        × OnErr result (StandsForOffice (state S.Store conn.new).committed o) }
    ensures left { HasCleanDisk (state S.Store conn.new) → ¬ MayBeMade (state S.Store conn.old).committed
        → KeepsCommit (state S.Store conn.old) (state S.Store conn.new) }
    ensures ours { HasCleanDisk (state S.Store conn.new) → OnOk result (IsOurs (state S.Store conn.old).committed) }
    ensures rest { HasCleanDisk (state S.Store conn.new) → OnOk result (IsAtRest (state S.Store conn.new)) }
    ensures there { HasCleanDisk (state S.Store conn.new) → HasVersion (state S.Store conn.old).committed
        → KeepsCommit (state S.Store conn.old) (state S.Store conn.new) }
    ensures wrote { HasCleanDisk (state S.Store conn.new) → LacksVersion (state S.Store conn.old).committed
        → OnOk result (CommitsTables S.Store conn.old conn.new) }
    ensures refused { HasCleanDisk (state S.Store conn.new)
        → OnErr result (KeepsCommit (state S.Store conn.old) (state S.Store conn.new)) }
    ensures why { HasCleanDisk (state S.Store conn.new) → IfErr result (IsUnmade S.Store conn.old conn.new) }
    ensures leaves { Survives (state S.Store conn.old) (state S.Store conn.new) (LeavesTables S.Store conn.old) }
    ensures crash { Survives (state S.Store conn.old) (state S.Store conn.new) (CommitsSame
        (state S.Store conn.old).committed) }
{
    settle(conn)?;
    make_here(conn, alloc)
}

/// Makes them, where nothing is under way.
fn make_here<S: Alter>(conn: &mut Connection<S>, alloc: Global) -> Result<(), Error>
    ensures made { HasCleanDisk (state S.Store conn.new)
        → (state S.Store conn.old).now ≡ (state S.Store conn.old).committed → (o : Office)
        → StandsForOffice (state S.Store conn.old).now o
        → OnOk result (HasOffice (state S.Store conn.new).committed o) }
    ensures open { HasCleanDisk (state S.Store conn.new) → IsTrue (state S.Store conn.new).is_open
        → IsTrue (state S.Store conn.old).is_open }
    ensures refused { HasCleanDisk (state S.Store conn.new)
        → OnErr result (KeepsCommit (state S.Store conn.old) (state S.Store conn.new)) }
    ensures left { HasCleanDisk (state S.Store conn.new) → ¬ MayBeMade (state S.Store conn.old).now
        → KeepsCommit (state S.Store conn.old) (state S.Store conn.new) }
    ensures ours { HasCleanDisk (state S.Store conn.new) → OnOk result (IsOurs (state S.Store conn.old).now) }
    ensures rest { HasCleanDisk (state S.Store conn.new) → SeesCommitted (state S.Store conn.old)
        → (state S.Store conn.old).in_transaction ≡ false → OnOk result (IsAtRest (state S.Store conn.new)) }
    ensures there { HasCleanDisk (state S.Store conn.new) → HasVersion (state S.Store conn.old).now
        → KeepsCommit (state S.Store conn.old) (state S.Store conn.new) }
    ensures wrote { HasCleanDisk (state S.Store conn.new) → SeesCommitted (state S.Store conn.old)
        → LacksVersion (state S.Store conn.old).now → OnOk result (CommitsTables S.Store conn.old conn.new) }
    ensures why { HasCleanDisk (state S.Store conn.new) → SeesCommitted (state S.Store conn.old)
        → IfErr result (λ e. IsTrue (state S.Store conn.old).in_transaction
        ⊎ IsUnmade S.Store conn.old conn.new e) }
    ensures leaves { Survives (state S.Store conn.old) (state S.Store conn.new) (LeavesOpen S.Store conn.old) }
    ensures crash { Survives (state S.Store conn.old) (state S.Store conn.new) (CommitsOpen (state S.Store conn.old)) }
{
    if is_there(conn, "SELECT version FROM form WHERE one = 1")? {
        return Ok(());
    }
    grow_by(conn, alloc)
}

/// Makes those that lack, where there are not all six.
fn grow_by<S: Alter>(conn: &mut Connection<S>, alloc: Global) -> Result<(), Error>
    ensures grown { HasCleanDisk (state S.Store conn.new) → LacksVersion (state S.Store conn.old).now → (o : Office)
        → StandsForOffice (state S.Store conn.old).now o
        → OnOk result (HasOffice (state S.Store conn.new).committed o) }
    ensures open { HasCleanDisk (state S.Store conn.new) → IsTrue (state S.Store conn.new).is_open
        → IsTrue (state S.Store conn.old).is_open }
    ensures refused { HasCleanDisk (state S.Store conn.new)
        → OnErr result (KeepsCommit (state S.Store conn.old) (state S.Store conn.new)) }
    ensures left { HasCleanDisk (state S.Store conn.new) → ¬ MayBeMade (state S.Store conn.old).now
        → KeepsCommit (state S.Store conn.old) (state S.Store conn.new) }
    ensures ours { HasCleanDisk (state S.Store conn.new) → OnOk result (MayBeMade (state S.Store conn.old).now) }
    ensures rest { HasCleanDisk (state S.Store conn.new) → OnOk result (IsAtRest (state S.Store conn.new)) }
    ensures wrote { HasCleanDisk (state S.Store conn.new) → SeesCommitted (state S.Store conn.old)
        → OnOk result (CommitsTables S.Store conn.old conn.new) }
    ensures why { HasCleanDisk (state S.Store conn.new) → SeesCommitted (state S.Store conn.old)
        → IfErr result (λ e. IsTrue (state S.Store conn.old).in_transaction
        ⊎ IsUnmade S.Store conn.old conn.new e) }
    ensures leaves { Survives (state S.Store conn.old) (state S.Store conn.new) (LeavesHere S.Store conn.old) }
    ensures crash { Survives (state S.Store conn.old) (state S.Store conn.new) (CommitsHere (state S.Store conn.old)) }
{
    let is_old = is_there(conn, "SELECT day FROM days ORDER BY day")?;
    grow_listed(conn, alloc, is_old)
}

/// Makes them, where the texts that are listed are exactly those of the tables that are there.
fn grow_listed<S: Alter>(conn: &mut Connection<S>, alloc: Global, is_old: bool) -> Result<(), Error>
    ensures grown { HasCleanDisk (state S.Store conn.new) → (o : Office)
        → Stood is_old (state S.Store conn.old).now o → OnOk result (HasOffice (state S.Store conn.new).committed o) }
    ensures open { HasCleanDisk (state S.Store conn.new) → IsTrue (state S.Store conn.new).is_open
        → IsTrue (state S.Store conn.old).is_open }
    ensures refused { HasCleanDisk (state S.Store conn.new)
        → OnErr result (KeepsCommit (state S.Store conn.old) (state S.Store conn.new)) }
    ensures left { HasCleanDisk (state S.Store conn.new) → ¬ Lists (state S.Store conn.old).now (texts_of is_old)
        → KeepsCommit (state S.Store conn.old) (state S.Store conn.new) }
    ensures listed { HasCleanDisk (state S.Store conn.new)
        → OnOk result (Lists (state S.Store conn.old).now (texts_of is_old)) }
    ensures rest { HasCleanDisk (state S.Store conn.new) → OnOk result (IsAtRest (state S.Store conn.new)) }
    ensures wrote { HasCleanDisk (state S.Store conn.new) → SeesCommitted (state S.Store conn.old)
        → SaysIf is_old (IsUnderstood (understood (state S.Store conn.old).now.schema list_days))
        → OnOk result (CommitsTables S.Store conn.old conn.new) }
    ensures why { HasCleanDisk (state S.Store conn.new) → SeesCommitted (state S.Store conn.old)
        → SaysIf is_old (IsUnderstood (understood (state S.Store conn.old).now.schema list_days))
        → IfErr result (λ e. IsTrue (state S.Store conn.old).in_transaction
        ⊎ IsUnmade S.Store conn.old conn.new e) }
    ensures leaves { Survives (state S.Store conn.old) (state S.Store conn.new) (LeavesListed S.Store is_old conn.old) }
    ensures crash { Survives (state S.Store conn.old) (state S.Store conn.new) (CommitsListed is_old
        (state S.Store conn.old)) }
{
    let texts = list_texts(conn)?;
    if !are_texts(is_old, &texts) {
        return Err(Error::SqliteFailure(ErrorCode::NotADatabase));
    }
    grow(conn, alloc, is_old)
}

/// Makes those that lack in one transaction.
fn grow<S: Alter>(conn: &mut Connection<S>, alloc: Global, is_old: bool) -> Result<(), Error>
    ensures grown { HasCleanDisk (state S.Store conn.new) → (o : Office)
        → Stood is_old (state S.Store conn.old).now o → OnOk result (HasOffice (state S.Store conn.new).committed o) }
    ensures open { HasCleanDisk (state S.Store conn.new) → IsTrue (state S.Store conn.new).is_open
        → IsTrue (state S.Store conn.old).is_open }
    ensures refused { HasCleanDisk (state S.Store conn.new)
        → OnErr result (KeepsCommit (state S.Store conn.old) (state S.Store conn.new)) }
    ensures wrote { HasCleanDisk (state S.Store conn.new) → SeesCommitted (state S.Store conn.old)
        → SaysIf is_old (IsUnderstood (understood (state S.Store conn.old).now.schema list_days))
        → Lists (state S.Store conn.old).now (texts_of is_old)
        → OnOk result (CommitsTables S.Store conn.old conn.new) }
    ensures rest { HasCleanDisk (state S.Store conn.new) → OnOk result (IsAtRest (state S.Store conn.new)) }
    ensures why { HasCleanDisk (state S.Store conn.new) → SeesCommitted (state S.Store conn.old)
        → SaysIf is_old (IsUnderstood (understood (state S.Store conn.old).now.schema list_days))
        → Lists (state S.Store conn.old).now (texts_of is_old)
        → IfErr result (λ e. IsTrue (state S.Store conn.old).in_transaction
        ⊎ IsUnmade S.Store conn.old conn.new e) }
    ensures leaves { Survives (state S.Store conn.old) (state S.Store conn.new) (LeavesGrown S.Store is_old conn.old) }
    ensures crash { Survives (state S.Store conn.old) (state S.Store conn.new) (CommitsGrown is_old
        (state S.Store conn.old)) }
{
    if !conn.is_autocommit() {
        return Err(Error::SqliteFailure(ErrorCode::TransactionState));
    }
    let mut tx = conn.transaction();
    write_tables(&mut tx, alloc, is_old)?;
    tx.commit()
}

/// Writes those that lack.
fn write_tables<S: Alter>(
    tx: &mut Transaction<'_, S>,
    alloc: Global,
    is_old: bool,
) -> Result<(), Error>
    ensures same_reference { tx.new.conn.ghost_name ≡ tx.old.conn.ghost_name }
    ensures wrote { HasCleanDisk (state S.Store tx.new.conn.now)
        → IsTrue (state S.Store tx.old.conn.now).in_transaction → (o : Office)
        → Stood is_old (state S.Store tx.old.conn.now).now o
        → OnOk result (HasOffice (state S.Store tx.new.conn.now).now o) }
    ensures inside { HasCleanDisk (state S.Store tx.new.conn.now)
        → IsTrue (state S.Store tx.old.conn.now).in_transaction
        → StaysInside (state S.Store tx.old.conn.now) (state S.Store tx.new.conn.now) result }
    ensures texts { HasCleanDisk (state S.Store tx.new.conn.now)
        → IsTrue (state S.Store tx.old.conn.now).in_transaction
        → OnOk result (MakesTables S.Store (lacking_texts is_old) tx.old.conn.now tx.new.conn.now) }
    ensures refused { HasCleanDisk (state S.Store tx.new.conn.now)
        → IsTrue (state S.Store tx.old.conn.now).in_transaction
        → IfErr result (EndsInside S.Store (EndsTables S.Store (lacking_texts is_old)) tx.old.conn.now
        tx.new.conn.now) }
    ensures survives { Survives (state S.Store tx.old.conn.now) (state S.Store tx.new.conn.now) (λ _. ⊥) }
{
    if is_old {
        return finish_tables(tx, alloc);
    }
    make_old(tx)?;
    finish_tables(tx, alloc)
}

/// Writes those that version 2 has more, with a seal for each day.
fn finish_tables<S: Alter>(tx: &mut Transaction<'_, S>, alloc: Global) -> Result<(), Error>
    ensures same_reference { tx.new.conn.ghost_name ≡ tx.old.conn.ghost_name }
    ensures wrote { HasCleanDisk (state S.Store tx.new.conn.now)
        → IsTrue (state S.Store tx.old.conn.now).in_transaction → (o : Office)
        → HasOld (state S.Store tx.old.conn.now).now o → OnOk result (HasOffice (state S.Store tx.new.conn.now).now o) }
    ensures inside { HasCleanDisk (state S.Store tx.new.conn.now)
        → IsTrue (state S.Store tx.old.conn.now).in_transaction
        → StaysInside (state S.Store tx.old.conn.now) (state S.Store tx.new.conn.now) result }
    ensures texts { HasCleanDisk (state S.Store tx.new.conn.now)
        → IsTrue (state S.Store tx.old.conn.now).in_transaction
        → OnOk result (MakesTables S.Store new_texts tx.old.conn.now tx.new.conn.now) }
    ensures refused { HasCleanDisk (state S.Store tx.new.conn.now)
        → IsTrue (state S.Store tx.old.conn.now).in_transaction
        → IfErr result (EndsInside S.Store (EndsTables S.Store new_texts) tx.old.conn.now tx.new.conn.now) }
    ensures survives { Survives (state S.Store tx.old.conn.now) (state S.Store tx.new.conn.now) (λ _. ⊥) }
{
    make_rest(tx)?;
    seal_tables(tx, alloc)?;
    put_version(tx)
}

/// Whether a query is understood, which says whether its table is there.
fn is_there<S: Alter>(conn: &mut Connection<S>, sql: &str) -> Result<bool, Error>
    ensures says { HasCleanDisk (state S.Store conn.new)
        → IfOk result (λ is. SaysIf is (IsUnderstood (understood (state S.Store conn.old).now.schema sql.now))) }
    ensures same { HasCleanDisk (state S.Store conn.new)
        → OnOk result (IsUnchanged (state S.Store conn.old) (state S.Store conn.new)) }
    ensures kept { HasCleanDisk (state S.Store conn.new)
        → KeepsCommit (state S.Store conn.old) (state S.Store conn.new) }
    ensures refused { HasCleanDisk (state S.Store conn.new)
        → IfErr result (λ e. IsNotRun (state S.Store conn.old) (state S.Store conn.new) sql.now [] e
        × ((fault : CompileError) → e ≢ SqlInputError fault)) }
    ensures survives { Survives (state S.Store conn.old) (state S.Store conn.new) (λ _. ⊥) }
{
    let Err(error) = conn.prepare(sql) else {
        return Ok(true);
    };
    misses(error)
}

/// Whether a refusal says that something is not there; handed on where it does not.
fn misses(error: Error) -> Result<bool, Error>
    ensures missed { IfOk result (λ is. (is ≡ false) × ((fault : CompileError) × (error ≡ SqlInputError fault))) }
    ensures own { IfErr result (λ e. (e ≡ error) × ((fault : CompileError) → e ≢ SqlInputError fault)) }
{
    match error {
        Error::SqlInputError(_) => Ok(false),
        other => Err(other),
    }
}
