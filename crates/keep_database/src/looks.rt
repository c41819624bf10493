// A query of what was committed.
ghost use Rattle.std.specs.Prelude.{IfOk, IfErr};
ghost use Rattle.sqlite.specs.Values.{bound};
ghost use Rattle.sqlite.specs.Held.{state};
ghost use Rattle.sqlite.specs.State.{HasCleanDisk, KeepsCommit, Survives};
ghost use Rattle.keep_writes.specs.Causes.{HasCause};
ghost use Rattle.keep_database.specs.Looks.{IsQuery, ShowsCommitted};

use keep_office::KeepFault;
use keep_writes::refusals::refusal;
use keep_writes::unfinished::settle;
use sqlite::types::ValueRef;
use sqlite::{Alter, Connection, Row};

/// The rows that a query shows, after what was under way is undone.
pub fn look<S: Alter>(
    conn: &mut Connection<S>,
    sql: &str,
    params: &[ValueRef<'_>],
) -> Result<Vec<Row>, KeepFault>
    requires { IsQuery sql.now (bound params.now) }
    ensures kept { HasCleanDisk (state S.Store conn.new)
        → KeepsCommit (state S.Store conn.old) (state S.Store conn.new) }
    ensures shown { HasCleanDisk (state S.Store conn.new)
        → IfOk result (λ rows. ShowsCommitted S.Store sql.now (bound params.now) conn.old conn.new rows.items) }
    ensures why { HasCleanDisk (state S.Store conn.new) → IfErr result (HasCause S.Store conn.old conn.new) }
    ensures survives { Survives (state S.Store conn.old) (state S.Store conn.new) (λ _. ⊥) }
{
    if let Err(error) = settle(conn) {
        return Err(refusal(error));
    }
    match conn.query_all(sql, params) {
        Ok(rows) => Ok(rows),
        Err(error) => Err(refusal(error)),
    }
}
