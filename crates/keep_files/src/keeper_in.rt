// A keeper in a database that is opened by a path: it counts the calls that failed.
ghost use Rattle.std.specs.Prelude.{◌≡◌, None, IfOk, option_map, string_bytes};
ghost use Rattle.keep_office.specs.Calls.{CountsFaults};
ghost use Rattle.keep_files.specs.Asked.{AskedToRead, AskedToPut};
ghost use Rattle.keep_files.specs.Closes.{IsTellingWhy, given_up};
ghost use Rattle.keep_files.specs.Origins.{TriesPath};
ghost use Rattle.keep_files.specs.Says.{Says};
ghost use Rattle.keep_files.specs.Storing.{PutsInto};

mod anew;

use crate::call::{Putting, Reading};
use crate::cause::Cause;
use crate::database::Database;
use crate::kept::Kept;
use crate::opens::Opens;
use keep_office::KeepFault;
use keep_writes::refusals::count;
use road_time::NoMemory;
use sqlite::Connection;
use sqlite_pages::Pages;
use std::alloc::Global;
use std::rt::HostRuntime;

/// A database that counts the calls that failed.
#[derive(Drop)]
pub struct KeeperIn<S: Opens<P>, P: Pages + Drop> {
    pub(crate) database: Database<S, P>,
    pub(crate) faults: u64,
}

impl<S: Opens<P>, P: Pages + Drop> KeeperIn<S, P> {
    /// The keeper in the file at a path, for which it waits that number of seconds at most where another has it open.
    pub fn at(
        alloc: Global,
        rt: HostRuntime,
        path: &str,
        wait: u32,
    ) -> Result<KeeperIn<S, P>, NoMemory>
        ensures faultless { IfOk result (λ keeper. keeper.faults ≡ 0) }
        ensures quiet { IfOk result (λ keeper. keeper.database.cause ≡ None) }
        ensures named { IfOk result (λ keeper. string_bytes keeper.database.path ≡ path.now) }
        ensures waits { IfOk result (λ keeper. keeper.database.wait ≡ wait) }
    {
        let path = String::from_str(alloc, path)?;
        Ok(KeeperIn {
            database: Database::new(rt, path, wait),
            faults: 0,
        })
    }

    /// The pages or the connection, if the database is open.
    pub fn give_up(self) -> Option<Kept<P, Connection<S>>>
        ensures { result ≡ option_map given_up self.database.kept }
    {
        let KeeperIn {
            database,
            faults: _,
        } = self;
        database.give_up()
    }

    /// Why the last call failed that did, none while none failed.
    pub fn cause(&self) -> Option<Cause>
        ensures { result ≡ self.now.database.cause }
    {
        self.database.cause
    }

    /// Makes a call that reads, and counts it where it failed.
    pub fn read<C: Reading + Drop>(&mut self, call: C) -> Result<C::Answer, KeepFault>
        ensures answers { IfOk result C.answers }
        ensures does { AskedToRead P.Pages S.Store S.Opens.gives S.Opens.refuses S.Opens.there S.Opens.gone
            (C.takes call) (C.gives call) (C.shows S.Store call) (C.tells call)
            self.old.database.places self.old.database.kept (string_bytes self.old.database.path)
            self.new.database.kept self.new.database.cause result }
        ensures tried { TriesPath S.Store S.Opens.gives S.Opens.refuses
            (string_bytes self.old.database.path) self.old.database.kept }
        ensures cause { CountsFaults self.old.faults self.new.faults result }
        ensures said { Says result self.old.database self.new.database }
    {
        let answer = self.database.read(call);
        count(&mut self.faults, answer)
    }

    /// Makes a call that puts, and counts it where it failed.
    pub fn put<C: Putting + Drop>(&mut self, call: C) -> Result<(), KeepFault>
        requires { C.fits call }
        ensures does { AskedToPut P.Pages S.Store S.Opens.gives S.Opens.refuses S.Opens.there S.Opens.gone
            (PutsInto S.Store (C.room call) (C.asks call) (C.next call) (C.finds call) (C.makes call))
            (C.writes call) (C.asks call) (C.next call)
            self.old.database.places self.new.database.places
            self.old.database.kept (string_bytes self.old.database.path)
            self.new.database.kept self.new.database.cause result }
        ensures folded { IsTellingWhy result self.new.database.kept self.new.database.unfolded }
        ensures tried { TriesPath S.Store S.Opens.gives S.Opens.refuses
            (string_bytes self.old.database.path) self.old.database.kept }
        ensures cause { CountsFaults self.old.faults self.new.faults result }
        ensures said { Says result self.old.database self.new.database }
    {
        let answer = self.database.put(call);
        count(&mut self.faults, answer)
    }
}
