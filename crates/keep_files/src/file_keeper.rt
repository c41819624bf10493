// A keeper in a file of some disk, whose callers see nothing of the store and of the pages behind it.
ghost use Rattle.std.specs.Prelude.{◌≡◌, None, IfOk, IfErr, OnOk, option_map, string_bytes};
ghost use Rattle.keep_office.specs.Calls.{CountsFaults};
ghost use Rattle.keep_files.specs.Asked.{AskedToRead, AskedToPut};
ghost use Rattle.keep_files.specs.Closes.{IsAllEnded, IsEnded, IsNotAllEnded, IsNotEnded, IsTellingWhy, given_up};
ghost use Rattle.keep_files.specs.Origins.{TriesPath};
ghost use Rattle.keep_files.specs.Says.{Says};
ghost use Rattle.keep_files.specs.Storing.{PutsInto};

mod anew;

use crate::at_path::AtPath;
use crate::call::{Putting, Reading};
use crate::cause::Cause;
use crate::database::Database;
use crate::keeper_in::KeeperIn;
use crate::kept::Kept;
use crate::opens::Opens;
use crate::shutting::end;
use keep_office::KeepFault;
use road_time::NoMemory;
use sqlite::{Connection, FileStore};
use sqlite_pages::Pages;
use sqlite_pool::Pool;
use sqlite_trees::store::Store;
use std::alloc::Global;
use std::rt::HostRuntime;

// `at` and `cause` make no call of `KeeperIn`: the proof of each call of it over a store of files costs half a minute.

/// A keeper in a file.
#[derive(Drop)]
pub struct FileKeeper<D: AtPath> {
    pub in_file: KeeperIn<FileStore<D>, Pool<D>>,
}

impl<D: AtPath> FileKeeper<D> {
    /// The keeper in the file at a path, for which it waits that number of seconds at most where another has it open.
    pub fn at(
        alloc: Global,
        rt: HostRuntime,
        path: &str,
        wait: u32,
    ) -> Result<FileKeeper<D>, NoMemory>
        ensures faultless { IfOk result (λ keeper. keeper.in_file.faults ≡ 0) }
        ensures quiet { IfOk result (λ keeper. keeper.in_file.database.cause ≡ None) }
        ensures named { IfOk result (λ keeper. string_bytes keeper.in_file.database.path ≡ path.now) }
        ensures waits { IfOk result (λ keeper. keeper.in_file.database.wait ≡ wait) }
    {
        let path = String::from_str(alloc, path)?;
        let database = Database {
            rt,
            path,
            wait,
            places: None,
            kept: None,
            cause: None,
            unfolded: None,
        };
        let in_file = KeeperIn {
            database,
            faults: 0,
        };
        Ok(FileKeeper { in_file })
    }

    /// The pages or the connection, if the database is open.
    pub fn give_up(self) -> Option<Kept<Pool<D>, Connection<FileStore<D>>>>
        ensures { result ≡ option_map given_up self.in_file.database.kept }
    {
        let FileKeeper { in_file } = self;
        in_file.give_up()
    }

    /// Closes the file, if it is open: what its log has is copied into it. Where that failed, or did behind the last put,
    /// it says why.
    pub fn end(self) -> Result<(), Cause>
        ensures ended { OnOk result
            (IsAllEnded IsEnded (option_map given_up self.in_file.database.kept) self.in_file.database.unfolded) }
        ensures failed { IfErr result
            (IsNotAllEnded IsNotEnded (option_map given_up self.in_file.database.kept) self.in_file.database.unfolded) }
    {
        let unfolded = self.in_file.database.unfolded;
        match self.give_up() {
            Some(kept) => end(kept),
            None => match unfolded {
                Some(cause) => Err(cause),
                None => Ok(()),
            },
        }
    }

    /// Why the last call failed that did, none while none failed.
    pub fn cause(&self) -> Option<Cause>
        ensures { result ≡ self.now.in_file.database.cause }
    {
        self.in_file.database.cause
    }

    /// Makes a call that reads, and counts it where it failed.
    pub fn read<C: Reading + Drop>(&mut self, call: C) -> Result<C::Answer, KeepFault>
        ensures answers { IfOk result C.answers }
        ensures does { AskedToRead ⟦<Pool<D> as Pages>⟧ ⟦<FileStore<D> as Store>⟧
            ⟦<FileStore<D> as Opens<Pool<D>>>⟧.gives ⟦<FileStore<D> as Opens<Pool<D>>>⟧.refuses ⟦<FileStore<D> as Opens<Pool<D>>>⟧.there ⟦<FileStore<D> as Opens<Pool<D>>>⟧.gone
            (C.takes call) (C.gives call) (C.shows ⟦<FileStore<D> as Store>⟧ call) (C.tells call)
            self.old.in_file.database.places self.old.in_file.database.kept (string_bytes self.old.in_file.database.path)
            self.new.in_file.database.kept self.new.in_file.database.cause result }
        ensures tried { TriesPath ⟦<FileStore<D> as Store>⟧ ⟦<FileStore<D> as Opens<Pool<D>>>⟧.gives
            ⟦<FileStore<D> as Opens<Pool<D>>>⟧.refuses
            (string_bytes self.old.in_file.database.path) self.old.in_file.database.kept }
        ensures cause { CountsFaults self.old.in_file.faults self.new.in_file.faults result }
        ensures said { Says result self.old.in_file.database self.new.in_file.database }
    {
        self.in_file.read(call)
    }

    /// Makes a call that puts, and counts it where it failed.
    pub fn put<C: Putting + Drop>(&mut self, call: C) -> Result<(), KeepFault>
        requires { C.fits call }
        ensures does { AskedToPut ⟦<Pool<D> as Pages>⟧ ⟦<FileStore<D> as Store>⟧
            ⟦<FileStore<D> as Opens<Pool<D>>>⟧.gives ⟦<FileStore<D> as Opens<Pool<D>>>⟧.refuses ⟦<FileStore<D> as Opens<Pool<D>>>⟧.there ⟦<FileStore<D> as Opens<Pool<D>>>⟧.gone
            (PutsInto ⟦<FileStore<D> as Store>⟧ (C.room call) (C.asks call) (C.next call)
            (C.finds call) (C.makes call))
            (C.writes call) (C.asks call) (C.next call)
            self.old.in_file.database.places self.new.in_file.database.places
            self.old.in_file.database.kept (string_bytes self.old.in_file.database.path)
            self.new.in_file.database.kept self.new.in_file.database.cause result }
        ensures folded { IsTellingWhy result self.new.in_file.database.kept self.new.in_file.database.unfolded }
        ensures tried { TriesPath ⟦<FileStore<D> as Store>⟧ ⟦<FileStore<D> as Opens<Pool<D>>>⟧.gives
            ⟦<FileStore<D> as Opens<Pool<D>>>⟧.refuses
            (string_bytes self.old.in_file.database.path) self.old.in_file.database.kept }
        ensures cause { CountsFaults self.old.in_file.faults self.new.in_file.faults result }
        ensures said { Says result self.old.in_file.database self.new.in_file.database }
    {
        self.in_file.put(call)
    }
}
