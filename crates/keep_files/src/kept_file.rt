// A keeper in a SQLite file.
ghost use Rattle.std.specs.Prelude.{◌≡◌, None, IfOk, IfErr, OnOk, option_map, string_bytes};
ghost use Rattle.keep_office.specs.Calls.{CountsFaults};
ghost use Rattle.keep_files.specs.Asked.{AskedToRead, AskedToPut};
ghost use Rattle.keep_files.specs.Closes.{FailsToEnd, IsAllEnded, IsEnded, IsNotAllEnded, IsNotEnded};
ghost use Rattle.keep_files.specs.Closes.{IsTellingWhy, given_up};
ghost use Rattle.keep_files.specs.Origins.{TriesPath};
ghost use Rattle.keep_files.specs.Says.{Says};
ghost use Rattle.keep_files.specs.Storing.{PutsInto};

mod anew;

use crate::at_path::{KeptDisk, KeptPages, KeptStore};
use crate::call::{Putting, Reading};
use crate::cause::{Cause, fault_of};
use crate::file_keeper::FileKeeper;
use crate::opens::Opens;
use keep_office::KeepFault;
use road_time::NoMemory;
use sqlite_pages::Pages;
use sqlite_trees::store::Store;
use std::alloc::Global;
use std::rt::HostRuntime;

/// The file in which the programs keep all, in the folder where they run.
pub const KEPT_FILE: &str = "tolls.db";

/// A keeper in a SQLite file. The file is opened, and made where it is not there, at the first call, and anew at the
/// call after one that failed. `close` ends it. It has no type parameter, so that a caller's check sees nothing of the
/// database behind it.
#[derive(Drop)]
pub struct SqliteKeeper {
    in_file: FileKeeper<KeptDisk>,
}

impl SqliteKeeper {
    /// The keeper in the file at a path. It waits for nobody who has it open.
    pub fn at(alloc: Global, rt: HostRuntime, path: &str) -> Result<SqliteKeeper, NoMemory>
        ensures faultless { IfOk result (λ keeper. keeper.in_file.in_file.faults ≡ 0) }
        ensures quiet { IfOk result (λ keeper. keeper.in_file.in_file.database.cause ≡ None) }
        ensures named { IfOk result (λ keeper. string_bytes keeper.in_file.in_file.database.path ≡ path.now) }
        ensures waits { IfOk result (λ keeper. keeper.in_file.in_file.database.wait ≡ 0) }
    {
        SqliteKeeper::waiting(alloc, rt, path, 0)
    }

    /// The keeper in the file at a path, for which it waits that number of seconds at most where another has it open.
    pub fn waiting(
        alloc: Global,
        rt: HostRuntime,
        path: &str,
        wait: u32,
    ) -> Result<SqliteKeeper, NoMemory>
        ensures faultless { IfOk result (λ keeper. keeper.in_file.in_file.faults ≡ 0) }
        ensures quiet { IfOk result (λ keeper. keeper.in_file.in_file.database.cause ≡ None) }
        ensures named { IfOk result (λ keeper. string_bytes keeper.in_file.in_file.database.path ≡ path.now) }
        ensures waits { IfOk result (λ keeper. keeper.in_file.in_file.database.wait ≡ wait) }
    {
        let in_file = FileKeeper::at(alloc, rt, path, wait)?;
        Ok(SqliteKeeper { in_file })
    }

    /// Why the last call failed that did, none while none failed.
    pub fn cause(&self) -> Option<Cause>
        ensures { result ≡ self.now.in_file.in_file.database.cause }
    {
        self.in_file.cause()
    }

    /// Closes the file, if it is open: what its log has is copied into it. Where that is Ok, the file alone has all
    /// that is kept, and its log has nothing. It fails too where the log was not copied behind the last put.
    pub fn close(self) -> Result<(), KeepFault>
        ensures ended { OnOk result (IsAllEnded IsEnded (option_map given_up self.in_file.in_file.database.kept)
            self.in_file.in_file.database.unfolded) }
        ensures failed { IfErr result (FailsToEnd
            (IsNotAllEnded IsNotEnded (option_map given_up self.in_file.in_file.database.kept)
            self.in_file.in_file.database.unfolded)) }
    {
        match self.end() {
            Ok(()) => Ok(()),
            Err(cause) => Err(fault_of(cause)),
        }
    }

    /// The same, and says why it failed.
    pub fn end(self) -> Result<(), Cause>
        ensures ended { OnOk result (IsAllEnded IsEnded (option_map given_up self.in_file.in_file.database.kept)
            self.in_file.in_file.database.unfolded) }
        ensures failed { IfErr result
            (IsNotAllEnded IsNotEnded (option_map given_up self.in_file.in_file.database.kept)
            self.in_file.in_file.database.unfolded) }
    {
        let SqliteKeeper { in_file } = self;
        in_file.end()
    }

    /// Makes a call that reads. It and `put` alone hand calls on to the store of files, which a check takes longest at.
    pub(crate) fn read<C: Reading + Drop>(&mut self, call: C) -> Result<C::Answer, KeepFault>
        ensures answers { IfOk result C.answers }
        ensures does { AskedToRead ⟦<KeptPages as Pages>⟧ ⟦<KeptStore as Store>⟧
            ⟦<KeptStore as Opens<KeptPages>>⟧.gives ⟦<KeptStore as Opens<KeptPages>>⟧.refuses ⟦<KeptStore as Opens<KeptPages>>⟧.there ⟦<KeptStore as Opens<KeptPages>>⟧.gone
            (C.takes call) (C.gives call) (C.shows ⟦<KeptStore as Store>⟧ call) (C.tells call)
            self.old.in_file.in_file.database.places self.old.in_file.in_file.database.kept (string_bytes self.old.in_file.in_file.database.path)
            self.new.in_file.in_file.database.kept self.new.in_file.in_file.database.cause result }
        ensures tried { TriesPath ⟦<KeptStore as Store>⟧ ⟦<KeptStore as Opens<KeptPages>>⟧.gives
            ⟦<KeptStore as Opens<KeptPages>>⟧.refuses
            (string_bytes self.old.in_file.in_file.database.path) self.old.in_file.in_file.database.kept }
        ensures cause { CountsFaults self.old.in_file.in_file.faults self.new.in_file.in_file.faults result }
        ensures said { Says result self.old.in_file.in_file.database self.new.in_file.in_file.database }
    {
        self.in_file.read(call)
    }

    /// Makes a call that puts.
    pub(crate) fn put<C: Putting + Drop>(&mut self, call: C) -> Result<(), KeepFault>
        requires { C.fits call }
        ensures does { AskedToPut ⟦<KeptPages as Pages>⟧ ⟦<KeptStore as Store>⟧
            ⟦<KeptStore as Opens<KeptPages>>⟧.gives ⟦<KeptStore as Opens<KeptPages>>⟧.refuses ⟦<KeptStore as Opens<KeptPages>>⟧.there ⟦<KeptStore as Opens<KeptPages>>⟧.gone
            (PutsInto ⟦<KeptStore as Store>⟧ (C.room call) (C.asks call) (C.next call)
            (C.finds call) (C.makes call))
            (C.writes call) (C.asks call) (C.next call)
            self.old.in_file.in_file.database.places self.new.in_file.in_file.database.places
            self.old.in_file.in_file.database.kept (string_bytes self.old.in_file.in_file.database.path)
            self.new.in_file.in_file.database.kept self.new.in_file.in_file.database.cause result }
        ensures folded { IsTellingWhy result self.new.in_file.in_file.database.kept
            self.new.in_file.in_file.database.unfolded }
        ensures tried { TriesPath ⟦<KeptStore as Store>⟧ ⟦<KeptStore as Opens<KeptPages>>⟧.gives
            ⟦<KeptStore as Opens<KeptPages>>⟧.refuses
            (string_bytes self.old.in_file.in_file.database.path) self.old.in_file.in_file.database.kept }
        ensures cause { CountsFaults self.old.in_file.in_file.faults self.new.in_file.in_file.faults result }
        ensures said { Says result self.old.in_file.in_file.database self.new.in_file.in_file.database }
    {
        self.in_file.put(call)
    }
}
