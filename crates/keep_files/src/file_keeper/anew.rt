// A history that all begins anew with, by a keeper in a file.
ghost use Rattle.std.specs.Prelude.{string_bytes};
ghost use Rattle.keep_office.specs.Kept.{IsPastPut};
ghost use Rattle.keep_office.specs.Calls.{CountsFaults};
ghost use Rattle.keep_office.specs.Renewed.{anew};
ghost use Rattle.keep_tables.specs.Steps.{FitsAny};
ghost use Rattle.keep_puts.specs.Room.{RoomAnew};
ghost use Rattle.keep_puts.specs.Puts.{PutsAnew};
ghost use Rattle.keep_files.specs.Anew.{AskedAnew};
ghost use Rattle.keep_files.specs.Closes.{IsTellingWhy};
ghost use Rattle.keep_files.specs.Origins.{TriesPath};
ghost use Rattle.keep_files.specs.Says.{Says};
ghost use Rattle.keep_files.specs.Storing.{FindsAny, PutsInto};

use super::FileKeeper;
use crate::at_path::AtPath;
use crate::opens::Opens;
use keep_office::{KeepFault, PastRecord};
use road_time::SpentRow;
use sqlite::FileStore;
use sqlite_pages::Pages;
use sqlite_pool::Pool;
use sqlite_trees::store::Store;

impl<D: AtPath> FileKeeper<D> {
    /// Begins anew with a history, and counts the call where it failed.
    pub fn put_anew(&mut self, kept: &PastRecord, rows: &[SpentRow]) -> Result<(), KeepFault>
        requires { IsPastPut kept.now rows.now }
        ensures does { AskedAnew ⟦<Pool<D> as Pages>⟧ ⟦<FileStore<D> as Store>⟧
            ⟦<FileStore<D> as Opens<Pool<D>>>⟧.gives ⟦<FileStore<D> as Opens<Pool<D>>>⟧.refuses
            ⟦<FileStore<D> as Opens<Pool<D>>>⟧.foreign ⟦<FileStore<D> as Opens<Pool<D>>>⟧.there ⟦<FileStore<D> as Opens<Pool<D>>>⟧.gone
            (PutsInto ⟦<FileStore<D> as Store>⟧ (RoomAnew rows.now) FitsAny (anew kept.now rows.now)
            FindsAny (PutsAnew kept.now rows.now))
            self.old.in_file.database.places self.new.in_file.database.places
            self.old.in_file.database.kept (string_bytes self.old.in_file.database.path)
            self.new.in_file.database.kept self.new.in_file.database.cause result }
        ensures folded { IsTellingWhy result self.new.in_file.database.kept self.new.in_file.database.unfolded }
        ensures tried { TriesPath ⟦<FileStore<D> as Store>⟧ ⟦<FileStore<D> as Opens<Pool<D>>>⟧.gives
            ⟦<FileStore<D> as Opens<Pool<D>>>⟧.refuses
            (string_bytes self.old.in_file.database.path) self.old.in_file.database.kept }
        ensures cause { CountsFaults self.old.in_file.faults self.new.in_file.faults result }
        ensures said { Says result self.old.in_file.database self.new.in_file.database }
    {
        self.in_file.put_anew(kept, rows)
    }
}
