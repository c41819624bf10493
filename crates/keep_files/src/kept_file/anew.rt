// A history that all begins anew with, put into the file.
ghost use Rattle.std.specs.Prelude.{string_bytes};
ghost use Rattle.keep_office.specs.Kept.{IsPastPut};
ghost use Rattle.keep_office.specs.Calls.{CountsFaults};
ghost use Rattle.keep_office.specs.Renewed.{anew};
ghost use Rattle.keep_tables.specs.Steps.{FitsAny};
ghost use Rattle.keep_puts.specs.Room.{RoomAnew};
ghost use Rattle.keep_puts.specs.Puts.{PutsAnew};
ghost use Rattle.keep_files.specs.Anew.{AskedAnew};
ghost use Rattle.keep_files.specs.Closes.{IsTellingWhy};
ghost use Rattle.keep_files.specs.Origins.{TriesPath};
ghost use Rattle.keep_files.specs.Says.{Says};
ghost use Rattle.keep_files.specs.Storing.{FindsAny, PutsInto};

use super::SqliteKeeper;
use crate::at_path::{KeptPages, KeptStore};
use crate::opens::Opens;
use keep_office::{KeepFault, PastRecord, Renews};
use road_time::SpentRow;
use sqlite_pages::Pages;
use sqlite_trees::store::Store;

impl Renews for SqliteKeeper {
    fn put_anew(&mut self, kept: &PastRecord, rows: &[SpentRow]) -> Result<(), KeepFault>
        requires fits { IsPastPut kept.now rows.now }
        ensures tried { TriesPath ⟦<KeptStore as Store>⟧ ⟦<KeptStore as Opens<KeptPages>>⟧.gives
            ⟦<KeptStore as Opens<KeptPages>>⟧.refuses
            (string_bytes self.old.in_file.in_file.database.path) self.old.in_file.in_file.database.kept }
        ensures cause { CountsFaults self.old.in_file.in_file.faults self.new.in_file.in_file.faults result }
        ensures said { Says result self.old.in_file.in_file.database self.new.in_file.in_file.database }
        ensures does { AskedAnew ⟦<KeptPages as Pages>⟧ ⟦<KeptStore as Store>⟧
            ⟦<KeptStore as Opens<KeptPages>>⟧.gives ⟦<KeptStore as Opens<KeptPages>>⟧.refuses
            ⟦<KeptStore as Opens<KeptPages>>⟧.foreign ⟦<KeptStore as Opens<KeptPages>>⟧.there ⟦<KeptStore as Opens<KeptPages>>⟧.gone
            (PutsInto ⟦<KeptStore as Store>⟧ (RoomAnew rows.now) FitsAny (anew kept.now rows.now)
            FindsAny (PutsAnew kept.now rows.now))
            self.old.in_file.in_file.database.places self.new.in_file.in_file.database.places
            self.old.in_file.in_file.database.kept (string_bytes self.old.in_file.in_file.database.path)
            self.new.in_file.in_file.database.kept self.new.in_file.in_file.database.cause result }
        ensures folded { IsTellingWhy result self.new.in_file.in_file.database.kept
            self.new.in_file.in_file.database.unfolded }
    {
        self.in_file.put_anew(kept, rows)
    }
}
