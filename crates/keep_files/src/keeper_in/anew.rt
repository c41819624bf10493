// A history that all begins anew with, by a keeper that counts the calls that failed.
ghost use Rattle.std.specs.Prelude.{string_bytes};
ghost use Rattle.keep_office.specs.Kept.{IsPastPut};
ghost use Rattle.keep_office.specs.Calls.{CountsFaults};
ghost use Rattle.keep_office.specs.Renewed.{anew};
ghost use Rattle.keep_tables.specs.Steps.{FitsAny};
ghost use Rattle.keep_puts.specs.Room.{RoomAnew};
ghost use Rattle.keep_puts.specs.Puts.{PutsAnew};
ghost use Rattle.keep_files.specs.Anew.{AskedAnew};
ghost use Rattle.keep_files.specs.Closes.{IsTellingWhy};
ghost use Rattle.keep_files.specs.Origins.{TriesPath};
ghost use Rattle.keep_files.specs.Says.{Says};
ghost use Rattle.keep_files.specs.Storing.{FindsAny, PutsInto};

use super::KeeperIn;
use crate::opens::Opens;
use keep_office::{KeepFault, PastRecord};
use keep_writes::refusals::count;
use road_time::SpentRow;
use sqlite_pages::Pages;

impl<S: Opens<P>, P: Pages + Drop> KeeperIn<S, P> {
    /// Begins anew with a history, and counts the call where it failed.
    pub fn put_anew(&mut self, kept: &PastRecord, rows: &[SpentRow]) -> Result<(), KeepFault>
        requires { IsPastPut kept.now rows.now }
        ensures does { AskedAnew P.Pages S.Store S.Opens.gives S.Opens.refuses S.Opens.foreign S.Opens.there S.Opens.gone
            (PutsInto S.Store (RoomAnew rows.now) FitsAny (anew kept.now rows.now)
            FindsAny (PutsAnew kept.now rows.now))
            self.old.database.places self.new.database.places
            self.old.database.kept (string_bytes self.old.database.path)
            self.new.database.kept self.new.database.cause result }
        ensures folded { IsTellingWhy result self.new.database.kept self.new.database.unfolded }
        ensures tried { TriesPath S.Store S.Opens.gives S.Opens.refuses
            (string_bytes self.old.database.path) self.old.database.kept }
        ensures cause { CountsFaults self.old.faults self.new.faults result }
        ensures said { Says result self.old.database self.new.database }
    {
        let answer = self.database.put_anew(kept, rows);
        count(&mut self.faults, answer)
    }
}
