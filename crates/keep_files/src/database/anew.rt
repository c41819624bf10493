// A history that all begins anew with, put into the file.
ghost use Rattle.std.specs.Prelude.{◌≡◌, None, string_bytes};
ghost use Rattle.keep_office.specs.Kept.{IsPastPut};
ghost use Rattle.keep_office.specs.Renewed.{anew};
ghost use Rattle.keep_tables.specs.Steps.{FitsAny};
ghost use Rattle.keep_puts.specs.Room.{RoomAnew};
ghost use Rattle.keep_puts.specs.Puts.{PutsAnew};
ghost use Rattle.keep_files.specs.Anew.{AnewReady, AskedAnew, IsAnewByTrees};
ghost use Rattle.keep_files.specs.Causes.{IsSaid};
ghost use Rattle.keep_files.specs.Closes.{IsTellingWhy};
ghost use Rattle.keep_files.specs.Origins.{TriesPath};
ghost use Rattle.keep_files.specs.Storing.{FindsAny, PutsInto};

use super::{Database, held_again};
use crate::cause::{Cause, say, say_of_store};
use crate::kept::Kept;
use crate::opens::Opens;
use keep_office::{KeepFault, PastRecord};
use keep_trees::PageTrees;
use road_time::SpentRow;
use sqlite_pages::Pages;

impl<S: Opens<P>, P: Pages + Drop> Database<S, P> {
    /// Begins anew with a history, in the store of the trees of the file, which has to be exactly ours.
    pub(crate) fn put_anew(&mut self, kept: &PastRecord, rows: &[SpentRow]) -> Result<(), KeepFault>
        requires { IsPastPut kept.now rows.now }
        ensures does { AskedAnew P.Pages S.Store S.Opens.gives S.Opens.refuses S.Opens.foreign S.Opens.there S.Opens.gone
            (PutsInto S.Store (RoomAnew rows.now) FitsAny (anew kept.now rows.now)
            FindsAny (PutsAnew kept.now rows.now))
            self.old.places self.new.places
            self.old.kept (string_bytes self.old.path) self.new.kept self.new.cause result }
        ensures folded { IsTellingWhy result self.new.kept self.new.unfolded }
        ensures tried { TriesPath S.Store S.Opens.gives S.Opens.refuses (string_bytes self.old.path) self.old.kept }
        ensures said { IsSaid result self.old.cause self.new.cause }
        ensures stays { self.new.path ≡ self.old.path }
    {
        match self.look() {
            Ok(()) => {
                let answer = self.put_anew_ready(kept, rows);
                self.confirmed(answer)
            }
            Err(fault) => Err(fault),
        }
    }

    /// Begins anew with a history, in the store of the trees of what is held, or of what is opened for it.
    fn put_anew_ready(&mut self, kept: &PastRecord, rows: &[SpentRow]) -> Result<(), KeepFault>
        requires { IsPastPut kept.now rows.now }
        ensures does { AnewReady P.Pages S.Store S.Opens.gives S.Opens.refuses S.Opens.foreign
            (PutsInto S.Store (RoomAnew rows.now) FitsAny (anew kept.now rows.now)
            FindsAny (PutsAnew kept.now rows.now))
            self.old.kept (string_bytes self.old.path) self.new.kept self.new.cause result }
        ensures folded { IsTellingWhy result self.new.kept self.new.unfolded }
        ensures tried { TriesPath S.Store S.Opens.gives S.Opens.refuses (string_bytes self.old.path) self.old.kept }
        ensures said { IsSaid result self.old.cause self.new.cause }
        ensures stays { self.new.path ≡ self.old.path }
    {
        let ready = match self.ready() {
            Ok(ready) => ready,
            Err(cause) => return Err(say(&mut self.cause, cause)),
        };
        let whole = match ready {
            Kept::Trees(trees) => return self.put_anew_by(trees, kept, rows),
            Kept::Whole(whole) => whole,
        };
        match S::to_read_again(&self.rt, whole.give_up().into_store()) {
            Ok(trees) => self.put_anew_by(trees, kept, rows),
            Err(None) => Err(say(&mut self.cause, Cause::NotOurs)),
            Err(Some(cause)) => Err(say(&mut self.cause, cause)),
        }
    }

    /// Begins anew with a history, in the store of some trees.
    fn put_anew_by(
        &mut self,
        trees: PageTrees<P>,
        kept: &PastRecord,
        rows: &[SpentRow],
    ) -> Result<(), KeepFault>
        requires fits { IsPastPut kept.now rows.now }
        requires none { self.old.kept ≡ None }
        ensures does { IsAnewByTrees P.Pages S.Store S.Opens.gives S.Opens.refuses S.Opens.foreign
            (PutsInto S.Store (RoomAnew rows.now) FitsAny (anew kept.now rows.now)
            FindsAny (PutsAnew kept.now rows.now))
            trees (string_bytes self.old.path) self.new.kept self.new.cause result }
        ensures folded { IsTellingWhy result self.new.kept self.new.unfolded }
        ensures said { IsSaid result self.old.cause self.new.cause }
        ensures stays { self.new.path ≡ self.old.path }
    {
        let rt = self.rt;
        let mut store = match S::to_put(&rt, trees.give_up()) {
            Ok(Kept::Trees(store)) => store,
            Ok(Kept::Whole(_)) => return Err(say(&mut self.cause, Cause::NotOurs)),
            Err(cause) => return Err(say(&mut self.cause, cause)),
        };
        let done = match keep_puts::put_anew(&mut store, rt.alloc(), kept, rows) {
            Ok(done) => done,
            Err(error) => return Err(say_of_store(&mut self.cause, error)),
        };
        if !done {
            return Err(say(&mut self.cause, Cause::NotOurs));
        }
        self.kept = held_again(&rt, store, &mut self.unfolded);
        Ok(())
    }
}
