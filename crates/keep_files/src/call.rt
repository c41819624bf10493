// The calls of a keeper as values, so that one function hands on each.
ghost use Rattle.std.specs.Prelude.{true, false, IfOk};
ghost use Rattle.sqlite.specs.Held.{state};
ghost use Rattle.sqlite.specs.State.{HasCleanDisk};
ghost use Rattle.keep_tables.specs.Steps.{FitsAny};
ghost use Rattle.keep_files.specs.Does.{Does, PutFails, PutsRun, ReadFails};
ghost use Rattle.keep_files.specs.Looks.{Looks};
ghost use Rattle.keep_files.specs.Storing.{PutsInto};

use crate::shuts::Shuts;
use keep_database::{ProvedKeeper, Steady};
use keep_office::KeepFault;
use keep_trees::PageTrees;
use sqlite_pages::Pages;
use sqlite_trees::error::StoreError;
use sqlite_trees::store::Store;
use std::alloc::Global;

/// A call of a keeper that reads, with what it is handed. `answers` is what holds of each answer, `gives` what is
/// answered of an office that is kept. `takes` is where that has what is to be taken up, for which alone a call on a
/// whole file may want memory of its own. `shows` is what the rows of a whole file show where this is the answer or the
/// fault, whatever it holds, and `tells` what those of the trees of a file do.
pub trait Reading {
    ghost use Rattle.sqlite_trees.specs.declared.store.Store.{Ghosts};
    ghost use Rattle.sqlite_trees.specs.Tree.{Trees};
    ghost use Rattle.sqlite.specs.Held.{Held};
    ghost use Rattle.std.specs.Prelude.{Result};
    ghost use Rattle.keep_office.specs.declared.kept.KeepFault.{KeepFault};
    ghost use Rattle.keep_office.specs.Office.{Office};

    type Answer;

    ghost answers: { Self.Answer → Type 0 };

    ghost gives: { Self → Office → Self.Answer → Type 0 };

    ghost takes: { Self → Office → Type 0 };

    ghost tells: { Self → Trees → Result Self.Answer KeepFault → Type 0 };

    ghost shows: { {S : Type 0} → Ghosts S → Self → Held S → Result Self.Answer KeepFault → Type 0 };

    /// Makes the call of a keeper on a whole file.
    fn ask<S: Steady>(self, kept: &mut ProvedKeeper<S>) -> Result<Self::Answer, KeepFault>
        ensures answers { IfOk result answers }
        ensures does { Does (ReadFails S.Store (takes self) kept.old kept.new) false FitsAny (gives self)
            (λ o. o) (state S.Store kept.old.conn) (state S.Store kept.new.conn) result }
        ensures shows { HasCleanDisk (state S.Store kept.new.conn) → shows S.Store self kept.old.conn result };

    /// Makes the call of the trees of a file.
    fn look<P: Pages>(
        self,
        alloc: Global,
        trees: &mut PageTrees<P>,
    ) -> Result<Self::Answer, KeepFault>
        ensures answers { IfOk result answers }
        ensures looks { Looks P.Pages (gives self) (tells self) trees.old trees.new result };
}

/// A call of a keeper that puts, with what it is handed. `fits` is what may be handed in. Of an office that is kept,
/// `asks` is what is asked and `next` what is kept then; `room` is what a store has to be like for it to be done there,
/// and `writes` are the texts, each with its values, that it writes. Of the trees of a store, whatever they hold,
/// `makes` is what is made where it is done, and `finds` what they were like then.
pub trait Putting {
    ghost use Rattle.std.specs.Prelude.{ℕ, List};
    ghost use Rattle.sqlite_value.specs.Order.{Row};
    ghost use Rattle.sqlite_trees.specs.Tree.{Trees};
    ghost use Rattle.sqlite_trees.specs.View.{View};
    ghost use Rattle.keep_office.specs.Office.{Office};

    ghost fits: { Self → Type 0 };

    ghost room: { Self → View → Type 0 };

    ghost writes: { Self → List (List ℕ × Row) };

    ghost asks: { Self → Office → Type 0 };

    ghost next: { Self → Office → Office };

    ghost finds: { Self → Trees → Type 0 };

    ghost makes: { Self → Trees → Trees → Type 0 };

    /// Makes the call of a store of the trees, and says whether it was done: it is not where it does not fit what is
    /// there.
    fn store<S: Store>(&self, alloc: Global, store: &mut S) -> Result<bool, StoreError>
        requires { fits self.now }
        ensures { PutsInto S.Store (room self.now) (asks self.now) (next self.now) (finds self.now) (makes self.now)
            store.old store.new result };

    /// Makes the call of a keeper on a whole file.
    fn put<S: Shuts>(self, kept: &mut ProvedKeeper<S>) -> Result<(), KeepFault>
        requires { fits self }
        ensures does { Does (λ _. PutFails S.Store (writes self) kept.old kept.new) true (asks self)
            (λ o u. Unit {0}) (next self)
            (state S.Store kept.old.conn) (state S.Store kept.new.conn) result }
        ensures runs { PutsRun S.Store (writes self) kept.old kept.new result };
}
