// A database that is opened when it is first asked for.
ghost use Rattle.std.specs.Prelude.{◌≡◌, None, IfOk, IfErr, IfSome, IsSome, OnErr, OnOk, option_map, string_bytes};
ghost use Rattle.keep_files.specs.Asked.{AskedToRead, AskedToPut, HoldsFound, IsPutBy, IsPutByTrees, IsPutOver};
ghost use Rattle.keep_files.specs.Asked.{IsReadyOf, IsUnreadOf, PutsReady, ReadsReady};
ghost use Rattle.keep_files.specs.Causes.{IsSaid};
ghost use Rattle.keep_files.specs.Closes.{IsTellingWhy, IsUnfolded, given_up};
ghost use Rattle.keep_files.specs.Openings.{AsWhole, FromStore, IsAdopted, LacksTables};
ghost use Rattle.keep_files.specs.Places.{AreGone, AreThere, IsConfirmed, IsLetGo};
ghost use Rattle.keep_files.specs.Origins.{FoundAgain, OfFile, PutsNothing, TriesPath, WasAsked};
ghost use Rattle.keep_files.specs.Storing.{PutsInto};

mod anew;

use crate::call::{Putting, Reading};
use crate::cause::{Cause, say, say_of_store};
use crate::kept::Kept;
use crate::opens::Opens;
use crate::place::Places;
use crate::whys::unless_failed;
use keep_database::{ProvedKeeper, Steady};
use keep_office::KeepFault;
use keep_trees::PageTrees;
use sqlite::Connection;
use sqlite_pages::Pages;
use std::rt::HostRuntime;

/// A database that is opened when it is first asked for: by its trees where it is exactly ours or new, or whole. A
/// call that puts is made of the store of the same trees, or of the whole. `wait` is for how many seconds an opening
/// waits for another that has the file open, `places` where the files lay as they were opened, and `cause` is why the
/// last call failed that did. `unfolded` is why the log was not copied behind the last put that was done by the trees.
#[derive(Drop)]
pub struct Database<S: Opens<P>, P: Pages + Drop> {
    pub(crate) rt: HostRuntime,
    pub(crate) path: String,
    pub(crate) wait: u32,
    pub(crate) places: Option<Places>,
    pub(crate) kept: Option<Kept<PageTrees<P>, ProvedKeeper<S>>>,
    pub(crate) cause: Option<Cause>,
    pub(crate) unfolded: Option<Cause>,
}

impl<S: Opens<P>, P: Pages + Drop> Database<S, P> {
    /// The database at a path, which is not open.
    pub(crate) fn new(rt: HostRuntime, path: String, wait: u32) -> Database<S, P>
        ensures quiet { result.cause ≡ None }
        ensures named { result.path ≡ path }
        ensures waits { result.wait ≡ wait }
    {
        Database {
            rt,
            path,
            wait,
            places: None,
            kept: None,
            cause: None,
            unfolded: None,
        }
    }

    /// The pages or the connection, if it is open.
    pub(crate) fn give_up(self) -> Option<Kept<P, Connection<S>>>
        ensures { result ≡ option_map given_up self.kept }
    {
        let Database {
            rt: _,
            path: _,
            wait: _,
            places: _,
            kept,
            cause: _,
            unfolded: _,
        } = self;
        match kept {
            Some(Kept::Trees(trees)) => Some(Kept::Trees(trees.give_up())),
            Some(Kept::Whole(kept)) => Some(Kept::Whole(kept.give_up())),
            None => None,
        }
    }

    /// Looks whether the files that are held are where they lay. Else they are let go, so that the next call opens what
    /// is there.
    fn look(&mut self) -> Result<(), KeepFault>
        ensures there { OnOk result (IfSome self.old.kept
            (λ _. AreThere (S.Opens.there (string_bytes self.old.path)) self.old.places)) }
        ensures same { OnOk result (self.new ≡ self.old) }
        ensures gone { OnErr result (IsSome self.old.kept
            × IsLetGo (S.Opens.there (string_bytes self.old.path)) (S.Opens.gone (string_bytes self.old.path))
            self.old.places self.new.kept self.new.cause result) }
        ensures said { IsSaid result self.old.cause self.new.cause }
        ensures stays { self.new.path ≡ self.old.path }
    {
        if self.kept.is_none() {
            return Ok(());
        }
        match self.are_there() {
            Ok(()) => Ok(()),
            Err(cause) => {
                self.kept = None;
                Err(say(&mut self.cause, cause))
            }
        }
    }

    /// Looks whether the files at the path are where they lay as they were opened.
    fn are_there(&self) -> Result<(), Cause>
        ensures there { OnOk result (AreThere (S.Opens.there (string_bytes self.now.path)) self.now.places) }
        ensures gone { IfErr result (AreGone (S.Opens.gone (string_bytes self.now.path)) self.now.places) }
    {
        match &self.places {
            Some(places) => S::look(&self.rt, self.path.as_str(), places),
            None => Err(Cause::Replaced),
        }
    }

    /// What a put is told as: one that was done is, where the files are still where they lie. Else nobody would find it.
    fn confirmed(&mut self, answer: Result<(), KeepFault>) -> Result<(), KeepFault>
        ensures does { IsConfirmed (S.Opens.there (string_bytes self.old.path)) (S.Opens.gone (string_bytes self.old.path))
            self.old.places self.old.kept self.old.cause answer self.new.kept self.new.cause result }
        ensures said { OnOk answer (IsSaid result self.old.cause self.new.cause) }
        ensures folded { IsTellingWhy answer self.old.kept self.old.unfolded
            → IsTellingWhy result self.new.kept self.new.unfolded }
        ensures stays { self.new.path ≡ self.old.path }
        ensures lies { self.new.places ≡ self.old.places }
    {
        if let Err(fault) = answer {
            return Err(fault);
        }
        match self.are_there() {
            Ok(()) => Ok(()),
            Err(cause) => {
                self.kept = None;
                Err(say(&mut self.cause, cause))
            }
        }
    }

    /// Makes a call that reads, of what is held and is where it lay, or of what is opened for it. A failure lets it go,
    /// so that the next call opens the file anew.
    pub(crate) fn read<C: Reading + Drop>(&mut self, call: C) -> Result<C::Answer, KeepFault>
        ensures answers { IfOk result C.answers }
        ensures does { AskedToRead P.Pages S.Store S.Opens.gives S.Opens.refuses S.Opens.there S.Opens.gone (C.takes call) (C.gives call)
            (C.shows S.Store call) (C.tells call)
            self.old.places self.old.kept (string_bytes self.old.path) self.new.kept self.new.cause result }
        ensures tried { TriesPath S.Store S.Opens.gives S.Opens.refuses (string_bytes self.old.path) self.old.kept }
        ensures said { IsSaid result self.old.cause self.new.cause }
        ensures stays { self.new.path ≡ self.old.path }
    {
        match self.look() {
            Ok(()) => self.read_ready(call),
            Err(fault) => Err(fault),
        }
    }

    /// Makes a call that reads, of what is held, or of what is opened for it.
    fn read_ready<C: Reading + Drop>(&mut self, call: C) -> Result<C::Answer, KeepFault>
        ensures answers { IfOk result C.answers }
        ensures does { ReadsReady P.Pages S.Store S.Opens.gives S.Opens.refuses (C.takes call) (C.gives call)
            (C.shows S.Store call) (C.tells call)
            self.old.kept (string_bytes self.old.path) self.new.kept self.new.cause result }
        ensures tried { TriesPath S.Store S.Opens.gives S.Opens.refuses (string_bytes self.old.path) self.old.kept }
        ensures said { IsSaid result self.old.cause self.new.cause }
        ensures stays { self.new.path ≡ self.old.path }
    {
        let ready = match self.ready() {
            Ok(ready) => ready,
            Err(cause) => return Err(say(&mut self.cause, cause)),
        };
        let mut trees = match ready {
            Kept::Trees(trees) => trees,
            Kept::Whole(mut kept) => {
                let answer = call.ask(&mut kept);
                self.kept = unless_failed(&answer, Kept::Whole(kept), &mut self.cause);
                return answer;
            }
        };
        let answer = call.look(self.rt.alloc(), &mut trees);
        self.kept = unless_failed(&answer, Kept::Trees(trees), &mut self.cause);
        answer
    }

    /// Makes a call that puts, of the keeper that is held and is where it lay, or of a store or a keeper that is opened
    /// for it; and looks whether its file is still there before it says that it was done.
    pub(crate) fn put<C: Putting + Drop>(&mut self, call: C) -> Result<(), KeepFault>
        requires { C.fits call }
        ensures does { AskedToPut P.Pages S.Store S.Opens.gives S.Opens.refuses S.Opens.there S.Opens.gone
            (PutsInto S.Store (C.room call) (C.asks call) (C.next call) (C.finds call) (C.makes call))
            (C.writes call) (C.asks call) (C.next call)
            self.old.places self.new.places
            self.old.kept (string_bytes self.old.path) self.new.kept self.new.cause result }
        ensures folded { IsTellingWhy result self.new.kept self.new.unfolded }
        ensures tried { TriesPath S.Store S.Opens.gives S.Opens.refuses (string_bytes self.old.path) self.old.kept }
        ensures said { IsSaid result self.old.cause self.new.cause }
        ensures stays { self.new.path ≡ self.old.path }
    {
        match self.look() {
            Ok(()) => {
                let answer = self.put_ready(call);
                self.confirmed(answer)
            }
            Err(fault) => Err(fault),
        }
    }

    /// Makes a call that puts, of the keeper that is held, or of a store or a keeper that is opened for it.
    fn put_ready<C: Putting + Drop>(&mut self, call: C) -> Result<(), KeepFault>
        requires { C.fits call }
        ensures does { PutsReady P.Pages S.Store S.Opens.gives S.Opens.refuses
            (PutsInto S.Store (C.room call) (C.asks call) (C.next call) (C.finds call) (C.makes call))
            (C.writes call) (C.asks call) (C.next call)
            self.old.kept (string_bytes self.old.path) self.new.kept self.new.cause result }
        ensures folded { IsTellingWhy result self.new.kept self.new.unfolded }
        ensures tried { TriesPath S.Store S.Opens.gives S.Opens.refuses (string_bytes self.old.path) self.old.kept }
        ensures said { IsSaid result self.old.cause self.new.cause }
        ensures stays { self.new.path ≡ self.old.path }
    {
        let ready = match self.ready() {
            Ok(ready) => ready,
            Err(cause) => return Err(say(&mut self.cause, cause)),
        };
        match ready {
            Kept::Whole(kept) => self.put_whole(kept, call),
            Kept::Trees(trees) => self.put_by_trees(trees, call),
        }
    }

    /// Makes a call that puts, of a keeper. A failure lets it go.
    fn put_whole<C: Putting + Drop>(
        &mut self,
        mut kept: ProvedKeeper<S>,
        call: C,
    ) -> Result<(), KeepFault>
        requires { C.fits call }
        ensures does { IsPutBy S.Store (C.writes call) (C.asks call) (C.next call)
            self.new.kept self.new.cause result (λ k. k ≡ kept) }
        ensures folded { IsTellingWhy result self.new.kept self.new.unfolded }
        ensures said { IsSaid result self.old.cause self.new.cause }
        ensures stays { self.new.path ≡ self.old.path }
    {
        let answer = call.put(&mut kept);
        self.kept = unless_failed(&answer, Kept::Whole(kept), &mut self.cause);
        answer
    }

    /// Makes a call that puts, of a keeper on a new connection.
    fn put_over<C: Putting + Drop>(&mut self, conn: Connection<S>, call: C) -> Result<(), KeepFault>
        requires fits { C.fits call }
        requires none { self.old.kept ≡ None }
        ensures does { IsPutOver S.Store (C.writes call) (C.asks call) (C.next call)
            self.new.kept self.new.cause result conn }
        ensures folded { IsTellingWhy result self.new.kept self.new.unfolded }
        ensures said { IsSaid result self.old.cause self.new.cause }
        ensures stays { self.new.path ≡ self.old.path }
    {
        match adopted(&self.rt, conn) {
            Ok(kept) => self.put_whole(kept, call),
            Err(cause) => Err(say(&mut self.cause, cause)),
        }
    }

    /// Makes a call that puts, of the store of some trees; or of a keeper on the whole file, where the trees are not
    /// sound or the call does not fit what is there.
    fn put_by_trees<C: Putting + Drop>(
        &mut self,
        trees: PageTrees<P>,
        call: C,
    ) -> Result<(), KeepFault>
        requires fits { C.fits call }
        requires none { self.old.kept ≡ None }
        ensures does { IsPutByTrees P.Pages S.Store S.Opens.gives S.Opens.refuses
            (PutsInto S.Store (C.room call) (C.asks call) (C.next call) (C.finds call) (C.makes call))
            (C.writes call) (C.asks call) (C.next call)
            trees (string_bytes self.old.path) self.new.kept self.new.cause result }
        ensures folded { IsTellingWhy result self.new.kept self.new.unfolded }
        ensures said { IsSaid result self.old.cause self.new.cause }
        ensures stays { self.new.path ≡ self.old.path }
    {
        let rt = self.rt;
        let mut store = match S::to_put(&rt, trees.give_up()) {
            Ok(Kept::Trees(store)) => store,
            Ok(Kept::Whole(conn)) => return self.put_over(conn, call),
            Err(cause) => return Err(say(&mut self.cause, cause)),
        };
        let done = match call.store(rt.alloc(), &mut store) {
            Ok(done) => done,
            Err(error) => return Err(say_of_store(&mut self.cause, error)),
        };
        if done {
            self.kept = held_again(&rt, store, &mut self.unfolded);
            return Ok(());
        }
        match S::to_whole(&rt, store) {
            Ok(conn) => self.put_over(conn, call),
            Err(cause) => Err(say(&mut self.cause, cause)),
        }
    }

    /// Takes what is held, or opens it.
    fn ready(&mut self) -> Result<Kept<PageTrees<P>, ProvedKeeper<S>>, Cause>
        ensures tried { TriesPath S.Store S.Opens.gives S.Opens.refuses (string_bytes self.old.path) self.old.kept }
        ensures ready { IfOk result
            (IsReadyOf S.Store S.Opens.gives P.Pages (string_bytes self.old.path) self.old.kept) }
        ensures none { self.new.kept ≡ None }
        ensures unsaid { self.new.cause ≡ self.old.cause }
        ensures named { self.new.path ≡ self.old.path }
        ensures unopened { IfErr result (λ _. self.old.kept ≡ None) }
        ensures refused { IfErr result
            (IsUnreadOf S.Store S.Opens.gives S.Opens.refuses (string_bytes self.old.path) self.old.kept) }
    {
        if let Some(kept) = self.kept.take() {
            return Ok(kept);
        }
        self.opened_there()
    }

    /// What is opened, once it is known where its files lie: where they lay before the opening, and lie behind it.
    fn opened_there(&mut self) -> Result<Kept<PageTrees<P>, ProvedKeeper<S>>, Cause>
        ensures tried { TriesPath S.Store S.Opens.gives S.Opens.refuses (string_bytes self.old.path) None }
        ensures ready { IfOk result (IsReadyOf S.Store S.Opens.gives P.Pages (string_bytes self.old.path) None) }
        ensures refused { IfErr result
            (IsUnreadOf S.Store S.Opens.gives S.Opens.refuses (string_bytes self.old.path) None) }
        ensures none { self.new.kept ≡ self.old.kept }
        ensures unsaid { self.new.cause ≡ self.old.cause }
        ensures named { self.new.path ≡ self.old.path }
    {
        let before = S::places(&self.rt, self.path.as_str(), &None).ok();
        let kept = match self.opened() {
            Ok(kept) => kept,
            Err(cause) => return Err(cause),
        };
        match S::places(&self.rt, self.path.as_str(), &before) {
            Ok(places) => {
                self.places = Some(places);
                Ok(kept)
            }
            Err(cause) => Err(cause),
        }
    }

    /// The trees of the file, or a keeper on a new connection.
    fn opened(&self) -> Result<Kept<PageTrees<P>, ProvedKeeper<S>>, Cause>
        ensures tried { TriesPath S.Store S.Opens.gives S.Opens.refuses (string_bytes self.now.path) None }
        ensures ready { IfOk result (IsReadyOf S.Store S.Opens.gives P.Pages (string_bytes self.now.path) None) }
        ensures refused { IfErr result
            (IsUnreadOf S.Store S.Opens.gives S.Opens.refuses (string_bytes self.now.path) None) }
    {
        let mut conn = match S::to_read(&self.rt, self.path.as_str(), self.wait) {
            Ok(Kept::Trees(trees)) => return Ok(Kept::Trees(trees)),
            Ok(Kept::Whole(conn)) => conn,
            Err(cause) => return Err(cause),
        };
        if lists_nothing(&mut conn) {
            return self.made(conn);
        }
        self.whole(conn)
    }

    /// The trees of a new file, once a connection has made its tables; or a keeper on it, where they are not made.
    fn made(&self, conn: Connection<S>) -> Result<Kept<PageTrees<P>, ProvedKeeper<S>>, Cause>
        requires { OfFile S.Store S.Opens.gives PutsNothing (string_bytes self.now.path) None (AsWhole conn) }
        ensures ready { IfOk result (IsReadyOf S.Store S.Opens.gives P.Pages (string_bytes self.now.path) None) }
        ensures refused { IfErr result
            (IsUnreadOf S.Store S.Opens.gives S.Opens.refuses (string_bytes self.now.path) None) }
    {
        let kept = match adopted(&self.rt, conn) {
            Ok(kept) => kept,
            Err(cause) => return Err(cause),
        };
        match kept.unmade() {
            Some(_) => Ok(Kept::Whole(kept)),
            None => self.taken_over(kept.give_up()),
        }
    }

    /// The trees of the file of a connection that has made its tables. A file that is not ours even so, such as one
    /// with pages of another size, is opened anew.
    fn taken_over(&self, conn: Connection<S>) -> Result<Kept<PageTrees<P>, ProvedKeeper<S>>, Cause>
        requires { OfFile S.Store S.Opens.gives PutsNothing (string_bytes self.now.path) None (AsWhole conn) }
        ensures ready { IfOk result (IsReadyOf S.Store S.Opens.gives P.Pages (string_bytes self.now.path) None) }
        ensures refused { IfErr result
            (IsUnreadOf S.Store S.Opens.gives S.Opens.refuses (string_bytes self.now.path) None) }
    {
        match S::to_read_again(&self.rt, conn.into_store()) {
            Ok(trees) => Ok(Kept::Trees(trees)),
            Err(_) => self.opened_anew(),
        }
    }

    /// The trees of a file that is there, or a keeper on a new connection.
    fn opened_anew(&self) -> Result<Kept<PageTrees<P>, ProvedKeeper<S>>, Cause>
        ensures ready { IfOk result (IsReadyOf S.Store S.Opens.gives P.Pages (string_bytes self.now.path) None) }
        ensures refused { IfErr result
            (IsUnreadOf S.Store S.Opens.gives S.Opens.refuses (string_bytes self.now.path) None) }
    {
        match S::to_read(&self.rt, self.path.as_str(), self.wait) {
            Ok(Kept::Trees(trees)) => Ok(Kept::Trees(trees)),
            Ok(Kept::Whole(conn)) => self.whole(conn),
            Err(cause) => Err(cause),
        }
    }

    /// A keeper on a new connection.
    fn whole(&self, conn: Connection<S>) -> Result<Kept<PageTrees<P>, ProvedKeeper<S>>, Cause>
        requires { OfFile S.Store S.Opens.gives PutsNothing (string_bytes self.now.path) None (AsWhole conn) }
        ensures ready { IfOk result (IsReadyOf S.Store S.Opens.gives P.Pages (string_bytes self.now.path) None) }
        ensures refused { IfErr result
            (IsUnreadOf S.Store S.Opens.gives S.Opens.refuses (string_bytes self.now.path) None) }
    {
        match adopted(&self.rt, conn) {
            Ok(kept) => Ok(Kept::Whole(kept)),
            Err(cause) => Err(cause),
        }
    }
}

/// Whether a database lists nothing yet.
fn lists_nothing<S: Steady>(conn: &mut Connection<S>) -> bool
    ensures { WasAsked S.Store conn.old conn.new }
{
    match conn.query_all("SELECT name FROM sqlite_schema", &[]) {
        Ok(listed) => listed.is_empty(),
        Err(_) => false,
    }
}

/// What is held of the file of a store that a put was made of. Where nothing is, it is said why: the put lies in the log.
fn held_again<S: Opens<P>, P: Pages + Drop>(
    rt: &HostRuntime,
    store: S,
    unfolded: &mut Option<Cause>,
) -> Option<Kept<PageTrees<P>, ProvedKeeper<S>>>
    ensures held { HoldsFound (FoundAgain P.Pages S.Opens.gives store) result }
    ensures told { IsUnfolded (S.Opens.foreign (FromStore store)) (S.Opens.refuses (FromStore store)) result unfolded.new }
{
    match S::to_read_again(rt, store) {
        Ok(trees) => {
            *unfolded = None;
            Some(Kept::Trees(trees))
        }
        Err(None) => {
            *unfolded = Some(Cause::Unreadable);
            None
        }
        Err(Some(cause)) => {
            *unfolded = Some(cause);
            None
        }
    }
}

/// The keeper on a connection, which gets its clock. Where there was no memory to make its tables, the connection is
/// let go.
fn adopted<S: Steady>(rt: &HostRuntime, mut conn: Connection<S>) -> Result<ProvedKeeper<S>, Cause>
    ensures made { IfOk result (IsAdopted S.Store (λ from. from ≡ conn)) }
    ensures unmade { IfErr result (LacksTables S.Store (λ from. from ≡ conn)) }
{
    conn.set_clock(rt);
    let kept = ProvedKeeper::adopt(rt.alloc(), conn);
    match kept.unmade() {
        Some(KeepFault::NoMemory) => Err(Cause::Memory),
        _ => Ok(kept),
    }
}
