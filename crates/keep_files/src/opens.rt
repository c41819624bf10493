// The ways in which the file at a path is opened.
ghost use Rattle.std.specs.Prelude.{◌≡◌, IfOk, IfErr, OnOk};
ghost use Rattle.keep_files.specs.Looks.{AreFound, FindsTrees};
ghost use Rattle.keep_files.specs.Openings.{FromPath, FromPages, FromStore, IfWhole};
ghost use Rattle.keep_files.specs.Openings.{AsTrees, AsWhole, put_part, read_part};
ghost use Rattle.keep_files.specs.Refusals.{IsLost};

use crate::at_path::AtPath;
use crate::cause::Cause;
use crate::kept::Kept;
use crate::page_files::{listed_again, open_to_read, opened_whole, stored};
use crate::place::Places;
use crate::shuts::Shuts;
use keep_trees::PageTrees;
use sqlite::{Connection, FileStore};
use sqlite_pages::Pages;
use sqlite_pool::Pool;
use std::rt::HostRuntime;

/// A store of the trees of a file at a path, and the ways to it: by the pages of the file, by a connection to the
/// whole, and by itself. From one way to another nobody else opens the file.
pub trait Opens<P: Pages + Drop>: Shuts {
    ghost use Rattle.keep_files.specs.Openings.{Opening, Part};
    ghost use Rattle.keep_files.specs.declared.cause.Cause.{Cause};
    ghost use Rattle.keep_files.specs.declared.place.Places.{Places};
    ghost use Rattle.std.specs.Prelude.{ℕ, List};

    /// What is known where something is opened, and gave that.
    ghost gives: { Opening P Self → Part P Self → Type 0 };

    /// What is known where something is not opened, for a cause.
    ghost refuses: { Opening P Self → Cause → Type 0 };

    /// What is known where something is opened and found not to be exactly ours.
    ghost foreign: { Opening P Self → Type 0 };

    /// What is known where the files at a path are found where they lay.
    ghost there: { List ℕ → Places → Type 0 };

    /// What is known where they are not, for a cause.
    ghost gone: { List ℕ → Places → Cause → Type 0 };

    /// Where the files at a path lie. It is refused where the database lay elsewhere before.
    fn places(rt: &HostRuntime, path: &str, before: &Option<Places>) -> Result<Places, Cause>
        ensures { IfErr result (refuses (FromPath path.now)) };

    /// Looks whether the files at a path are where they lay.
    fn look(rt: &HostRuntime, path: &str, places: &Places) -> Result<(), Cause>
        ensures there { OnOk result (there path.now places.now) }
        ensures gone { IfErr result (gone path.now places.now) };

    /// The trees of the file at a path where it is exactly ours, or else the file whole. Where another has it open, it
    /// waits that number of seconds at most.
    fn to_read(
        rt: &HostRuntime,
        path: &str,
        wait: u32,
    ) -> Result<Kept<PageTrees<P>, Connection<Self>>, Cause>
        ensures found { IfOk result (FindsTrees P.Pages) }
        ensures opened { IfOk result (λ kept. gives (FromPath path.now) (read_part kept)) }
        ensures refused { IfErr result (refuses (FromPath path.now)) };

    /// The store of the file of some pages, which is checked page by page and tree by tree; or else the file whole.
    fn to_put(rt: &HostRuntime, pages: P) -> Result<Kept<Self, Connection<Self>>, Cause>
        ensures whole { IfOk result (IfWhole (foreign (FromPages pages))) }
        ensures opened { IfOk result (λ kept. gives (FromPages pages) (put_part kept)) }
        ensures refused { IfErr result (refuses (FromPages pages)) };

    /// The file of a store, whole.
    fn to_whole(rt: &HostRuntime, store: Self) -> Result<Connection<Self>, Cause>
        ensures opened { IfOk result (λ conn. gives (FromStore store) (AsWhole conn)) }
        ensures refused { IfErr result (refuses (FromStore store)) };

    /// The trees of the file of a store, if it is exactly ours. Else the file is let go, and it is told why, none where
    /// it is another's.
    fn to_read_again(rt: &HostRuntime, store: Self) -> Result<PageTrees<P>, Option<Cause>>
        ensures found { IfOk result (AreFound P.Pages) }
        ensures opened { IfOk result (λ trees. gives (FromStore store) (AsTrees trees)) }
        ensures lost { IfErr result (IsLost (foreign (FromStore store)) (refuses (FromStore store))) };
}

impl<D: AtPath> Opens<Pool<D>> for FileStore<D> {
    ghost use Rattle.keep_files.specs.Refusals.{FileIsForeign, FileRefuses};
    ghost use Rattle.keep_files.specs.Files.{FileGives};

    ghost gives = { FileGives D.Disk D.AtPath.reaches };

    ghost refuses = { FileRefuses D.Disk D.AtPath.reaches D.AtPath.refuses D.AtPath.undrawn };

    ghost foreign = { FileIsForeign D.Disk };

    ghost there = { D.AtPath.there };

    ghost gone = { D.AtPath.gone };

    fn places(rt: &HostRuntime, path: &str, before: &Option<Places>) -> Result<Places, Cause> {
        D::places(rt, path, before)
    }

    fn look(rt: &HostRuntime, path: &str, places: &Places) -> Result<(), Cause> {
        D::look(rt, path, places)
    }

    fn to_read(
        rt: &HostRuntime,
        path: &str,
        wait: u32,
    ) -> Result<Kept<PageTrees<Pool<D>>, Connection<FileStore<D>>>, Cause> {
        open_to_read::<D>(rt, path, wait)
    }

    fn to_put(
        rt: &HostRuntime,
        pages: Pool<D>,
    ) -> Result<Kept<FileStore<D>, Connection<FileStore<D>>>, Cause> {
        stored(rt, pages.close())
    }

    fn to_whole(rt: &HostRuntime, store: FileStore<D>) -> Result<Connection<FileStore<D>>, Cause> {
        opened_whole(rt, store.close())
    }

    fn to_read_again(
        rt: &HostRuntime,
        store: FileStore<D>,
    ) -> Result<PageTrees<Pool<D>>, Option<Cause>> {
        listed_again(rt, store.close())
    }
}
