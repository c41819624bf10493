// The two files of a database: by their trees where they are exactly ours, or whole.
ghost use Rattle.std.specs.Prelude.{◌≡◌, Some, IsTrue, IfOk, IfErr, IfSome, MatchResult};
ghost use Rattle.sqlite_wal.specs.PageSize.{bytes_of};
ghost use Rattle.sqlite_wal.specs.Reads.{AreClean, OnlyReadsBoth};
ghost use Rattle.sqlite_pages.specs.Calls.{Continues};
ghost use Rattle.sqlite_pool.specs.Opening.{AreUsable, image};
ghost use Rattle.sqlite_pool.specs.Pool.{Follows, HasSpilled, files as files_in, log_frames, state, usable};
ghost use Rattle.sqlite_pool.specs.Stored.{Recovers};
ghost use Rattle.sqlite_store.specs.Unopened.{AreUsable as MayOpen, files_of, state_of, wanted_by};
ghost use Rattle.sqlite.specs.Files.{image_of};
ghost use Rattle.keep_trees.specs.Pages.{our_trees};
ghost use Rattle.keep_files.specs.Looks.{AreFound, FindsTrees};
ghost use Rattle.keep_files.specs.Files.{AreLeft, FileGives, HaveOurForm, OfClosed, OfFiles, Shows, WereOpened};
ghost use Rattle.keep_files.specs.Openings.{AsStore, AsTrees, AsWhole, FromPath, put_part, read_part};
ghost use Rattle.keep_files.specs.Causes.{IsOfChecking, unlisted_cause, unread_cause};
ghost use Rattle.keep_files.specs.Refusals.{AreLooked, AreRefused, IfFailed, IfForeign, IsLost, RefusesFiles};
ghost use Rattle.keep_files.specs.Refusals.{RefusesPath};

use crate::at_path::AtPath;
use crate::cause::{Cause, cause_of, cause_of_checking};
use crate::kept::Kept;
use crate::missed::Missed;
use crate::objects::our_objects;
use keep_trees::PageTrees;
use sqlite::{Connection, FileStore, Files, Options};
use sqlite_disk::Disk;
use sqlite_pager::Pager;
use sqlite_pages::{Error as PageError, Pages};
use sqlite_pool::Pool;
use sqlite_store::{OpenError, Unopened};
use sqlite_wal::{Error as WalError, PageSize, probe_first_page, probe_page_size};
use std::alloc::Global;
use std::rt::HostRuntime;

/// The page size of a file that the programs made.
const PAGE_SIZE: usize = 4096;

/// Bytes 20 to 23 of the first page where no byte of a page is set aside, as it would be for a sum.
const NO_SUMS: u32 = 0x0040_2020;

/// The size of the pages of files, where it is ours and the first page is that of a database whose pages have no sums.
/// Nothing is written. Else why the first page could not be looked at, none where it is another's.
fn our_page_size<D: Disk>(alloc: Global, files: &mut Files<D>) -> Result<PageSize, Option<Cause>>
    requires log { IsTrue (D.Disk.is_usable files.old.log) }
    requires db { IsTrue (D.Disk.is_usable files.old.db) }
    ensures log { IsTrue (D.Disk.is_usable files.new.log) }
    ensures db { IsTrue (D.Disk.is_usable files.new.db) }
    ensures reads { OnlyReadsBoth D.Disk (files.old.log, files.old.db) (files.new.log, files.new.db) }
    ensures failed { IfErr result (λ why. IfSome why IsOfChecking) }
    ensures sized { IfOk result (λ size. bytes_of size ≡ 4096) }
    ensures form { IfOk result (λ _. AreClean D.Disk files.new.log files.new.db
        → HaveOurForm (image_of D.Disk files.old)) }
{
    let size = match probe_page_size(files) {
        Ok(Some(size)) => size,
        Ok(None) => return Err(None),
        Err(_) => return Err(Some(cause_of_checking(OpenError::Io, false))),
    };
    if size.bytes() != PAGE_SIZE {
        return Err(None);
    }
    let head = match probe_first_page(alloc, files, size) {
        Ok(head) => head,
        Err(error) => return Err(why_unread(error)),
    };
    if head.0 != b'S' || head.1 != NO_SUMS {
        return Err(None);
    }
    Ok(size)
}

/// Why a first page could not be looked at, none where the log beside it is another's.
fn why_unread(error: WalError) -> Option<Cause>
    ensures named { result ≡ unread_cause error }
    ensures checking { IfSome result IsOfChecking }
{
    match error {
        WalError::OutOfMemory => Some(cause_of_checking(OpenError::OutOfMemory, false)),
        WalError::Io(_) => Some(cause_of_checking(OpenError::Io, false)),
        _ => None,
    }
}

/// Why pages could not be read, by whether a write found no room; none where they were read and are another's, or do not
/// hold what they should.
fn why_unlisted(error: Option<PageError>, no_room: bool) -> Option<Cause>
    ensures named { result ≡ unlisted_cause error no_room }
    ensures checking { IfSome result IsOfChecking }
{
    match error {
        Some(PageError::OutOfMemory) => Some(cause_of_checking(OpenError::OutOfMemory, false)),
        Some(PageError::Io) => Some(cause_of_checking(OpenError::Io, no_room)),
        Some(PageError::Corrupt) => None,
        Some(PageError::Full) => None,
        None => None,
    }
}

/// The files of pages that are not listed as ours: they are let go where that is for a cause.
fn missed<D: Disk + Drop>(pool: Pool<D>, why: Option<Cause>) -> Missed<Files<D>>
    ensures foreign { IfForeign (λ left. (left.log, left.db) ≡ files_in pool) result }
    ensures failed { IfFailed (λ cause. why ≡ Some cause) result }
{
    let files = pool.close();
    match why {
        None => Missed::Foreign(files),
        Some(cause) => {
            drop(files);
            Missed::Failed(cause)
        }
    }
}

/// The pages of files, of which nothing is read yet.
fn pool_over<D: Disk>(
    alloc: Global,
    files: Files<D>,
    size: PageSize,
    seed: u64,
) -> Result<Pool<D>, Files<D>>
    requires log { IsTrue (D.Disk.is_usable files.log) }
    requires db { IsTrue (D.Disk.is_usable files.db) }
    ensures usable { IfOk result AreUsable }
    ensures files { IfOk result (λ pool. files_in pool ≡ (files.log, files.db)) }
    ensures sized { IfOk result (λ pool. (state pool).page_size ≡ bytes_of size) }
    ensures back { IfErr result (λ left. (left.log ≡ files.log) × (left.db ≡ files.db)) }
{
    let pager = match Pager::new(alloc, files, size, Options::new(seed)) {
        Ok(pager) => pager,
        Err(failed) => return Err(failed.value),
    };
    match Pool::new(alloc, pager, false) {
        Ok(pool) => Ok(pool),
        Err(failed) => Err(failed.value.close()),
    }
}

/// Pages, once what their log has was found. Where that failed they are given back, with why.
fn recovered<D: Disk>(mut pool: Pool<D>) -> Result<Pool<D>, (Option<Cause>, Pool<D>)>
    requires { AreUsable pool }
    ensures shows { IfOk result (λ found. IsTrue (state found).is_clean → Shows (image pool) found) }
    ensures ready { IfOk result (λ found. IsTrue (state found).is_clean → IsTrue (state found).is_open) }
    ensures found { IfOk result (λ found. IsTrue (state found).is_clean
        → Recovers (state pool).page_size (image pool) (state found).committed) }
    ensures kept { MatchResult result (WereOpened pool) (λ back. WereOpened pool back.1) }
    ensures failed { IfErr result (λ back. IfSome back.0 IsOfChecking) }
{
    let before = pool.tally().refused;
    match pool.recover(false) {
        Ok(()) => Ok(pool),
        Err(error) => {
            let why = why_unlisted(Some(error), before < pool.tally().refused);
            Err((why, pool))
        }
    }
}

/// Pages, once what their log has was copied into their file, if that is asked for. Where that failed they are given
/// back, with why.
fn folded<D: Disk>(mut pool: Pool<D>, folds: bool) -> Result<Pool<D>, (Option<Cause>, Pool<D>)>
    ensures kept { MatchResult result (Follows pool) (λ back. Follows pool back.1) }
    ensures failed { IfErr result (λ back. IfSome back.0 IsOfChecking) }
    ensures same { IfOk result (λ folded. IsTrue (state folded).is_clean → usable folded ≡ usable pool) }
    ensures empty { IfOk result (λ folded. IsTrue folds → ¬ HasSpilled pool → log_frames folded ≡ 0) }
{
    if !folds {
        return Ok(pool);
    }
    let before = pool.tally().refused;
    match pool.checkpoint() {
        Ok(()) => {
            if pool.is_open() {
                return Ok(pool);
            }
            let why = why_unlisted(Some(PageError::Io), false);
            Err((why, pool))
        }
        Err(error) => {
            let why = why_unlisted(Some(error), before < pool.tally().refused);
            Err((why, pool))
        }
    }
}

/// The trees of files that are exactly ours, once what their log has was copied into their file, if that is asked for.
/// Other files are given back, and what they hold is as it was; where there was no memory for it, or the disk failed,
/// they are let go.
pub fn trees_of<D: Disk + Drop>(
    alloc: Global,
    mut files: Files<D>,
    seed: u64,
    folds: bool,
) -> Result<PageTrees<Pool<D>>, Missed<Files<D>>>
    requires log { IsTrue (D.Disk.is_usable files.log) }
    requires db { IsTrue (D.Disk.is_usable files.db) }
    ensures found { IfOk result (AreFound ⟦<Pool<D> as Pages>⟧) }
    ensures opened { IfOk result (λ trees. OfFiles D.Disk files (AsTrees trees)) }
    ensures left { IfErr result (IfForeign (AreLeft D.Disk files)) }
    ensures failed { IfErr result (IfFailed IsOfChecking) }
{
    let size = match our_page_size(alloc, &mut files) {
        Ok(size) => size,
        Err(None) => return Err(Missed::Foreign(files)),
        Err(Some(cause)) => {
            drop(files);
            return Err(Missed::Failed(cause));
        }
    };
    let pool = match pool_over(alloc, files, size, seed) {
        Ok(pool) => pool,
        Err(files) => {
            drop(files);
            return Err(Missed::Failed(cause_of_checking(OpenError::OutOfMemory, false)));
        }
    };
    let pool = match recovered(pool) {
        Ok(pool) => pool,
        Err((why, pool)) => return Err(missed(pool, why)),
    };
    let pool = match folded(pool, folds) {
        Ok(pool) => pool,
        Err((why, pool)) => return Err(missed(pool, why)),
    };
    match listed(alloc, pool) {
        Ok(trees) => Ok(trees),
        Err((why, pool)) => Err(missed(pool, why)),
    }
}

/// The trees of pages that list exactly ours. Other pages are given back, with why they could not be read, if they could
/// not.
fn listed<P: Pages>(alloc: Global, pages: P) -> Result<PageTrees<P>, (Option<Cause>, P)>
    ensures found { IfOk result (AreFound P.Pages) }
    ensures kept { IfOk result (λ trees. Continues P.Pages pages trees.pages) }
    ensures same { IfOk result (λ trees. P.Pages.pages trees.pages ≡ P.Pages.pages pages) }
    ensures back { IfErr result (λ back. Continues P.Pages pages back.1) }
    ensures failed { IfErr result (λ back. IfSome back.0 IsOfChecking) }
{
    match PageTrees::open(alloc, pages) {
        Ok(trees) => Ok(trees),
        Err(pages) => Err((None, pages)),
    }
}

// No clock is set here: the proof of a call of a connection over a store of files that is named costs twenty seconds.

/// A connection over files, which are read and checked whole. Its clock is set as a keeper takes it over.
pub fn connected<D: Disk + Drop>(
    rt: &HostRuntime,
    files: Files<D>,
    seed: u64,
) -> Result<Connection<FileStore<D>>, Cause>
    ensures opened { IfOk result (λ conn. OfClosed D.Disk files (AsWhole conn)) }
    ensures refused { IfErr result (AreRefused D.Disk files) }
{
    if !files.may_be_used() {
        return Err(Cause::DiskFailed);
    }
    match Connection::open_files_with(rt.alloc(), files, Options::new(seed), false) {
        Ok(conn) => Ok(conn),
        Err((error, _left)) => Err(cause_of(error)),
    }
}

/// A connection over files, with a number that is drawn.
pub fn opened_whole<D: AtPath>(
    rt: &HostRuntime,
    files: Files<D>,
) -> Result<Connection<FileStore<D>>, Cause>
    ensures opened { IfOk result (λ conn. OfClosed D.Disk files (AsWhole conn)) }
    ensures refused { IfErr result (RefusesFiles D.Disk D.AtPath.undrawn files) }
{
    match D::draw(rt) {
        Ok(seed) => connected(rt, files, seed),
        Err(cause) => Err(cause),
    }
}

/// The file at a path, whole.
pub fn open_whole<D: AtPath>(
    rt: &HostRuntime,
    path: &str,
) -> Result<Connection<FileStore<D>>, Cause>
    ensures opened { IfOk result (λ conn. FileGives D.Disk D.AtPath.reaches (FromPath path.now) (AsWhole conn)) }
    ensures refused { IfErr result
        (RefusesPath D.Disk D.AtPath.reaches D.AtPath.refuses D.AtPath.undrawn path.now) }
{
    match D::open(rt, path, 0) {
        Ok(files) => opened_whole(rt, files),
        Err(cause) => Err(cause),
    }
}

/// The files of a store that is not open yet, of which nothing is read.
fn unopened_over<D: Disk + Drop>(
    alloc: Global,
    files: Files<D>,
    size: PageSize,
    seed: u64,
) -> Result<Unopened<D>, Files<D>>
    requires log { IsTrue (D.Disk.is_usable files.log) }
    requires db { IsTrue (D.Disk.is_usable files.db) }
    ensures usable { IfOk result MayOpen }
    ensures files { IfOk result (λ unopened. files_of unopened ≡ (files.log, files.db)) }
    ensures sized { IfOk result (λ unopened. (state_of unopened).page_size ≡ bytes_of size) }
    ensures ours { IfOk result (λ unopened. wanted_by unopened ≡ our_trees) }
    ensures back { IfErr result (λ left. (left.log ≡ files.log) × (left.db ≡ files.db)) }
{
    let pager = match Pager::new(alloc, files, size, Options::new(seed)) {
        Ok(pager) => pager,
        Err(failed) => return Err(failed.value),
    };
    match Unopened::new(alloc, pager, &our_objects()) {
        Ok(unopened) => Ok(unopened),
        Err(failed) => Err(failed.value.close()),
    }
}

/// The store of files whose pages and trees are sound and ours. Other files are given back; where there was no memory
/// for it, or the disk failed, they are let go.
fn checked<D: Disk + Drop>(
    alloc: Global,
    mut files: Files<D>,
    seed: u64,
) -> Result<FileStore<D>, Missed<Files<D>>>
    ensures opened { IfOk result (λ store. OfFiles D.Disk files (AsStore store)) }
    ensures left { IfErr result (IfForeign (AreLeft D.Disk files)) }
    ensures failed { IfErr result (IfFailed IsOfChecking) }
{
    if !files.may_be_used() {
        return Err(Missed::Foreign(files));
    }
    let size = match our_page_size(alloc, &mut files) {
        Ok(size) => size,
        Err(None) => return Err(Missed::Foreign(files)),
        Err(Some(cause)) => {
            drop(files);
            return Err(Missed::Failed(cause));
        }
    };
    let before = files.tally().refused;
    let unopened = match unopened_over(alloc, files, size, seed) {
        Ok(unopened) => unopened,
        Err(files) => {
            drop(files);
            return Err(Missed::Failed(cause_of_checking(OpenError::OutOfMemory, false)));
        }
    };
    match unopened.open() {
        Ok(store) => Ok(store),
        Err((OpenError::Refused, unopened)) => Err(Missed::Foreign(unopened.close())),
        Err((error, unopened)) => {
            let no_room = before < unopened.tally().refused;
            drop(unopened.close());
            Err(Missed::Failed(cause_of_checking(error, no_room)))
        }
    }
}

/// The store of files, or a connection over them where it cannot be had.
pub fn stored<D: AtPath>(
    rt: &HostRuntime,
    files: Files<D>,
) -> Result<Kept<FileStore<D>, Connection<FileStore<D>>>, Cause>
    ensures opened { IfOk result (λ kept. OfFiles D.Disk files (put_part kept)) }
    ensures refused { IfErr result (RefusesFiles D.Disk D.AtPath.undrawn files) }
{
    let seed = match D::draw(rt) {
        Ok(seed) => seed,
        Err(cause) => return Err(cause),
    };
    let files = match checked(rt.alloc(), files, seed) {
        Ok(store) => return Ok(Kept::Trees(store)),
        Err(Missed::Foreign(files)) => files,
        Err(Missed::Failed(cause)) => return Err(cause),
    };
    match connected(rt, files, seed) {
        Ok(conn) => Ok(Kept::Whole(conn)),
        Err(cause) => Err(cause),
    }
}

/// The trees of files that a store gave back, if they are exactly ours, once what their log has was copied into their
/// file. Else the files are let go, and it is told why, none where they are another's.
pub fn listed_again<D: AtPath>(
    rt: &HostRuntime,
    files: Files<D>,
) -> Result<PageTrees<Pool<D>>, Option<Cause>>
    ensures found { IfOk result (AreFound ⟦<Pool<D> as Pages>⟧) }
    ensures opened { IfOk result (λ trees. OfClosed D.Disk files (AsTrees trees)) }
    ensures lost { IfErr result (IsLost (AreLooked D.Disk files) (RefusesFiles D.Disk D.AtPath.undrawn files)) }
{
    if !files.may_be_used() {
        return Err(Some(Cause::DiskFailed));
    }
    let seed = match D::draw(rt) {
        Ok(seed) => seed,
        Err(cause) => return Err(Some(cause)),
    };
    match trees_of(rt.alloc(), files, seed, true) {
        Ok(trees) => Ok(trees),
        Err(Missed::Foreign(files)) => {
            drop(files);
            Err(None)
        }
        Err(Missed::Failed(cause)) => Err(Some(cause)),
    }
}

/// The trees of the file at a path where it is exactly ours, or else the file whole. Where another has it open, it waits
/// that number of seconds at most.
pub fn open_to_read<D: AtPath>(
    rt: &HostRuntime,
    path: &str,
    wait: u32,
) -> Result<Kept<PageTrees<Pool<D>>, Connection<FileStore<D>>>, Cause>
    ensures found { IfOk result (FindsTrees ⟦<Pool<D> as Pages>⟧) }
    ensures opened { IfOk result (λ kept. FileGives D.Disk D.AtPath.reaches (FromPath path.now) (read_part kept)) }
    ensures refused { IfErr result
        (RefusesPath D.Disk D.AtPath.reaches D.AtPath.refuses D.AtPath.undrawn path.now) }
{
    let seed = match D::draw(rt) {
        Ok(seed) => seed,
        Err(cause) => return Err(cause),
    };
    let files = match D::open(rt, path, wait) {
        Ok(files) => files,
        Err(cause) => return Err(cause),
    };
    let files = match trees_of(rt.alloc(), files, seed, false) {
        Ok(trees) => return Ok(Kept::Trees(trees)),
        Err(Missed::Foreign(files)) => files,
        Err(Missed::Failed(cause)) => return Err(cause),
    };
    match connected(rt, files, seed) {
        Ok(conn) => Ok(Kept::Whole(conn)),
        Err(cause) => Err(cause),
    }
}
