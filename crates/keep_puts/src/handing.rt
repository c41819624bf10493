// The files of pages and of a store, handed from one to the other.
ghost use Rattle.std.specs.Prelude.{◌≡◌, IsTrue, IfOk};
ghost use Rattle.sqlite_wal.specs.PageSize.{bytes_of};
ghost use Rattle.sqlite_pool.specs.Pool.{state};
ghost use Rattle.sqlite_store.specs.FileStore.{state as store_state};
ghost use Rattle.sqlite_store.specs.Catalog.{Describes};
ghost use Rattle.keep_trees.specs.Pages.{our_trees};
ghost use Rattle.keep_puts.specs.Handing.{IsOver, FindsPages, FindsStore, StoreHolds, TreesHold};

use keep_trees::PageTrees;
use sqlite::{FileStore, Files, Options};
use sqlite_disk::Disk;
use sqlite_pager::Pager;
use sqlite_pool::Pool;
use sqlite_store::Unopened;
use sqlite_trees::schema::Object;
use sqlite_trees::store::Store;
use sqlite_wal::PageSize;
use std::alloc::Global;

/// The pages of files, of which nothing is read yet.
fn pool_over<D: Disk>(
    alloc: Global,
    files: Files<D>,
    size: PageSize,
    seed: u64,
) -> Result<Pool<D>, Files<D>>
    ensures { IfOk result (IsOver (bytes_of size) files.log files.db) }
{
    let pager = match Pager::new(alloc, files, size, Options::new(seed)) {
        Ok(pager) => pager,
        Err(failed) => return Err(failed.value),
    };
    match Pool::new(alloc, pager, false) {
        Ok(pool) => Ok(pool),
        Err(failed) => Err(failed.value.close()),
    }
}

/// The pages of files, as a recovery of the log finds them. Files that cannot be recovered are given back.
fn pages_of<D: Disk>(
    alloc: Global,
    files: Files<D>,
    size: PageSize,
    seed: u64,
) -> Result<Pool<D>, Files<D>>
    requires log { IsTrue (D.Disk.is_usable files.log) }
    requires db { IsTrue (D.Disk.is_usable files.db) }
    ensures { IfOk result (λ it. IsTrue (state it).is_clean → FindsPages (bytes_of size) files.log files.db it) }
{
    let mut pool = match pool_over(alloc, files, size, seed) {
        Ok(pool) => pool,
        Err(files) => return Err(files),
    };
    match pool.recover(false) {
        Ok(()) => Ok(pool),
        Err(_) => Err(pool.close()),
    }
}

/// The store of files on a list of trees, checked page by page and tree by tree. Other files are given back.
fn store_of<D: Disk>(
    alloc: Global,
    files: Files<D>,
    objects: &[Object<'_>],
    size: PageSize,
    seed: u64,
) -> Result<FileStore<D>, Files<D>>
    requires ours { Describes our_trees objects.now }
    requires log { IsTrue (D.Disk.is_usable files.log) }
    requires db { IsTrue (D.Disk.is_usable files.db) }
    ensures { IfOk result (λ it. IsTrue (store_state it).is_clean → FindsStore (bytes_of size) files.log files.db it) }
{
    let pager = match Pager::new(alloc, files, size, Options::new(seed)) {
        Ok(pager) => pager,
        Err(failed) => return Err(failed.value),
    };
    let unopened = match Unopened::new(alloc, pager, objects) {
        Ok(unopened) => unopened,
        Err(failed) => return Err(failed.value.close()),
    };
    match unopened.open() {
        Ok(store) => Ok(store),
        Err((_, unopened)) => Err(unopened.close()),
    }
}

/// The store of the files of pages, which are closed for it.
pub fn store_of_pages<D: Disk>(
    alloc: Global,
    pages: Pool<D>,
    objects: &[Object<'_>],
    size: PageSize,
    seed: u64,
) -> Result<FileStore<D>, Files<D>>
    requires ours { Describes our_trees objects.now }
    requires sized { (state pages).page_size ≡ bytes_of size }
    ensures { IfOk result (StoreHolds pages) }
{
    let files = pages.close();
    if !files.may_be_used() {
        return Err(files);
    }
    match store_of(alloc, files, objects, size, seed) {
        Ok(store) => Ok(store),
        Err(files) => Err(files),
    }
}

/// The trees of the files of a store, which is closed for it. A store that is broken, or that is not on our trees, or
/// whose files do not list exactly these, gives its files back.
pub fn trees_of_store<D: Disk>(
    alloc: Global,
    store: FileStore<D>,
    objects: &[Object<'_>],
    size: PageSize,
    seed: u64,
) -> Result<PageTrees<Pool<D>>, Files<D>>
    requires ours { Describes our_trees objects.now }
    ensures { IfOk result (λ it. IsTrue (state it.pages).is_clean → TreesHold store it) }
{
    if store.is_broken() {
        return Err(store.close());
    }
    let Ok(true) = store.is_over(size, objects) else {
        return Err(store.close());
    };
    let files = store.close();
    if !files.may_be_used() {
        return Err(files);
    }
    let pool = match pages_of(alloc, files, size, seed) {
        Ok(pool) => pool,
        Err(files) => return Err(files),
    };
    match PageTrees::open(alloc, pool) {
        Ok(trees) => Ok(trees),
        Err(pool) => Err(pool.close()),
    }
}
