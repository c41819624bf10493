// A file that passes from its trees to a store and back.
ghost use Rattle.keep_puts.specs.Passing.{StaysRead, StoreFinds, PagesFind, PagesFindAgain};

use sqlite::FileStore;
use sqlite_disk::Disk;
use sqlite_pool::Pool;

/// Pages that were only read are so after each call that reads and leaves them open.
pub fn reads_stay<D: Disk>(old: &Pool<D>, new: &Pool<D>)
    ensures { StaysRead old.now new.now }
{}

/// A store that is opened over the files of pages has committed the office that they hold.
pub fn store_finds<D: Disk>(pages: &Pool<D>, store: &FileStore<D>)
    ensures { StoreFinds pages.now store.now }
{}

/// Pages that are opened over the files of a store, as they are or as a crash leaves them, hold the office that it has
/// committed.
pub fn pages_find<D: Disk>(store: &FileStore<D>, pages: &Pool<D>)
    ensures { PagesFind store.now pages.now }
{}

/// Pages that are opened over the files of other pages, as they are or as a crash leaves them, hold the office that
/// those held.
pub fn pages_find_again<D: Disk>(old: &Pool<D>, new: &Pool<D>)
    ensures { PagesFindAgain old.now new.now }
{}
