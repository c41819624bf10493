// Whether the trees of a store are ours.
ghost use Rattle.std.specs.Prelude.{◌≡◌, ◌↔◌, IsTrue};
ghost use Rattle.sqlite_trees.specs.declared.store.Shape.TheVariants.{Table, Index};
ghost use Rattle.sqlite_value.specs.Keys.{plain};
ghost use Rattle.keep_puts.specs.Trees.{AreOurs};

use sqlite_trees::store::{Shape, Store};
use sqlite_value::keys::Order;

/// Whether a tree is a table that may be written.
fn is_table<S: Store>(store: &S, tree: u32) -> bool
    ensures { IsTrue result ↔ ((S.Store.view store.now).shape tree ≡ Table) }
{
    match store.shape(tree) {
        Shape::Table => true,
        _ => false,
    }
}

/// Whether a tree is an index in its plain order that may be written.
fn is_index<S: Store>(store: &S, tree: u32) -> bool
    ensures { IsTrue result ↔ ((S.Store.view store.now).shape tree ≡ Index plain) }
{
    match store.shape(tree) {
        Shape::Index(order) => order == Order::PLAIN,
        _ => false,
    }
}

/// Whether the trees that puts write are ours.
pub fn are_ours<S: Store>(store: &S) -> bool
    ensures { IsTrue result ↔ AreOurs (S.Store.view store.now).shape }
{
    if !is_table(store, 0) {
        return false;
    }
    if !is_table(store, 1) {
        return false;
    }
    if !is_index(store, 2) {
        return false;
    }
    if !is_table(store, 3) {
        return false;
    }
    if !is_table(store, 4) {
        return false;
    }
    is_table(store, 5)
}
