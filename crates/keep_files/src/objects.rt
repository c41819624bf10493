// The trees of an office, as `sqlite_schema` lists them.
ghost use Rattle.std.specs.Prelude.{◌≡◌};
ghost use Rattle.sqlite_store.specs.Catalog.{Describes, wanted_of};
ghost use Rattle.keep_trees.specs.Pages.{our_trees, table_listed};

use sqlite_trees::schema::Object;
use sqlite_trees::store::Shape;
use sqlite_value::keys::Order;

/// A table as it is listed.
fn table<'a>(name: &'a str, sql: &'a str) -> Object<'a>
    ensures { wanted_of result ≡ table_listed name.now sql.now }
{
    Object {
        shape: Shape::Table,
        kind: "table",
        name,
        table: name,
        reals: 0,
        sql: Some(sql),
    }
}

/// The trees of version 2, each at its number.
pub fn our_objects() -> [Object<'static>; 7]
    ensures { Describes our_trees result }
{
    [
        table(
            "days",
            "CREATE TABLE days (day INTEGER PRIMARY KEY, digest BLOB NOT NULL, bytes INTEGER NOT NULL,
  tuples INTEGER NOT NULL, notices INTEGER NOT NULL, notices_digest BLOB NOT NULL,
  total INTEGER NOT NULL) STRICT",
        ),
        table(
            "spent",
            "CREATE TABLE spent (day INTEGER NOT NULL, vid INTEGER NOT NULL, xway INTEGER NOT NULL,
  tolls INTEGER NOT NULL, PRIMARY KEY (day, vid, xway)) STRICT",
        ),
        Object {
            shape: Shape::Index(Order::PLAIN),
            kind: "index",
            name: "sqlite_autoindex_spent_1",
            table: "spent",
            reals: 0,
            sql: None,
        },
        table(
            "past",
            "CREATE TABLE past (one INTEGER PRIMARY KEY CHECK (one = 1), base INTEGER NOT NULL,
  digest BLOB NOT NULL, bytes INTEGER NOT NULL, rows_kept INTEGER NOT NULL) STRICT",
        ),
        table(
            "day_tariffs",
            "CREATE TABLE day_tariffs (day INTEGER PRIMARY KEY, digest BLOB NOT NULL) STRICT",
        ),
        table(
            "tariffs",
            "CREATE TABLE tariffs (xway INTEGER PRIMARY KEY, crowd INTEGER NOT NULL,
  speed INTEGER NOT NULL, factor INTEGER NOT NULL) STRICT",
        ),
        table(
            "form",
            "CREATE TABLE form (one INTEGER PRIMARY KEY CHECK (one = 1), version INTEGER NOT NULL) STRICT",
        ),
    ]
}
