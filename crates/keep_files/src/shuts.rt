// Stores that may shut.
use keep_database::Steady;
use sqlite::FileStore;
use sqlite_disk::Disk;

/// A store that may shut at a fault.
pub trait Shuts: Steady {
    ghost use Rattle.std.specs.Prelude.{◌≡◌, false};

    ghost shuts: { Self.Steady.is_steady ≡ false };
}

impl<D: Disk + Drop> Shuts for FileStore<D> {
    ghost use Rattle.std.specs.Prelude.{refl};

    ghost shuts = { refl };
}
