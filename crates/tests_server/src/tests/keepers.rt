// A keeper in memory, beside its history. The calls that name its type stand here once: each is dear to prove.
ghost use Rattle.std.specs.Prelude.{◌≡◌};

use keep_office::{Keeper, MemKeeper};
use road_time::NoMemory;
use serve_desk::{Kept, Naming, Opened};
use std::alloc::Global;

/// A new one, which fails at these calls, with its history.
pub fn new_keeper(alloc: Global, fails: &[u32]) -> Result<Opened<MemKeeper>, NoMemory> {
    let keeper = MemKeeper::new(alloc, fails)?;
    Ok(Opened::new(keeper))
}

/// It, under the name of its history.
pub fn kept_as<J: Naming>(opened: Opened<MemKeeper>) -> Kept<J, MemKeeper>
    requires book { opened.seen.book ≡ J.book }
{
    opened.named::<J>()
}

/// Whether it has day 100, at last.
pub fn has_day<J: Naming>(kept: Kept<J, MemKeeper>) -> bool {
    let mut keeper = kept.into_keeper();
    matches!(keeper.day(100), Ok(Some(_)))
}
