// The seal of tariffs.
ghost use Rattle.std.specs.Prelude.{◌≡◌, IfOk};
ghost use Rattle.keep_office.specs.Kept.{seal_of};

use road_digest::{Digest, Digester};
use road_time::{NoMemory, Tariffs};
use std::alloc::Global;

/// The digest of the lines of tariffs, which tells them apart.
pub fn seal(alloc: Global, tariffs: &Tariffs) -> Result<Digest, NoMemory>
    ensures { IfOk result (λ digest. digest ≡ seal_of tariffs.now) }
{
    let mut text = Vec::new(alloc);
    tariffs.lines(alloc, &mut text)?;
    let mut digester = Digester::new();
    digester.add(&text);
    Ok(digester.finish())
}
