// What is known of stretches.
ghost use Rattle.std.specs.Prelude.{◌≡◌, slice_set, IfOk, Some, None, replicate};

use road_time::{NoMemory, Stretch};
use std::alloc::Global;

/// What of so many stretches is known at most, each in its place.
const PLACES: usize = 256;

/// What is told of a stretch in a minute: the toll, the average in whole miles per hour, -1 for none, and the segment
/// of the nearest accident ahead.
#[derive(Clone, Copy, Debug, PartialEq, Eq)]
pub struct Known {
    pub toll: u64,
    pub stretch: Stretch,
    pub minute: u32,
    pub lav: i16,
    pub alert: Option<u8>,
}

/// Nothing is known. The one error is want of memory.
pub fn know_nothing(alloc: Global) -> Result<Vec<Option<Known>>, NoMemory>
    ensures { IfOk result (λ known. known.items ≡ replicate 256 None) }
{
    let mut known = Vec::new(alloc);
    known.resize(PLACES, None)?;
    Ok(known)
}

/// The place of a stretch. Others have it too.
#[inline(always)]
pub fn place(stretch: Stretch) -> usize {
    let way = 2 * usize::from(stretch.xway) + usize::from(stretch.dir);
    (100 * way + usize::from(stretch.seg)) % PLACES
}

/// Keeps what is known of a stretch, in place of what was.
#[inline(always)]
pub fn keep(known: &mut Vec<Option<Known>>, at: usize, one: Known)
    ensures { known.new.items ≡ slice_set known.old.items at (Some one) }
{
    if let Some(kept) = known.get_mut(at) {
        *kept = Some(one);
    }
}
