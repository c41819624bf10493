// A keeper that is shared, at a place in its history.
ghost use Rattle.std.proofs.Props.{props};
ghost use Rattle.std.specs.Prelude.{◌≡◌, ℕ, Some};

use crate::begun::Begun;
use crate::history::Naming;
use crate::hold::Hold;
use crate::kept::Kept;
use keep_office::Keeper;
use std::marker::PhantomData;
use std::sync::{Mutex, Wait};

/// A keeper that is shared, for one who is to put, while no other puts. It takes the lock for one call at a time, and
/// holds on to the place in the keeper's history that it saw first or put last. So it tells what is kept. Where another
/// has put between, which it sees by the length of the history, its calls fail. `N` is where it was held, where it is to
/// put once.
#[derive(Drop)]
pub struct HeldKeeper<'a, J: Naming, K: Keeper, R: Wait, N: Begun> {
    pub(crate) rt: &'a R,
    pub(crate) keeper: &'a Mutex<Kept<J, K>>,
    pub hold: Hold<J, K>,
    pub(crate) faults: u64,
    pub(crate) of: PhantomData<N>,
    pub ghost once: { (n : ℕ) → N.from ≡ Some n → hold.from ≡ Some n } by { Prim.hlevel props },
}
