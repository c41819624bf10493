// What who is to put holds on to.
ghost use Rattle.std.proofs.Props.{props};
ghost use Rattle.std.specs.Prelude.{◌≡◌, ◌≤◌, ◌+◌, ℕ, Some, false};
ghost use Rattle.keep_office.specs.Office.{Office, IsSound};
ghost use Rattle.serve_desk.specs.History.{told_at};

use crate::history::Naming;
use crate::place::Place;
use keep_office::{KeepFault, Keeper};

/// A place in the history of a keeper, which whoever holds it calls a keeper at; or why no call can be made. Who may put
/// once has where it was held first, and holds that place or the next.
#[derive(Drop)]
pub struct Hold<J: Naming, K: Keeper> {
    pub place: Place<J, K>,
    pub trouble: Option<KeepFault>,
    pub(crate) from: Option<u64>,
    pub ghost sound: { (o : Office) → told_at K.told place.seen.log place.count ≡ Some o → IsSound o } by { Prim.hlevel props },
    pub ghost begun: { (n : ℕ) → from ≡ Some n → n ≤ place.count } by { Prim.hlevel props },
    pub ghost next: { (n : ℕ) → from ≡ Some n → place.count ≤ n + 1 } by { Prim.hlevel props },
}

impl<J: Naming, K: Keeper> Hold<J, K> {
    /// The same, for one who may put once.
    pub(crate) fn once(self) -> Self
        ensures place { result.place ≡ self.place }
        ensures trouble { result.trouble ≡ self.trouble }
        ensures from { result.from ≡ Some self.place.count }
    {
        let Hold {
            place,
            trouble,
            from: _,
        } = self;
        let count = place.count;
        Hold {
            place,
            trouble,
            from: Some(count),
        }
    }

    /// The place.
    pub(crate) fn into_place(self) -> Place<J, K>
        ensures { result ≡ self.place }
    {
        let Hold {
            place,
            trouble: _,
            from: _,
        } = self;
        place
    }

    /// Whether who may put once has put.
    pub(crate) fn has_put(&self) -> bool
        ensures { result ≡ false → (n : ℕ) → self.now.from ≡ Some n → self.now.place.count ≡ n }
    {
        match self.from {
            Some(from) => from != self.place.count,
            None => false,
        }
    }
}
