// What lies under the lock of a keeper that is shared.
ghost use Rattle.std.proofs.Props.{props};
ghost use Rattle.std.specs.Prelude.{◌≡◌, ◌+◌, ◌∷◌, [], true, false, Some, None, IfSome, OnOk};
ghost use Rattle.keep_office.specs.Office.{Office, IsSound};
ghost use Rattle.keep_office.specs.Calls.{SoundIfTold};
ghost use Rattle.serve_desk.specs.History.{head_of, told_at, GoesOn};

use crate::history::{Head, History, Naming};
use crate::hold::Hold;
use crate::place::{Place, open_history};
use crate::reads::read_last_day;
use keep_office::{KeepFault, Keeper};
use logbook::Seen;

/// A keeper whose history was opened, and has no name yet.
#[derive(Drop)]
pub struct Opened<K: Keeper> {
    keeper: K,
    head: Head<K>,
    pub seen: Seen<K, u64, History>,
    pub ghost head_is: { head ≡ head_of seen.book },
    pub ghost first: { seen.log ≡ keeper ∷ [] },
}

impl<K: Keeper> Opened<K> {
    /// Opens the history of a keeper.
    pub fn new(keeper: K) -> Self {
        let (head, seen) = open_history(&keeper);
        Opened { keeper, head, seen }
    }

    /// The keeper beside its history, which has a name now.
    pub fn named<J: Naming>(self) -> Kept<J, K>
        requires { self.seen.book ≡ J.book }
    {
        let Opened { keeper, head, seen } = self;
        Kept {
            keeper,
            head,
            place: Place::first(seen),
            settled: true,
        }
    }
}

/// A keeper beside its history. Where it is settled, the history's last place is what the keeper is now.
#[derive(Drop)]
pub struct Kept<J: Naming, K: Keeper> {
    pub(crate) keeper: K,
    head: Head<K>,
    pub(crate) place: Place<J, K>,
    pub(crate) settled: bool,
    pub ghost head_is: { head ≡ head_of J.book },
    pub ghost told_is: { settled ≡ true → K.told keeper ≡ told_at K.told place.seen.log place.count },
    pub ghost sound: { settled ≡ false
        → (o : Office) → told_at K.told place.seen.log place.count ≡ Some o → IsSound o } by { Prim.hlevel props },
}

impl<J: Naming, K: Keeper> Kept<J, K> {
    /// Takes the keeper out. Its history is let go.
    pub fn into_keeper(self) -> K
        ensures { result ≡ self.keeper }
    {
        let Kept {
            keeper,
            head: _,
            place: _,
            settled: _,
        } = self;
        keeper
    }

    /// What who is to put holds on to: the last place, at which the keeper is asked once.
    pub(crate) fn hold(&mut self) -> Hold<J, K>
        ensures told { told_at K.told result.place.seen.log result.place.count
            ≡ told_at K.told self.new.place.seen.log self.new.place.count }
    {
        let looked = read_last_day(self);
        Hold {
            place: self.place.again(),
            trouble: looked.err(),
            from: None,
        }
    }

    /// What who is to put once behind a place that was seen holds on to. Where the last place is before that, which does
    /// not come, no call can be made.
    pub(crate) fn hold_behind(&mut self, seen: &Place<J, K>) -> Hold<J, K>
        ensures went { GoesOn seen.now.seen.log result.place.seen.log }
        ensures from { result.from ≡ Some result.place.count }
        ensures told { result.trouble ≡ None → told_at K.told result.place.seen.log result.place.count
            ≡ told_at K.told self.new.place.seen.log self.new.place.count }
    {
        let hold = self.hold();
        if seen.is_reached(&hold.place) {
            return hold.once();
        }
        Hold {
            place: seen.again(),
            trouble: Some(KeepFault::Failed),
            from: Some(seen.count),
        }
    }

    /// Whether the keeper is what it was at the place that is held; else why no call can be made for who holds it.
    pub(crate) fn stands(&self, hold: &Hold<J, K>) -> Result<(), KeepFault>
        ensures settled { OnOk result (self.now.settled ≡ true) }
        ensures told { OnOk result (K.told self.now.keeper
            ≡ told_at K.told hold.now.place.seen.log hold.now.place.count) }
        ensures count { OnOk result (self.now.place.count ≡ hold.now.place.count) }
    {
        if let Some(fault) = &hold.trouble {
            return Err(*fault);
        }
        if !self.settled {
            return Err(KeepFault::Failed);
        }
        if !self.place.is(&hold.place) {
            return Err(KeepFault::Failed);
        }
        Ok(())
    }

    /// From now on the history is behind what the keeper is.
    pub(crate) fn unsettle(&mut self)
        requires { SoundIfTold (told_at K.told self.old.place.seen.log self.old.place.count) }
        ensures kept { self.new.keeper ≡ self.old.keeper }
        ensures place { self.new.place ≡ self.old.place }
        ensures unsettled { self.new.settled ≡ false }
    {
        self.settled = false;
    }

    /// Adds what the keeper is now to the history, and gives its place. There is none where the history was longer than
    /// was known here.
    pub(crate) fn settle(&mut self) -> Option<Place<J, K>>
        requires { SoundIfTold (K.told self.old.keeper) }
        ensures kept { self.new.keeper ≡ self.old.keeper }
        ensures told { IfSome result (λ p. told_at K.told p.seen.log p.count ≡ K.told self.old.keeper) }
        ensures count { IfSome result (λ p. p.count ≡ self.old.place.count + 1) }
    {
        let Some(place) = self.place.add(&self.head, &self.keeper) else {
            return None;
        };
        let told = place.again();
        self.place = place;
        self.settled = true;
        Some(told)
    }
}
