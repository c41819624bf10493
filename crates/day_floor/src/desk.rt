// One worker's events that wait.
ghost use Rattle.std.specs.Prelude.{◌≡◌, ◌≤◌, ◌<◌, ◌+◌, ◌++◌, ◌∷◌, [], ℕ, true, false, vec_len, vec_capacity, IfSome};
ghost use Rattle.std.specs.Prelude.{IfNone};
ghost use Rattle.ways_expressway.specs.Events.{position_told};
ghost use Rattle.day_floor.specs.Shares.{Share, events_ahead, can_give};
ghost use Rattle.day_floor.specs.Steps.{given_out, taken_back};
ghost use Rattle.day_floor.specs.Desks.{IsDesk, first_of};

use std::alloc::Global;
use std::mem;
use ways_expressway::LaneEvent;

/// A worker's events that wait, and the position of the first one that is out.
#[derive(Drop)]
pub(crate) struct WorkerDesk {
    pub(crate) inbox: Vec<LaneEvent>,
    pub(crate) first_out: Option<u32>,
}

/// The position of an event.
#[inline(always)]
fn position(event: LaneEvent) -> u32
    ensures { result ≡ position_told event }
{
    match event {
        LaneEvent::Seen { position, .. } => position,
        LaneEvent::Leave { position, .. } => position,
    }
}

/// The position of the first event.
fn first(events: &[LaneEvent]) -> Option<u32>
    ensures { result ≡ first_of events.now }
{
    match events.first() {
        None => None,
        Some(event) => Some(position(*event)),
    }
}

/// No events yet, with room for so many where memory has it.
fn room_for(alloc: Global, count: usize) -> Vec<LaneEvent>
    ensures { result.items ≡ [] }
{
    match Vec::with_capacity(alloc, count) {
        Ok(inbox) => inbox,
        Err(_) => Vec::new(alloc),
    }
}

impl WorkerDesk {
    /// The position of the worker's first event that is not back.
    pub(crate) fn first(&self) -> Option<u32>
        ensures { (share : Share) → IsDesk self.now share → result ≡ first_of (events_ahead share) }
    {
        if self.first_out.is_some() {
            return self.first_out;
        }
        first(self.inbox.as_slice())
    }

    /// Puts an event at the end of the inbox.
    pub(crate) fn put(&mut self, event: LaneEvent)
        requires { vec_len self.old.inbox < vec_capacity self.old.inbox }
        ensures items { self.new.inbox.items ≡ self.old.inbox.items ++ event ∷ [] }
        ensures len { vec_len self.new.inbox ≡ vec_len self.old.inbox + 1 }
        ensures capacity { vec_capacity self.old.inbox ≤ vec_capacity self.new.inbox }
        ensures first_out { self.new.first_out ≡ self.old.first_out }
    {
        self.inbox.push_reserved(event);
    }

    /// Moves the events out that wait, if there are any and no job is out. Room for as many again, and an eighth more,
    /// is asked for at once.
    pub(crate) fn give(&mut self, alloc: Global) -> Option<Vec<LaneEvent>>
        ensures none { IfNone result ((share : Share) → IsDesk self.old share
            → (can_give share ≡ false) × IsDesk self.new share) }
        ensures some { IfSome result (λ events. (share : Share) (number : ℕ) → IsDesk self.old share
            → (can_give share ≡ true) × (events.items ≡ share.waiting) × IsDesk self.new (given_out number share)) }
    {
        if self.first_out.is_some() {
            return None;
        }
        let first = first(self.inbox.as_slice());
        if first.is_none() {
            return None;
        }
        self.first_out = first;
        let count = self.inbox.len();
        let empty = room_for(alloc, count.saturating_add(count / 8));
        Some(mem::replace(&mut self.inbox, empty))
    }

    /// No job is out from now on.
    pub(crate) fn back(&mut self)
        ensures { (share : Share) → IsDesk self.old share → IsDesk self.new (taken_back share) }
    {
        self.first_out = None;
    }
}
