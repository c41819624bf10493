// The pass of a room, and whether the turn of whoever took it is over.
ghost use Rattle.std.specs.Prelude.{◌≡◌, None, false};

use std::alloc::{AllocError, Global};
use std::sync::Arc;
use std::sync::atomic::{AtomicU64, Ordering};

/// What a connection that posts a day takes out of the room. There is one, so one such connection has it at a time. It
/// counts the turns that are over.
#[derive(Drop)]
pub(crate) struct Pass {
    turns: Arc<AtomicU64, Global>,
}

/// What a connection knows of its own turn: the count of turns, and what it was when this one began.
#[derive(Drop)]
pub(crate) struct OwnTurn {
    turns: Arc<AtomicU64, Global>,
    begun: u64,
}

impl Pass {
    /// The pass of a room that is opened.
    pub(crate) fn of_new_room(alloc: Global) -> Result<Pass, AllocError> {
        let turns = Arc::new(alloc, AtomicU64::new(0))?;
        Ok(Pass { turns })
    }

    /// The turn that begins with this pass.
    pub(crate) fn begin(&self) -> Option<OwnTurn> {
        let Ok(turns) = Arc::try_clone(&self.turns) else {
            return None;
        };
        let begun = turns.load(Ordering::SeqCst);
        Some(OwnTurn { turns, begun })
    }

    /// The turn that began with this pass is over.
    pub(crate) fn end(&self) {
        let _ = self.turns.fetch_add(1, Ordering::SeqCst);
    }
}

/// Whether the turn of a connection that had one is over.
pub(crate) fn is_over(own: &Option<OwnTurn>) -> bool
    ensures { own.now ≡ None → result ≡ false }
{
    match own {
        Some(own) => own.turns.load(Ordering::SeqCst) != own.begun,
        None => false,
    }
}
