// The crew and its helpers may go to other threads.

use crate::gate::Gate;
use crate::helper::Helper;
use crate::standing_crew::StandingCrew;
use std::sync::Wait;

/// Asks that a value may go to another thread.
fn may_go<T: Send>(_value: &T) {}

/// A helper may go to another thread.
pub fn helper_may_go(helper: &Helper) {
    may_go(helper);
}

/// So may a crew, where its handle and its gate may.
pub fn crew_may_go<R: Wait + Send, G: Gate + Send>(crew: &StandingCrew<R, G>) {
    may_go(crew);
}
