// How long a connection that is served is waited for.
ghost use Rattle.std.specs.Prelude.{◌≡◌, ◌↔◌, ◌≤◌, ◌<◌, ◌+◌, ◌-◌, true, false};
ghost use Rattle.std.specs.Duration.{as_nanos};
ghost use Rattle.serve_room.specs.Times.{portion, portion_time, whole_time, left_of, whole_left_of};

use std::time::Duration;

/// How many seconds are waited for the next portion at most.
pub(crate) const PORTION_SECONDS: u64 = 30;

/// How many bytes a portion has.
const PORTION: usize = 65_536;

/// How many seconds are waited for a whole connection before its last portion begins: 25 hours, an hour more than a day has
/// that is sent while it goes on.
const WHOLE_SECONDS: u64 = 90_000;

/// What was waited for a portion, how many of its bytes came, whether it is the last, of any size, and what was waited in
/// all.
#[derive(Clone, Copy)]
pub(crate) struct Patience {
    waited: Duration,
    came: usize,
    last: bool,
    in_all: Duration,
}

impl Patience {
    /// Nothing was waited.
    pub(crate) fn whole() -> Patience
        ensures left { left_of result ≡ portion_time }
        ensures whole { whole_left_of result ≡ whole_time }
        ensures came { result.came ≡ 0 }
        ensures more { result.last ≡ false }
    {
        Patience {
            waited: Duration::ZERO,
            came: 0,
            last: false,
            in_all: Duration::ZERO,
        }
    }

    /// How long a read may still wait.
    pub(crate) fn left(&self) -> Duration
        ensures { as_nanos result ≡ left_of self.now }
    {
        Duration::from_secs(PORTION_SECONDS).saturating_sub(self.waited)
    }

    /// Whether the whole connection was waited for as long as may be.
    pub(crate) fn is_spent(&self) -> bool
        ensures { (result ≡ true) ↔ (whole_left_of self.now ≡ 0) }
    {
        Duration::from_secs(WHOLE_SECONDS)
            .saturating_sub(self.in_all)
            .is_zero()
    }

    /// Has what is still to come be the last portion, of which nothing was waited. Where it was the last before nothing
    /// changes.
    pub(crate) fn end(&mut self)
        ensures last { self.new.last ≡ true }
        ensures begins { self.old.last ≡ false → left_of self.new ≡ portion_time }
        ensures again { self.old.last ≡ true → self.new ≡ self.old }
        ensures whole { whole_left_of self.new ≡ whole_left_of self.old }
    {
        if self.last {
            return;
        }
        *self = Patience {
            waited: Duration::ZERO,
            came: 0,
            last: true,
            in_all: self.in_all,
        };
    }

    /// Notes a read. Behind a portion that is not the last it begins anew.
    pub(crate) fn note(&mut self, waited: Duration, count: usize)
        ensures anew { self.old.last ≡ false → portion ≤ self.old.came + count → left_of self.new ≡ portion_time }
        ensures spent { self.old.came + count < portion → left_of self.new ≡ left_of self.old - as_nanos waited }
        ensures ends { self.old.last ≡ true → left_of self.new ≡ left_of self.old - as_nanos waited }
        ensures came { self.old.came + count < portion → self.new.came ≡ self.old.came + count }
        ensures last { self.new.last ≡ self.old.last }
        ensures whole { whole_left_of self.new ≡ whole_left_of self.old - as_nanos waited }
    {
        let came = self.came.saturating_add(count);
        let in_all = self.in_all.saturating_add(waited);
        if !self.last && came >= PORTION {
            *self = Patience {
                waited: Duration::ZERO,
                came: 0,
                last: false,
                in_all,
            };
        } else {
            *self = Patience {
                waited: self.waited.saturating_add(waited),
                came,
                last: self.last,
                in_all,
            };
        }
    }
}
