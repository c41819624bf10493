// What connections come from.
ghost use Rattle.std.specs.Prelude.{ℕ, ◌≡◌, ◌≤◌, ◌+◌, ◌-◌, ◌^◌, ◌<◌, IfOk, OnOk, OnErr};
ghost use Rattle.road_io.specs.Faults.{HasCause, Rose};

use crate::turn::Turn;
use road_io::{Failed, TwoWay};

/// Gives connections, one after another, and takes each back that was served. `accepted` counts those that it gave,
/// `faults` the calls that failed. `gives` is which connection it gives and `takes` which it takes back, by what it is
/// before and after. A connection cannot be let go but by `end`.
pub trait Listener {
    type Line: TwoWay<Out: Send> + Send;

    type Pass: Turn + Send;

    ghost faults: { Self → ℕ };

    ghost accepted: { Self → ℕ };

    ghost gives: { Self → Self → Self.Line → Type 0 };

    ghost takes: { Self → Self → Self.Line → Type 0 };

    /// Accepts the next connection. It may wait for one without end.
    fn accept(&mut self) -> Result<Self::Line, Failed>
        requires room { accepted self.old < 2 ^ 64 - 1 }
        ensures accepts { OnOk result (accepted self.new ≡ accepted self.old + 1) }
        ensures refuses { OnErr result (accepted self.new ≡ accepted self.old) }
        ensures gives { IfOk result (λ line. gives self.old self.new line) }
        ensures cause { HasCause (faults self.old) (faults self.new) result };

    /// What a connection has of what one at a time has. It may be given back before the connection, which is then still
    /// the one that was given.
    fn pass(&self, line: &mut Self::Line) -> Self::Pass
        ensures given { (before : Self) → gives before self.now line.old → gives before self.now line.new };

    /// Takes a connection back, and ends it, so that what was answered reaches the client.
    fn end(&mut self, line: Self::Line)
        ensures takes { takes self.old self.new line }
        ensures accepted { accepted self.new ≡ accepted self.old }
        ensures faults { faults self.new ≡ faults self.old };

    /// Hears no more, which counts as a call that failed. Where others hear with it, their calls fail from then on.
    fn give_up(&mut self)
        ensures accepted { accepted self.new ≡ accepted self.old }
        ensures later { faults self.old ≤ faults self.new }
        ensures cause { Rose (faults self.old) (faults self.new) };
}
