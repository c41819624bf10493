// What one connection at a time has.
ghost use Rattle.std.specs.Prelude.{◌≡◌, Bool, false};

/// What one of the connections that are out has, and no other. `held` is whether this one has it. It cannot be let go
/// but by `end`.
pub trait Turn {
    ghost held: { Self → Bool };

    /// Gives it back, if this one has it: the next connection may have it from now on.
    fn over(&mut self)
        ensures { held self.new ≡ false };

    /// Gives it back, if this one still has it.
    fn end(self);
}

/// The turn of connections that need none.
#[derive(Clone, Copy, Debug, PartialEq, Eq)]
pub struct NoTurn;

impl Turn for NoTurn {
    ghost held = { λ t. false };

    fn over(&mut self) {}

    fn end(self) {}
}
