// Where a keeper that puts once was held.
use std::marker::Brand;

/// How many come in the history before the place where a keeper was held that puts once, where one is. Each call of a
/// program picks it.
pub trait Begun {
    ghost use Rattle.std.specs.Prelude.{ℕ, Option};

    ghost from: { Option ℕ };
}

impl Begun for Brand {
    ghost use Rattle.std.specs.Prelude.{None};

    ghost from = { None };
}

/// The keeper may put often.
pub struct Often;

impl Begun for Often {
    ghost use Rattle.std.specs.Prelude.{None};

    ghost from = { None };
}
