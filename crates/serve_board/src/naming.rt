// Which board it is, as a type that its readers and its writer share.
use std::marker::Brand;

/// Which board it is. Each call of a program picks it.
pub trait BoardNaming {
    ghost use Rattle.std.specs.Prelude.{ℕ, List};

    ghost board: { List ℕ };
}

impl BoardNaming for Brand {
    ghost use Rattle.std.specs.Prelude.{[]};

    ghost board = { [] };
}
