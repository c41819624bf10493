// The history of a keeper under a lock: what it was at first and behind each put. It exists in the proofs alone, beside a
// word that counts it.
use logbook::{Gain, Opening, Plain, Play, Rule, Word};
use std::marker::Brand;

/// Which history it is. Each call of a program picks it.
pub trait Naming {
    ghost use Rattle.logbook.specs.Pages.{Book};

    ghost book: { Book };
}

impl Naming for Brand {
    ghost book = { record { number = 0; log_name = 0; cells_name = 0 } };
}

/// The rule of a history.
pub struct History;

impl<K> Rule<K, u64> for History {
    ghost use Rattle.std.specs.Prelude.{[]};
    ghost use base.Fml.{ftrue};
    ghost use Rattle.serve_desk.specs.History.{Counted};

    ghost holds = { λ cells log. Counted cells log };

    ghost first = { [] };

    ghost hinted = { λ n log. Unit {0} };

    ghost shows = { λ log. [] };

    ghost keeps = { λ names log. ftrue };

    ghost moves = { λ ask before after answer. Unit {0} };
}

/// The word that counts a history.
pub type Head<K> = Word<K, u64, History>;

/// A history begins with what the keeper was when it was put under the lock.
pub struct Begin;

impl<K> Opening<K, K> for Begin {
    ghost use Rattle.std.specs.Prelude.{[], ◌∷◌};

    ghost log = { λ n k. k ∷ [] };
}

/// Nothing is traded.
pub struct Nothing;

impl<K> Gain<K, u64> for Nothing {
    ghost use base.Fml.{ftrue};

    ghost after = { λ names about answer. ftrue };
}

/// A step that adds what the keeper is.
pub struct Add;

impl<K> Play<K, u64> for Add {
    ghost use Rattle.serve_desk.specs.History.{AddsSeen};

    ghost then = { AddsSeen };
}

impl<K> Plain<K, K, u64> for Add {
    ghost use Rattle.std.specs.Prelude.{None};

    ghost ask = { λ k. k };

    ghost state = { λ k. None };
}
