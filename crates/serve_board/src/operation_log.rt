// The history of a board: the list of its operations, which only grows. It exists in the proofs alone, beside a word
// that counts its pens.
use crate::change::Change;
use logbook::{Gain, Opening, Plain, Play, Rule, Word};
use std::marker::Model;
use std::snapshot::Snapshot;

/// An operation, as the history has it. No value of it is made.
pub struct Logged {}

impl Model for Logged {
    ghost use Rattle.day_floor.specs.Operations.{Operation, Begin};
    ghost use Rattle.serve_board.specs.Codes.{operation_code};

    ghost Value = { Operation };

    ghost coded = { operation_code };

    ghost view = { λ _. Begin 0 };
}

/// The rule of a history.
pub struct OperationLog;

impl Rule<Logged, u64> for OperationLog {
    ghost use Rattle.std.specs.Prelude.{[]};
    ghost use base.Fml.{ftrue};
    ghost use Rattle.serve_board.specs.OperationLog.{Counted};

    ghost holds = { λ cells log. Counted cells log };

    ghost first = { [] };

    ghost hinted = { λ n log. Unit {0} };

    ghost shows = { λ log. [] };

    ghost keeps = { λ names log. ftrue };

    ghost moves = { λ ask before after answer. Unit {0} };
}

/// The word that counts the pens of a history.
pub type Head = Word<Logged, u64, OperationLog>;

/// A history begins with no operation.
pub struct Opens;

impl Opening<(), Logged> for Opens {
    ghost use Rattle.std.specs.Prelude.{[]};

    ghost log = { λ n nothing. [] };
}

/// Nothing is traded.
pub struct Nothing;

impl Gain<Logged, u64> for Nothing {
    ghost use base.Fml.{ftrue};

    ghost after = { λ names about answer. ftrue };
}

/// A step that gives a pen.
pub struct GivePen;

impl Play<Logged, u64> for GivePen {
    ghost use Rattle.serve_board.specs.OperationLog.{GivesPen};

    ghost then = { GivesPen };
}

/// A step that adds a change's operation.
pub struct Add;

impl Play<Logged, u64> for Add {
    ghost use Rattle.serve_board.specs.OperationLog.{AddsSeen};

    ghost then = { AddsSeen };
}

impl Plain<Snapshot<Change>, Logged, u64> for Add {
    ghost use Rattle.std.specs.Prelude.{None};
    ghost use Rattle.serve_board.specs.Changes.{operation_of};

    ghost ask = { λ s. operation_of s.value };

    ghost state = { λ s. None };
}

/// A look at the whole history.
pub struct SeeAll;

impl Play<Logged, u64> for SeeAll {
    ghost use Rattle.serve_board.specs.OperationLog.{SeesAll};

    ghost then = { SeesAll };
}

/// What adds no operation asks for none.
pub struct Ask;

impl Plain<(), Logged, u64> for Ask {
    ghost use Rattle.std.specs.Prelude.{None};
    ghost use Rattle.day_floor.specs.Operations.{Begin};

    ghost ask = { λ nothing. Begin 0 };

    ghost state = { λ nothing. None };
}
