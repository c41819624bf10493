// Whoever serves a connection.
ghost use Rattle.serve_loops.specs.Wires.{wire_by};

use crate::turn::Turn;
use road_io::TwoWay;
use std::alloc::Global;

/// Whoever serves a connection that was accepted. Many loops share one host. `Q` is what each loop has of its own, as a
/// reader of a board, which the host may change; `follows` is how that goes on. `attends` is what the host does: of it and
/// of what the connection tells, before and after.
pub trait Host<Q> {
    ghost use Rattle.serve_loops.specs.Wires.{Wire};

    ghost attends: { Self → Q → Q → Wire → Wire → Type 0 };

    ghost follows: { Q → Q → Type 0 };

    /// Serves one connection, whose turn may be over before that.
    fn attend<L: TwoWay, T: Turn>(&self, alloc: Global, line: &mut L, turn: &mut T, reader: &mut Q)
        ensures attends { attends self.now reader.old reader.new (wire_by L.left L.plan L.written L.room L.faults line.old)
            (wire_by L.left L.plan L.written L.room L.faults line.new) }
        ensures follows { follows reader.old reader.new };

    ghost stays: { (q : Q) → follows q q };

    ghost goes_on: { (p q r : Q) → follows p q → follows q r → follows p r };
}
