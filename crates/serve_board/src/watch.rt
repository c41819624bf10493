// Whoever answers from a board.
ghost use Rattle.std.specs.Prelude.{◌≡◌, IfSome, IfNone};
ghost use Rattle.day_floor.specs.Shown.{shown_after};
ghost use Rattle.serve_board.specs.Passes.{Sees, balance_on, total_on};

use crate::live::Live;
use crate::reader::BoardReader;

/// Whoever answers from a board, and never waits. `pass` is of which board it is, and what it saw or was told of.
pub trait Watch {
    ghost use Rattle.serve_board.specs.Passes.{Pass};

    ghost pass: { Self → Pass };

    /// A vehicle's account. `None` where the board is closed, or shows less than is known, which no board does.
    fn balance(&mut self, vid: u32) -> Option<Live>
        ensures sees { IfSome result (λ _. Sees (pass self.old) (pass self.new)) }
        ensures live { IfSome result (λ live. live ≡ balance_on (shown_after (pass self.new).seen) vid) }
        ensures none { IfNone result (pass self.new ≡ pass self.old) };

    /// What all vehicles owe. `None` as for `balance`.
    fn total(&mut self) -> Option<Live>
        ensures sees { IfSome result (λ _. Sees (pass self.old) (pass self.new)) }
        ensures live { IfSome result (λ live. live ≡ total_on (shown_after (pass self.new).seen)) }
        ensures none { IfNone result (pass self.new ≡ pass self.old) };
}

impl Watch for BoardReader {
    ghost pass = { λ reader. reader };

    fn balance(&mut self, vid: u32) -> Option<Live> {
        self.balance(vid)
    }

    fn total(&mut self) -> Option<Live> {
        self.total()
    }
}
