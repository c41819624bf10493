// The history of a board that is to be made.
ghost use Rattle.std.specs.Prelude.{◌≡◌, [], IfSome};
ghost use Rattle.serve_board.specs.OperationLog.{head_of, numbers_of};

use crate::front::open_history;
use crate::operation_log::Head;
use crate::tip::Tip;
use std::marker::Model;

/// The history of a board that is to be made: so what tells that board from all others is known before it is made. It
/// takes no memory. Contracts see the numbers.
#[derive(Drop)]
pub struct BoardHistory {
    head: Head,
    // The pen is had where nobody else took it, and nobody did.
    tip: Option<Tip>,
}

impl Model for BoardHistory {
    ghost use Rattle.std.specs.Prelude.{◌≡◌, ℕ, List, [], IfSome};
    ghost use Rattle.std.specs.Coded.{coded_list, coded_ℕ};
    ghost use Rattle.serve_board.specs.OperationLog.{head_of, numbers_of};

    ghost Value = { List ℕ };

    ghost coded = { coded_list coded_ℕ };

    ghost view = { λ h. numbers_of h.head.book };

    ghost invariant = { λ h. (h.head ≡ head_of h.head.book)
        × IfSome h.tip (λ t. (t.book ≡ h.head.book) × (t.log ≡ [])) };
}

impl BoardHistory {
    /// A new history, with no operation.
    pub fn new() -> Self {
        let (head, front) = open_history();
        let tip = Tip::open(&head, &front);
        BoardHistory { head, tip }
    }

    pub(crate) fn into_parts(self) -> (Head, Option<Tip>)
        ensures head { (result.0 ≡ head_of result.0.book) × (numbers_of result.0.book ≡ self) }
        ensures tip { IfSome result.1 (λ t. (t.book ≡ result.0.book) × (t.log ≡ [])) }
    {
        let BoardHistory { head, tip } = self;
        (head, tip)
    }
}
