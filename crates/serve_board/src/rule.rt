// The rule that the writer and the readers keep: the page shows what its beginning of the board's history comes to.
use crate::page::Page;
use atomic_table::{Join, Split};
use crossbeam_utils::rule::{Outcome, Protocol};
use std::marker::Model;

/// What a reader or the writer knows: of which history the page is, from some time on. No value of it is made.
pub struct PageView {}

impl Model for PageView {
    ghost use Rattle.std.specs.Prelude.{Option, None};
    ghost use Rattle.std.specs.Coded.{coded_option};
    ghost use Rattle.logbook.specs.Pages.{Book, book_coded};

    ghost Value = { Option Book };

    ghost coded = { coded_option book_coded };

    ghost view = { λ _. None };
}

/// The rule of a board.
pub struct InOrder;

impl Protocol<Page, PageView> for InOrder {
    ghost use Rattle.std.specs.Prelude.{None};
    ghost use Rattle.serve_board.specs.InOrder.{Kept};

    ghost holds = { Kept };

    ghost first = { None };
}

/// A reader's look.
pub struct Looks;

impl Outcome<Page, PageView> for Looks {
    ghost use Rattle.serve_board.specs.InOrder.{LooksAtPage};

    ghost then = { LooksAtPage };
}

/// The writer's first publication, of nothing.
pub struct Meets;

impl Outcome<Page, PageView> for Meets {
    ghost use Rattle.serve_board.specs.InOrder.{Meets};

    ghost then = { Meets };
}

/// A publication.
pub struct Publishes;

impl Outcome<Page, PageView> for Publishes {
    ghost then = { λ v x y w. Unit {0} };
}

/// What a new reader is told: what the writer knows.
pub struct Notes;

impl Split<PageView> for Notes {
    ghost left = { λ v. v };

    ghost right = { λ v. v };
}

impl Join<PageView> for Notes {
    ghost use Rattle.std.specs.Prelude.{None};

    ghost both = { λ v w. w };

    ghost spent = { None };
}
