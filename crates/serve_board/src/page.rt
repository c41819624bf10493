// The value that is kept twice, with the beginning of the history that it shows.
use crate::change::Change;
use crate::front::Beginning;
use crate::shown::Shown;
use left_right::Absorb;
use std::alloc::AllocError;

/// Accounts, and what they are the accounts of.
#[derive(Drop)]
pub struct Page {
    pub shown: Shown,
    pub front: Beginning,
}

/// An entry of the writer's log: a change, or how far the history goes with the changes before.
#[derive(Drop)]
pub enum Post {
    Changed(Change),
    Reached(Beginning),
}

impl Absorb<Post> for Page {
    ghost use Rattle.serve_board.specs.Changes.{page_with};

    type State = Page;

    ghost state = { λ p. p };

    ghost applied = { page_with };

    fn absorb_first(&mut self, operation: &Post, _other: &Page) -> Result<(), AllocError> {
        match operation {
            Post::Changed(change) => self.shown.absorb(change),
            Post::Reached(front) => {
                self.front = front.again();
                Ok(())
            }
        }
    }
}
