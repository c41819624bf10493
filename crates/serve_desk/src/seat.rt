// What who answers sessions, one after another, has: a reader of the board, and a place in the history of the keeper.
ghost use Rattle.std.specs.Prelude.{◌≡◌};

use crate::history::Naming;
use crate::kept::Kept;
use crate::place::Place;
use keep_office::Keeper;
use serve_board::{BoardNaming, NamedReader};
use std::marker::Model;

/// A reader of the board of this name, and a place in the history of this name, which goes on with each POST. Contracts
/// see what the reader saw, and what the keeper was up to the place.
#[derive(Drop)]
pub struct Seat<J: Naming + BoardNaming, K: Keeper> {
    pub(crate) reader: NamedReader<J>,
    pub(crate) place: Place<J, K>,
}

impl<J: Naming + BoardNaming, K: Keeper> Model for Seat<J, K> {
    ghost use Rattle.serve_desk.specs.Seats.{Seated, seated, seated_code};

    ghost Value = { Seated K };

    ghost coded = { seated_code K.code };

    ghost view = { λ s. seated s.reader s.place.seen.log };
}

impl<J: Naming + BoardNaming, K: Keeper> Kept<J, K> {
    /// A seat at the last place of the history, with this reader.
    pub fn seat(&self, reader: NamedReader<J>) -> Seat<J, K>
        ensures reader { result.reader ≡ reader }
        ensures log { result.log ≡ self.now.place.seen.log }
    {
        Seat {
            reader,
            place: self.place.again(),
        }
    }
}
