// What is kept of the positions that are settled.
ghost use Rattle.std.specs.Prelude.{ℕ, ◌≡◌, []};
ghost use Rattle.road_time.specs.Sights.{Sight};
ghost use Rattle.road_time.specs.Tolls.{StretchTold};
ghost use Rattle.day_floor.specs.Answers.{PaidHistory};
ghost use Rattle.day_floor.specs.SettlingRuns.{StandsFor, is_digested};

mod closing;
mod publishing;
mod reports;
mod runs;
mod slots;

use crate::book::Book;
use crate::printer::Printer;
use crate::publisher::Charged;
pub use closing::{Closed, SpentRows};
use std::alloc::Global;

/// What is kept of the positions that are settled: the book, the text that was written, and how many there are.
/// Between two runs no text is held and no charge is listed; their room is kept. It cannot be dropped: `close` and `leave`
/// end it.
pub struct Settler {
    book: Book,
    printer: Printer,
    charges: Vec<Charged>,
    settled: u64,
}

impl Settler {
    /// Nothing is settled. The digest of the text is taken where it is asked. It takes no memory.
    pub fn new(alloc: Global, digested: bool) -> Self
        ensures stands { (finding : Sight → StretchTold) (number : ℕ) (history : PaidHistory)
            → StandsFor result finding number history [] }
        ensures digested { is_digested result ≡ digested }
    {
        Settler {
            book: Book::new(alloc),
            printer: Printer::new(alloc, digested),
            charges: Vec::new(alloc),
            settled: 0,
        }
    }

    /// How many positions are settled.
    pub fn settled(&self) -> u64
        ensures { result ≡ self.now.settled }
    {
        self.settled
    }
}
