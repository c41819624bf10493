// A source that is opened at its first read.
ghost use Rattle.std.specs.Prelude.{ℕ, ◌≡◌, ◌≢◌, List, Option, None, IfSome};
ghost use Rattle.road_io.specs.Late.{late_left};
ghost use Rattle.road_io.specs.Portions.{AnyPart};
ghost use Rattle.road_io.specs.declared.late.Opening.TheVariants.{Unopened};

use crate::counting::{count_fault, read_counting};
use crate::source::{Failed, Source};
use std::io::Read;

/// What bytes are read from, once it is opened. `holds` is what it has then, where it tells that.
pub trait Opens {
    type Opened: Read + Drop;

    ghost holds: { Self → Option (List ℕ) };

    /// What is to be read, or none where it cannot be had.
    fn open(&self) -> Option<Self::Opened>
        ensures { IfSome result (λ opened. Self.Opened.remaining opened ≡ holds self.now) };
}

/// Whether a reader was opened, and what came of it.
#[derive(Drop)]
pub enum Opening<R> {
    Unopened,
    Opened(R),
    Refused,
}

/// A source that is opened at its first read. One that cannot be opened is a counted fault at each read, and is not
/// tried again.
#[derive(Drop)]
pub struct LateSource<O: Opens> {
    place: O,
    opening: Opening<O::Opened>,
    faults: u64,
}

impl<O: Opens> LateSource<O> {
    /// A source that was not opened yet.
    pub(crate) fn new(place: O) -> LateSource<O> {
        LateSource {
            place,
            opening: Opening::Unopened,
            faults: 0,
        }
    }
}

/// Opens a reader where that was not tried yet.
fn open_once<O: Opens>(place: &O, opening: &mut Opening<O::Opened>)
    ensures tried { opening.new ≢ Unopened }
    ensures once { opening.old ≢ Unopened → opening.new ≡ opening.old }
    ensures left { late_left (O.holds place.now) O.Opened.remaining opening.new
        ≡ late_left (O.holds place.now) O.Opened.remaining opening.old }
{
    if matches!(opening, Opening::Unopened) {
        *opening = match place.open() {
            Some(reader) => Opening::Opened(reader),
            None => Opening::Refused,
        };
    }
}

impl<O: Opens> Source for LateSource<O> {
    ghost left = { λ s. late_left (O.holds s.place) O.Opened.remaining s.opening };

    ghost faults = { λ s. s.faults };

    ghost plan = { λ s. None };

    ghost most = { λ s. AnyPart };

    ghost name = { λ s. 0 };

    fn read(&mut self, buf: &mut [u8]) -> Result<usize, Failed> {
        open_once(&self.place, &mut self.opening);
        if let Opening::Opened(reader) = &mut self.opening {
            return read_counting(reader, buf, &mut self.faults);
        }
        Err(count_fault(&mut self.faults))
    }
}
