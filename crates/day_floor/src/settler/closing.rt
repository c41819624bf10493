// What is left of a day when all of it is settled.
ghost use Rattle.std.specs.Prelude.{◌≡◌, ℕ, List, IfOk, is_some};
ghost use Rattle.road_time.specs.declared.road.Tuple.{Tuple};
ghost use Rattle.road_time.specs.Sights.{Sight};
ghost use Rattle.road_time.specs.Tolls.{StretchTold};
ghost use Rattle.day_floor.specs.Answers.{PaidHistory};
ghost use Rattle.day_floor.specs.Closes.{IsClosed};
ghost use Rattle.day_floor.specs.SettlingRuns.{StandsFor, is_digested};

use super::Settler;
use road_digest::Digest;
use road_time::{NoMemory, SpentRow};
use std::marker::Model;
use std::thread::Threads;

/// The amounts of a day, in the order of vehicles and expressways. Contracts see the list.
#[derive(Drop)]
pub struct SpentRows {
    items: Vec<SpentRow>,
}

impl Model for SpentRows {
    ghost use Rattle.std.specs.Prelude.{List};
    ghost use Rattle.road_time.specs.declared.day.SpentRow.{SpentRow};

    ghost Value = { List SpentRow };

    ghost view = { λ r. r.items.items };
}

impl SpentRows {
    pub fn from_vec(items: Vec<SpentRow>) -> Self
        ensures { result ≡ items.items }
    {
        SpentRows { items }
    }

    pub fn into_vec(self) -> Vec<SpentRow>
        ensures { result.items ≡ self }
    {
        self.items
    }

    pub fn items(&self) -> &[SpentRow]
        ensures { result.now ≡ self.now }
    {
        self.items.as_slice()
    }
}

/// What is left of a day: its amounts, what they come to, how many notices it has, and the digest of their text, if it
/// was asked.
#[derive(Drop)]
pub struct Closed {
    pub rows: SpentRows,
    pub total: u64,
    pub notices: u64,
    pub notices_digest: Option<Digest>,
}

impl Settler {
    /// What is left of a day, under its number. The one error is want of memory.
    pub fn close<R: Threads>(self, rt: &R, day: u32) -> Result<Closed, NoMemory>
        ensures closed { IfOk result (λ closed.
            (finding : Sight → StretchTold) (number : ℕ) (history : PaidHistory) (before : List Tuple)
            → StandsFor self finding number history before → IsClosed closed day finding number history before) }
        ensures digested { IfOk result (λ closed. is_some closed.notices_digest ≡ is_digested self) }
    {
        let Settler {
            book,
            printer,
            charges: _,
            settled: _,
        } = self;
        let Ok(rows) = book.spent_rows(day) else {
            printer.close(rt);
            return Err(NoMemory);
        };
        let total = book.total();
        let (notices, notices_digest) = printer.end(rt);
        Ok(Closed {
            rows: SpentRows::from_vec(rows),
            total,
            notices,
            notices_digest,
        })
    }

    /// Leaves what is settled, once no thread has a part of its text.
    pub fn leave<R: Threads>(self, rt: &R) {
        let Settler {
            book: _,
            printer,
            charges: _,
            settled: _,
        } = self;
        printer.close(rt);
    }
}
