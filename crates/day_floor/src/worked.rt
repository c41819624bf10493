//! What a book answers after a few calls: calls whose answers are proved.
ghost use Rattle.std.specs.Prelude.{◌≡◌, [], ◌∷◌, IfOk};

use crate::book::Book;
use road_time::{NoMemory, SpentRow};
use std::alloc::Global;

/// What a charge gave, and what the book then answers.
#[derive(Clone, Copy, Debug, PartialEq, Eq)]
pub struct Answers {
    pub charged: u64,
    pub balance: u64,
    pub total: u64,
}

/// Vehicle 100 is told a toll of 2, and charged on expressway 0: the answers, and the rows of day 100.
pub fn one_charge(alloc: Global) -> Result<(Answers, Vec<SpentRow>), NoMemory>
    ensures { IfOk result (λ r. (r.0 ≡ record { charged = 2; balance = 2; total = 2 })
        × (r.1.items ≡ record { day = 100; vid = 100; xway = 0; tolls = 2 } ∷ [])) }
{
    let mut book = Book::new(alloc);
    book.notify(100, 2)?;
    let charged = book.charge(100, 0)?;
    let answers = Answers {
        charged,
        balance: book.balance(100),
        total: book.total(),
    };
    let rows = book.spent_rows(100)?;
    Ok((answers, rows))
}

/// Vehicle 100 is told a toll of 2 and then of 0, and charged: the answers, with the balance of a vehicle that never
/// was, and the rows.
pub fn a_charge_of_nothing(alloc: Global) -> Result<(Answers, Vec<SpentRow>), NoMemory>
    ensures { IfOk result (λ r. (r.0 ≡ record { charged = 0; balance = 0; total = 0 }) × (r.1.items ≡ [])) }
{
    let mut book = Book::new(alloc);
    let balance = book.balance(5);
    book.notify(100, 2)?;
    book.notify(100, 0)?;
    let charged = book.charge(100, 0)?;
    let answers = Answers {
        charged,
        balance,
        total: book.total(),
    };
    let rows = book.spent_rows(100)?;
    Ok((answers, rows))
}

/// Vehicle 100 is told a toll of 2, and charged on expressways 1, 0 and 1: the answers, and the rows of day 100, in
/// order.
pub fn two_expressways(alloc: Global) -> Result<(Answers, Vec<SpentRow>), NoMemory>
    ensures { IfOk result (λ r. (r.0 ≡ record { charged = 2; balance = 6; total = 6 })
        × (r.1.items ≡ record { day = 100; vid = 100; xway = 0; tolls = 2 }
        ∷ record { day = 100; vid = 100; xway = 1; tolls = 4 } ∷ [])) }
{
    let mut book = Book::new(alloc);
    book.notify(100, 2)?;
    book.charge(100, 1)?;
    book.charge(100, 0)?;
    let charged = book.charge(100, 1)?;
    let answers = Answers {
        charged,
        balance: book.balance(100),
        total: book.total(),
    };
    let rows = book.spent_rows(100)?;
    Ok((answers, rows))
}
