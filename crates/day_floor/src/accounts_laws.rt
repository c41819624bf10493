//! Laws over the definitions, as contracts of functions that run nothing.
ghost use Rattle.day_floor.specs.AccountsLaws.{BookLaw, GrowLaw, LiveLaw};

/// A board to which a day's charges were published shows the day's accounts at its mark, and still does when more
/// tuples follow.
pub fn live_law()
    ensures shows { LiveLaw }
    ensures grows { GrowLaw }
{}

/// The sums of some charges are their accounts, their total and their rows.
pub fn book_law()
    ensures { BookLaw }
{}
