// What a tracker's answers are, where its reports are those of a day's tuples.
ghost use Rattle.day_floor.specs.CrossingsLaws.{DayLaw};

/// Over the reports of a day's tuples, what a report tells is what the day's stays and charges go by.
pub fn day_law()
    ensures { DayLaw }
{}
