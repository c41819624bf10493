// Laws of an office that begins anew, which no code runs.
ghost use Rattle.keep_office.specs.RenewalLaws.{FileLaw, AnswersLaw, DayLaw};

/// The amounts, written as a history's file, are read as that history.
pub fn file_law()
    ensures { FileLaw }
{}

/// An office that began anew tells of the days that may still be asked for what it told before.
pub fn answers_law()
    ensures { AnswersLaw }
{}

/// A day that an office keeps after it began anew is the one that it would have kept.
pub fn day_law()
    ensures { DayLaw }
{}
