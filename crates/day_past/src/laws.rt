// Laws of histories, which no code runs.
ghost use Rattle.day_past.specs.Laws.{CausesLaw};

/// The fault of a refused line is one that a history's line may have, and its cause says it.
pub fn causes_law()
    ensures { CausesLaw }
{}
