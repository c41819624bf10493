// Laws of the state of a floor, which no code runs.
ghost use Rattle.day_floor.specs.Laws.{
  AllBackLaw,
  BackLaw,
  ComeBackLaw,
  FloorExactLaw,
  FloorFeedLaw,
  FreshLaw,
  GiveLaw,
  GivenLaw,
  GoOnLaw,
  FloorGrowLaw,
  LastLaw,
  MarkLaw,
  NextLaw,
  OneAtMostLaw,
  OneFindingLaw,
  OneStepLaw,
  FloorOutLaw,
  RulesLaw,
  FloorSettleLaw,
  SettledLaw,
  StartLaw,
  StartedLaw,
  StartsLaw,
  StayLaw,
  TrueLaw,
  TurnsLaw,
};

/// Each step of a floor leads from a sound state to a sound state.
pub fn sound_law()
    ensures start { StartLaw }
    ensures feed { FloorFeedLaw }
    ensures give { GiveLaw }
    ensures back { BackLaw }
    ensures settle { FloorSettleLaw }
{}

/// The mark is the greatest number below which all is done, and what is settled is at most the mark.
pub fn mark_law()
    ensures greatest { MarkLaw }
    ensures settled { SettledLaw }
    ensures whole { AllBackLaw }
{}

/// What was written stays, and goes on position by position.
pub fn text_law()
    ensures stays { StayLaw }
    ensures goes_on { GoOnLaw }
    ensures one { OneStepLaw }
{}

/// Below the mark each report that is told has its one finding; where findings are true they make the notices and
/// charges of the rules.
pub fn finding_law()
    ensures one { OneFindingLaw }
    ensures at_most { OneAtMostLaw }
    ensures fresh { FreshLaw }
    ensures given { GivenLaw }
    ensures stay_true { TrueLaw }
    ensures exact { FloorExactLaw }
{}

/// Each job that is given can be run, and what was done of it may come back.
pub fn job_law()
    ensures next { NextLaw }
    ensures stays_out { FloorOutLaw }
    ensures come_back { ComeBackLaw }
{}

/// The jobs that are started for a worker are its events.
pub fn start_law()
    ensures starts { StartsLaw }
    ensures whole { StartedLaw }
    ensures grows { FloorGrowLaw }
{}

/// After every lawful list of turns what was written in all is what the tuples fed and the findings taken back make of
/// the settled positions.
pub fn turn_law()
    ensures kept { TurnsLaw }
    ensures rules { RulesLaw }
    ensures last { LastLaw }
{}
