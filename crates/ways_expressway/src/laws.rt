// Laws of the definitions, which no code runs.
ghost use Rattle.ways_expressway.specs.Laws.{
  AccountLaw,
  CarriedLaw,
  FindingLaw,
  JobLaw,
  OneLaw,
  PartitionLaw,
  PartsLaw,
  PositionLaw,
  ReadyLaw,
  RunLaw,
  SeenLaw,
  SettleLaw,
  ShapeLaw,
  StoppedLaw,
  WorkerLaw,
};

/// The part of a day's events that a worker is told is enough for its ways.
pub fn routing_law()
    ensures seen { SeenLaw }
    ensures stopped { StoppedLaw }
    ensures found { FindingLaw }
    ensures whole { WorkerLaw }
{}

/// A worker's events may be run, in one job or in several.
pub fn job_law()
    ensures run { RunLaw }
    ensures order { PositionLaw }
    ensures fit { CarriedLaw }
    ensures jobs { JobLaw }
    ensures ready { ReadyLaw }
    ensures parts { PartsLaw }
{}

/// Whatever is done of a job that is its result has the shape of one.
pub fn shape_law()
    ensures { ShapeLaw }
{}

/// Whatever the number of workers, their findings make the rules' notices.
pub fn partition_law()
    ensures { PartitionLaw }
{}

/// The findings given back make the rules' notices and charges of the tuples below the mark.
pub fn settle_law()
    ensures one { OneLaw }
    ensures notices { SettleLaw }
    ensures accounts { AccountLaw }
{}
