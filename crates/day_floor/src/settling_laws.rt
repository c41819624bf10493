//! Laws of what is settled, as contracts of functions that run nothing.
ghost use Rattle.day_floor.specs.SettlingLaws.{ExactLaw, FedLaw, FeedLaw, SettledFindingLaw, LaterLaw, FillLaw};
ghost use Rattle.day_floor.specs.SettlingLaws.{TotalLaw};
ghost use Rattle.day_floor.specs.SettlingLaws.{MergedLaw, WroteLaw};

/// After a history that is told, notices are those of the definitions.
pub fn exact_law()
    ensures { ExactLaw }
{}

/// A run is a part of what was fed, and its charges are those between its positions.
pub fn fed_law()
    ensures { FedLaw }
{}

/// A tuple more that is fed is a slot more that waits.
pub fn feed_law()
    ensures { FeedLaw }
{}

/// Findings given for later positions change nothing of what is settled.
pub fn finding_law()
    ensures { SettledFindingLaw }
{}

/// What a day owes fits 63 bits.
pub fn total_law()
    ensures { TotalLaw }
{}

/// Further findings given back for positions that are not settled change nothing of what is.
pub fn later_law()
    ensures { LaterLaw }
{}

/// A finding given back is put into the slot of its position.
pub fn fill_law()
    ensures { FillLaw }
{}

/// What a settler took is the merged output of its tuples.
pub fn merged_law()
    ensures { MergedLaw }
{}

/// What a run wrote goes on where the merged output of the tuples before it ends.
pub fn wrote_law()
    ensures { WroteLaw }
{}
