// What the answers of the shards are, position by position.
ghost use Rattle.ways_audit.specs.Laws.{ShardSeenLaw, ShardPartsLaw};

/// Each position has what its report tells over the whole day, however the day is given.
pub fn seen_law()
    ensures seen { ShardSeenLaw }
    ensures parts { ShardPartsLaw }
{}
