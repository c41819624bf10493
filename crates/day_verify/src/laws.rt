// Laws of what is said of a kept day, which no code runs.
ghost use Rattle.day_verify.specs.Laws.{VerifiedLaw, AgreeLaw};

/// Of a day that is verified all that is kept is right: its record and its amounts are those that importing it under
/// the tariffs of now would keep.
pub fn verified_law()
    ensures { VerifiedLaw }
{}

/// Amounts that nowhere part are the same.
pub fn agree_law()
    ensures { AgreeLaw }
{}
