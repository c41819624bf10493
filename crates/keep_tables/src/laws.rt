// Laws of databases and offices, which no code runs.
ghost use Rattle.keep_tables.specs.Laws.{ToldLaw, OneOfficeLaw, SoundLaw};

/// What is told of a database is exactly what it stands for.
pub fn told_law()
    ensures { ToldLaw }
{}

/// A database stands for one office at most.
pub fn one_office_law()
    ensures { OneOfficeLaw }
{}

/// An office that a database stands for is sound.
pub fn sound_law()
    ensures { SoundLaw }
{}
