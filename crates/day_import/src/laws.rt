// Laws of imports, which no code runs.
ghost use Rattle.day_import.specs.Laws.{RepeatLaw, OnceLaw};

/// However often one day is imported of one input, it is kept once or not at all.
pub fn repeat_law()
    ensures { RepeatLaw }
{}

/// What `import` does meets the premise of the repeat law.
pub fn once_law()
    ensures { OnceLaw }
{}
