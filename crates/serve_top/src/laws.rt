// Laws of the definitions, which no code runs.
ghost use Rattle.std.specs.Prelude.{map, string_bytes};
ghost use Rattle.serve_top.specs.Laws.{FindsWhatIsSaid, IsServingSaidOnlySo};

/// What clap finds in the words is what the grammar says that they say.
pub fn words_law(words: &[String])
    ensures { FindsWhatIsSaid (map string_bytes words.now) }
{}

/// The grammar says what it does exactly of the words that are spelled so.
pub fn spelling_law(words: &[String])
    ensures { IsServingSaidOnlySo (map string_bytes words.now) }
{}
