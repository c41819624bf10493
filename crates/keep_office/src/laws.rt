// Laws of kept amounts, which no code runs.
ghost use Rattle.keep_office.specs.Laws.{HistoryLaw, KeysLaw, DayRowsLaw, StoredLaw};

/// The amounts of the days from one to another tell of each day among them what all amounts tell.
pub fn history_law()
    ensures { HistoryLaw }
{}

/// Rows in rising order have no key twice.
pub fn keys_law()
    ensures { KeysLaw }
{}

/// The rows of one day in the order of vehicles and expressways are in rising order.
pub fn day_rows_law()
    ensures { DayRowsLaw }
{}

/// What a day stores may be put.
pub fn stored_law()
    ensures { StoredLaw }
{}
