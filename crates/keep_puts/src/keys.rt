// Keys that no entry has.
ghost use Rattle.keep_puts.specs.Keys.{FreeKeys};

/// Amounts that may follow the entries of an index have keys that none of these has.
pub fn no_key_is_taken()
    ensures { FreeKeys }
{}
