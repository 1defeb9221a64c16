//! The law of the word, the contract of a function that does nothing.
ghost use Rattle.den_model.specs.Laws.{WordsAreRead};
ghost use Rattle.den_lease.specs.Words.{leases_in, leases_word, FitsLeases};

/// Bytes are read as a table of leases exactly where they are its word.
pub fn lease_words_are_read()
    ensures { WordsAreRead leases_in FitsLeases leases_word }
{}
