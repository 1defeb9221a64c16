//! Laws of the definitions, each the contract of a function that does nothing.
ghost use Rattle.den_proto.specs.Laws.{CodesAreOneToOne, HintsAreRead, IdsAreNumerals, IdsAreRead, NumbersHaveCodes, ResponsesComeBack};

/// The codes of messages and of values are the same, one to one.
pub fn codes_are_one_to_one()
    ensures { CodesAreOneToOne }
{}

/// A number has a code exactly from 0 to 22, and each code's number has that code.
pub fn numbers_have_codes()
    ensures { NumbersHaveCodes }
{}

/// A text is an id exactly where, after one plus at most, it is one or more digits whose number is below 2^32.
pub fn ids_are_numerals()
    ensures { IdsAreNumerals }
{}

/// An id that is written is read.
pub fn ids_are_read()
    ensures { IdsAreRead }
{}

/// A leader that is told as texts is read.
pub fn hints_are_read()
    ensures { HintsAreRead }
{}

/// An answer that was made a message is the answer again.
pub fn responses_come_back()
    ensures { ResponsesComeBack }
{}
