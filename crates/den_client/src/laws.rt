//! Laws of the definitions.
ghost use Rattle.den_client.specs.Laws.{ReadsGiveValues};

/// Of the pairs that a read of keys finds each key is given its value in the map, also where it is asked for twice.
pub fn reads_give_values()
    ensures { ReadsGiveValues }
{}
