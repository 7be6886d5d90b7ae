//! What holds of the definitions.
ghost use Rattle.tx_select.specs.Laws.{SelectorsAreRead, SelectorsAreLocal, WholesAreRead, FaultsAreFirst};

/// A selector that stands among other tokens is read where it is in the grammar, and what is read
/// is in the grammar.
pub fn selectors_are_read()
    ensures { SelectorsAreRead }
{}

/// What is read of a selector that stands among other tokens, and a fault in it, depend on nothing
/// after the token at which the reading stops.
pub fn selectors_are_local()
    ensures { SelectorsAreLocal }
{}

/// A list of tokens is read exactly where the whole of it is a selector with spaces and comments
/// round it.
pub fn wholes_are_read()
    ensures { WholesAreRead }
{}

/// Where a fault is met at a token, no list that begins with the tokens up to and with that one is
/// in the grammar. Where it is met at the end, the list itself isn't.
pub fn faults_are_first()
    ensures { FaultsAreFirst }
{}
