//! What holds of the definitions.
ghost use Rattle.tx_lex.specs.IsLexed.{LexedIsExact};

/// What is read as tokens is what the table of tokens says, and nothing else is: each token is the
/// longest one of all kinds at its place, they follow each other from the first byte on, and they
/// end with the last byte or at the first fault.
pub fn tokens_are_the_longest()
    ensures { LexedIsExact }
{}
