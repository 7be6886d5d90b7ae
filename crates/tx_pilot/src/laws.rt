//! What holds of scripts, as contracts of functions that do nothing.

ghost use Rattle.tx_pilot.specs.Laws.{LinesAreRead, ScriptsAreRead};

/// A line is read exactly where it spells something, and refused for the first rule that it breaks,
/// which is only one.
pub fn lines_are_read()
    ensures { LinesAreRead }
{}

/// So is a script.
pub fn scripts_are_read()
    ensures { ScriptsAreRead }
{}
