//! Laws about the definitions, each the contract of a function that does nothing.

ghost use Rattle.tx_widgets.specs.Laws.{BarsReachTheirEnds, BoxesAreWhole, ChosenAreShown, CursorsAreShown, FieldsAreWhole, LinesAreWhole};
ghost use Rattle.tx_widgets.specs.ReactionLaws.{ReactionsAreModest};

/// A Checkbox that is as wide as it wants, where that number isn't cut, shows its first line whole.
pub fn boxes_are_whole()
    ensures law { BoxesAreWhole }
{}

/// An Input that is as wide as it wants, where that number isn't cut, shows its text whole.
pub fn inputs_are_whole()
    ensures law { FieldsAreWhole }
{}

/// A text of one line of a Static, Label, Button, Header or Footer that is as wide as it wants,
/// where that number isn't cut, is shown whole.
pub fn lines_are_whole()
    ensures law { LinesAreWhole }
{}

/// The cursor of an Input is in a column that is shown, where its content has one.
pub fn cursors_are_shown()
    ensures law { CursorsAreShown }
{}

/// The chosen line of an OptionList is in a row that is shown, where its content has one.
pub fn chosen_are_shown()
    ensures law { ChosenAreShown }
{}

/// A ProgressBar of which nothing is done is all thin, and one that is done is all thick.
pub fn bars_reach_their_ends()
    ensures law { BarsReachTheirEnds }
{}

/// A reaction has at most two effects, its private state is of the kind's form and suits its text,
/// and only the text of an Input changes, to at most the greater of 65,536 bytes and what it was.
pub fn reactions_are_modest()
    ensures law { ReactionsAreModest }
{}
