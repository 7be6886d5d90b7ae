//! What holds of the bars of a container, however its children are arranged in a viewport: contracts
//! of functions that do nothing. They hold of the definition that [`crate::bars`] gives the answer of.

ghost use Rattle.tx_scroll.specs.Laws.{ShowsArrangement, NeverHidden, AlwaysScroll, AcrossWhereNeeded, DownWhereNeeded, VerticalFirst, NothingUnreached, FewTrials, DefinedWhereArranged};

/// What is shown is the arrangement in the viewport that the shown bars leave of the content area.
pub fn shows_the_arrangement_beside_the_bars()
    ensures { ShowsArrangement }
{}

/// A hidden axis never has a bar.
pub fn hidden_has_no_bar()
    ensures { NeverHidden }
{}

/// A scroll axis always has a bar.
pub fn scroll_has_a_bar()
    ensures { AlwaysScroll }
{}

/// Where the other axis isn't auto, an auto axis has a bar exactly where the trial without it doesn't
/// fit.
pub fn one_auto_has_a_bar_where_needed()
    ensures across { AcrossWhereNeeded }
    ensures down { DownWhereNeeded }
{}

/// Where both axes are auto, no bar is shown exactly where the trial without bars fits, both are shown
/// exactly where none of the other three trials fits, and the horizontal one alone only where the
/// vertical one alone doesn't fit.
pub fn vertical_comes_before_horizontal()
    ensures { VerticalFirst }
{}

/// In an auto axis without a bar nothing goes over.
pub fn nothing_goes_over_without_a_bar()
    ensures { NothingUnreached }
{}

/// At least one trial is made, and at most four.
pub fn few_trials_are_made()
    ensures { FewTrials }
{}

/// A container has its bars where its children are arranged beside whatever bars.
pub fn defined_where_arranged()
    ensures { DefinedWhereArranged }
{}
