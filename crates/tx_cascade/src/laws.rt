//! What holds of the definitions.
ghost use Rattle.tx_cascade.specs.EditLaws.{NoEditLeads, EachEditLeads, EditsLeadOn};
ghost use Rattle.tx_cascade.specs.Laws.{ImportantWins, SpecificWins, LaterWins, NearerWins, AtMostOneGreatest, MatchersAgree, OneStyle, StylesAreThose, WinnersCount};
ghost use Rattle.tx_cascade.specs.SheetOrder.{SheetReachesRows, SheetsAreOrdered};
ghost use Rattle.tx_cascade.specs.TreeEditLaws.{NothingNamed, TreeEditsLead};
ghost use Rattle.tx_cascade.specs.ValueLaws.{ValuesAreThose, SomeWins};

use tx_value::laws::styles_are_values;

/// An important declaration beats every one that isn't.
pub fn important_wins()
    ensures { ImportantWins }
{}

/// Of two declarations of the sheet, neither of them important, the one whose rule counts with the
/// higher specificity beats the other, and of equally specific ones the one that stands later.
pub fn specific_wins()
    ensures specific { SpecificWins }
    ensures later { LaterWins }
{}

/// Among declarations that are equally important a row's own beats one of the sheet or the default
/// sheet, and one of the sheet beats one of the default sheet.
pub fn nearer_wins()
    ensures { NearerWins }
{}

/// Of all declarations that reach a row at most one is beaten by no other.
pub fn at_most_one_is_greatest()
    ensures { AtMostOneGreatest }
{}

/// Which declarations of a sheet reach a row, and which of two of them beats the other, by the rules
/// that they stand in: how specific a rule counts at the row is that of its most specific selector
/// among those that match there.
pub fn sheets_are_ordered()
    ensures reach { SheetReachesRows }
    ensures order { SheetsAreOrdered }
{}

/// A declaration that reaches a row and beats all others of its property gives the row its value,
/// unless that is `initial`, or the property is `text-style`, to which the parent's marks are added.
pub fn winners_count()
    ensures { WinnersCount }
{
    styles_are_values();
}

/// What a row has of a property: the value of the winner; where that is `initial`, of the winner of
/// the default sheet; where nothing is left, the parent's value of an inherited property, and else
/// the initial value. The marks that are declared add up with the parent's. The Screen takes the
/// initial values for its parent's. Of a property of which some declaration reaches a row, one wins.
pub fn values_are_those()
    ensures values { ValuesAreThose }
    ensures some { SomeWins }
{
    styles_are_values();
}

/// A row has at most one style, and what [`crate::Styles`] has at a number is the style of the row
/// with that number.
pub fn one_style()
    ensures matchers { MatchersAgree }
    ensures one { OneStyle }
    ensures those { StylesAreThose }
{}

/// The edit that names a change of one row or of the pseudo state leads from what was before it to
/// what is after it, and edits that lead somewhere, followed by edits that lead on from there, lead
/// all the way.
pub fn edits_lead()
    ensures none { NoEditLeads }
    ensures each { EachEditLeads }
    ensures on { EditsLeadOn }
{}

/// Where a row is mounted, removed or moved, the edit that names it with its parent leads from the
/// rows of the tree before it to those after it. Where no edit leads from one tree to another,
/// nothing differs but the order and the repeats of classes.
pub fn tree_edits_lead()
    ensures each { TreeEditsLead }
    ensures none { NothingNamed }
{}
