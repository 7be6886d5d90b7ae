//! To whom an input goes.

ghost use Rattle.std.specs.Prelude.{◌≡◌, option_copied, IsOk, IfOk};
ghost use Rattle.tx_route.specs.Deliveries.{IsAlone, AreThere, IsThere};
ghost use Rattle.tx_route.specs.Routing.{IsMeant, target_of, other_of, delivered, AreDelivered};

use crate::changing::{advanced, edited, mounted, moved, removed};
use crate::deliveries::Deliveries;
use crate::input::Input;
use crate::pointing::{at_cell, at_target};
use crate::pressing::pressed;
use tx_select::{Pseudo, Selector, query_one};
use tx_text::NoMemory;
use tx_tree::{NodeId, Tree};
use tx_widgets::Sight;

/// The selector of the row that an input means, if it has one.
fn target_of(input: &Input) -> Option<&Selector>
    ensures { option_copied result ≡ target_of input.now }
{
    match input {
        Input::Click(target)
        | Input::Hover(target)
        | Input::AddClass { target, .. }
        | Input::RemoveClass { target, .. }
        | Input::SetText { target, .. }
        | Input::SetInline { target, .. }
        | Input::Disable(target)
        | Input::Enable(target)
        | Input::Mount { target, .. }
        | Input::Remove(target)
        | Input::Before { target, .. }
        | Input::Advance { target, .. } => Some(target),
        _ => None,
    }
}

/// The selector of the second row that an input means, if it has one.
fn other_of(input: &Input) -> Option<&Selector>
    ensures { option_copied result ≡ other_of input.now }
{
    match input {
        Input::Before { other, .. } => Some(other),
        _ => None,
    }
}

/// The first row that a selector matches, if there is one.
fn meant_by(tree: &Tree, pseudo: &Pseudo, selector: Option<&Selector>) -> Option<NodeId>
    ensures meant { IsMeant pseudo.now tree.now.rows (option_copied selector.entry) result }
    ensures there { IsThere tree.now.rows result }
{
    match selector {
        Some(selector) => query_one(tree, pseudo, selector),
        None => None,
    }
}

/// What an input comes to, where its selectors mean these rows.
#[tactic(auto, unfolding(crate::specs::Routing::delivered))]
fn delivered<S: Sight>(
    tree: &Tree,
    focused: Option<NodeId>,
    sight: &S,
    input: &Input,
    target: Option<NodeId>,
    other: Option<NodeId>,
) -> Deliveries
    ensures { result ≡ delivered tree.now focused (S.frame sight.now) input.now target other }
{
    match input {
        Input::Press(key) => pressed(tree, focused, *key),
        Input::ClickAt { x, y } => at_cell(tree, sight, true, *x, *y),
        Input::Click(_) => at_target(tree, sight, true, target),
        Input::HoverAt { x, y } => at_cell(tree, sight, false, *x, *y),
        Input::Hover(_) => at_target(tree, sight, false, target),
        Input::Pause => Deliveries::nothing(),
        Input::Resize(_) => Deliveries::nothing(),
        Input::AddClass { .. } => edited(tree, target),
        Input::RemoveClass { .. } => edited(tree, target),
        Input::SetText { .. } => edited(tree, target),
        Input::SetInline { .. } => edited(tree, target),
        Input::Disable(_) => edited(tree, target),
        Input::Enable(_) => edited(tree, target),
        Input::Mount { row, .. } => mounted(tree, target, row),
        Input::Remove(_) => removed(tree, target),
        Input::Before { .. } => moved(tree, target, other),
        Input::Advance { by, .. } => advanced(target, *by),
        Input::Theme { .. } => Deliveries::nothing(),
    }
}

/// To whom an input goes, and what it does there, in a tree of which a frame is shown.
///
/// - A key goes to the focused row, or to the Screen where none is focused. Before that, the first
///   row on the path from the Screen down to there that has a priority binding on it, disabled or
///   not, applies its action.
/// - A click or the pointer at a place points at the row that owns the cell: OffScreen where there
///   is no such row, and NoTarget where it is gone. A click goes to that row, if it is enabled, with
///   its place counted from the corner of the row's region. At a row it is NoTarget where none
///   matches, NotShown where the frame has no cell of it, and else as at a cell that the row owns.
/// - A change of the tree is NoTarget where no row matches, and else missed for what the tree
///   refuses it for, in the tree's order. Whether an object was handed in isn't judged here.
/// - Work that is done goes to the row that matches.
/// - A pause, a size and a theme go to no row.
///
/// The selectors of an input mean the rows that they match first. The focused row, where there is
/// one, is in the tree. It takes no memory, and never answers that there is none.
pub fn route<S: Sight>(
    tree: &Tree,
    pseudo: &Pseudo,
    sight: &S,
    input: &Input,
) -> Result<Deliveries, NoMemory>
    requires focus { IsThere tree.now.rows pseudo.now.focused }
    ensures deliveries { IfOk result (λ deliveries. AreDelivered tree.now pseudo.now (S.frame sight.now) input.now deliveries) }
    ensures alone { IfOk result IsAlone }
    ensures there { IfOk result (AreThere tree.now.rows) }
    ensures always { IsOk result }
{
    let target = meant_by(tree, pseudo, target_of(input));
    let other = meant_by(tree, pseudo, other_of(input));
    Ok(delivered(tree, pseudo.focused, sight, input, target, other))
}
