//! Changes of the tree, and work that is done.

ghost use Rattle.std.specs.Prelude.{◌≡◌, Option, Some};
ghost use Rattle.tx_tree.specs.Edits.{edit_refusal, remove_refusal, move_refusal};
ghost use Rattle.tx_tree.specs.Mount.{mount_refusal};
ghost use Rattle.tx_tree.specs.Refusal.{AnswersAtOnce};
ghost use Rattle.tx_tree.specs.declared.fault.TreeFault.{TreeFault as Refused};
ghost use Rattle.tx_route.specs.Deliveries.{nothing};
ghost use Rattle.tx_route.specs.Changing.{why_of, unless_refused, changed, changed_both, advanced};

use crate::deliveries::{Deliveries, Why};
use crate::refusals::{may_edit, may_move, may_remove};
use tx_tree::{NewRow, NodeId, Tree, TreeFault};
use tx_widgets::Message;

/// Why an input is missed that a tree refuses.
fn why_of(fault: TreeFault) -> Option<Why>
    ensures { result ≡ why_of fault }
{
    match fault {
        TreeFault::Grammar { .. } => None,
        TreeFault::NoNode => Some(Why::NoTarget),
        TreeFault::DuplicateId => Some(Why::DuplicateId),
        TreeFault::TooMany => Some(Why::TooMany),
        TreeFault::TooDeep => Some(Why::TooDeep),
        TreeFault::Root => Some(Why::Root),
        TreeFault::Leaf => Some(Why::Leaf),
        TreeFault::NotSiblings => Some(Why::NotSiblings),
        TreeFault::NoMemory => None,
    }
}

/// These deliveries, unless the tree refuses.
fn unless_refused(answer: Result<(), TreeFault>, deliveries: Deliveries) -> Deliveries
    ensures { (refusal : Option Refused) → AnswersAtOnce refusal answer → result ≡ unless_refused refusal deliveries }
{
    match answer {
        Ok(()) => deliveries,
        Err(fault) => match why_of(fault) {
            Some(why) => Deliveries::missed_by(why),
            None => deliveries,
        },
    }
}

/// A row is meant.
fn meant(target: NodeId) -> Deliveries
    ensures { result ≡ record nothing { target = Some target } }
{
    Deliveries {
        target: Some(target),
        ..Deliveries::nothing()
    }
}

/// A change of a row's own parts.
pub fn edited(tree: &Tree, target: Option<NodeId>) -> Deliveries
    ensures { result ≡ changed (λ node. edit_refusal tree.now.rows node.0) target }
{
    match target {
        Some(node) => unless_refused(may_edit(tree, node), meant(node)),
        None => Deliveries::missed_by(Why::NoTarget),
    }
}

/// A new row below the one that is meant.
pub fn mounted(tree: &Tree, target: Option<NodeId>, row: &NewRow) -> Deliveries
    ensures { result ≡ changed (λ node. mount_refusal tree.now.rows tree.now.made node.0 row.now) target }
{
    match target {
        Some(node) => unless_refused(tree.may_mount(node, row), meant(node)),
        None => Deliveries::missed_by(Why::NoTarget),
    }
}

/// The row that is meant goes.
pub fn removed(tree: &Tree, target: Option<NodeId>) -> Deliveries
    ensures { result ≡ changed (λ node. remove_refusal tree.now.rows node.0) target }
{
    match target {
        Some(node) => unless_refused(may_remove(tree, node), meant(node)),
        None => Deliveries::missed_by(Why::NoTarget),
    }
}

/// The row that is meant is moved before another.
pub fn moved(tree: &Tree, target: Option<NodeId>, other: Option<NodeId>) -> Deliveries
    ensures { result ≡ changed_both (λ node before. move_refusal tree.now.rows node.0 before.0) target other }
{
    match (target, other) {
        (Some(node), Some(before)) => {
            let both = Deliveries {
                other: Some(before),
                ..meant(node)
            };
            unless_refused(may_move(tree, node, before), both)
        }
        _ => Deliveries::missed_by(Why::NoTarget),
    }
}

/// So much more is done of the work of the row that is meant.
pub fn advanced(target: Option<NodeId>, by: u32) -> Deliveries
    ensures { result ≡ advanced by target }
{
    match target {
        Some(node) => Deliveries {
            put: Some((node, Message::Advance(by))),
            ..meant(node)
        },
        None => Deliveries::missed_by(Why::NoTarget),
    }
}
