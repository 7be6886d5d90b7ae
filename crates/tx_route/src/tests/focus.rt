use super::inputs::number_of;
use super::panes::{Pane, Panes};
use super::planted::{ALL, ONE, THREE, TREE};
use crate::focus_after;
use std::alloc::Global;
use std::test::Fail;
use tx_expect::each_line;
use tx_select::Pseudo;
use tx_test_kit::tree_of;
use tx_tree::{NodeId, Tree};

/// The rows that come next and before, where a row has the focus, or none for 0.
fn steps_in(alloc: Global, tree: &Tree, panes: &[Pane], word: &str) -> Result<String, Fail> {
    let number = number_of(word)?;
    let pseudo = Pseudo {
        focused: if number == 0 {
            None
        } else {
            Some(NodeId(number))
        },
        pointed: None,
        dark: true,
    };
    let sight = Panes { panes };
    let next = focus_after(tree, &pseudo, &sight, false);
    let before = focus_after(tree, &pseudo, &sight, true);
    match (next, before) {
        (Some(next), Some(before)) => { Ok(format!(in alloc; "{} {}", next.0, before.0)?) }
        (None, None) => Ok(String::from_str(alloc, "none")?),
        _ => Err(Fail::from("one alone")),
    }
}

fn told_of(alloc: Global, panes: &[Pane], word: &str) -> Result<String, Fail> {
    let tree = tree_of(alloc, TREE)?;
    steps_in(alloc, &tree, panes, word)
}

/// The same where #name stands before #go.
fn told_moved(alloc: Global, word: &str) -> Result<String, Fail> {
    let mut tree = tree_of(alloc, TREE)?;
    match tree.move_before(NodeId(4), NodeId(3)) {
        Ok(()) => steps_in(alloc, &tree, &THREE, word),
        Err(_) => Err(Fail::from("not moved")),
    }
}

#[test]
fn an_order_of_no_rows(rt: HostRuntime) -> Result<(), Fail> {
    let alloc = rt.alloc();
    each_line(
        "0 => none\n3 => none\n6 => none",
        |word| told_of(alloc, &[], word),
    )
}

#[test]
fn an_order_of_one_row(rt: HostRuntime) -> Result<(), Fail> {
    let alloc = rt.alloc();
    let table = "0 => 4 4\n4 => 4 4\n3 => 4 4\n8 => 4 4\n6 => 4 4";
    each_line(table, |word| told_of(alloc, &ONE, word))
}

#[test]
fn an_order_of_three_rows(rt: HostRuntime) -> Result<(), Fail> {
    let alloc = rt.alloc();
    let table =
        "0 => 3 8\n3 => 4 8\n4 => 8 3\n8 => 3 4\n1 => 3 8\n6 => 3 8\n7 => 3 8\n10 => 3 8\n99 => 3 8";
    each_line(table, |word| told_of(alloc, &THREE, word))
}

#[test]
fn an_order_with_a_row_below_another(rt: HostRuntime) -> Result<(), Fail> {
    let alloc = rt.alloc();
    let table = "0 => 3 8\n3 => 4 8\n4 => 7 3\n7 => 8 4\n8 => 3 7";
    each_line(table, |word| told_of(alloc, &ALL, word))
}

#[test]
fn an_order_of_rows_that_were_moved(rt: HostRuntime) -> Result<(), Fail> {
    let alloc = rt.alloc();
    each_line(
        "0 => 4 8\n4 => 3 8\n3 => 8 4\n8 => 4 3\n5 => 4 8",
        |word| told_moved(alloc, word),
    )
}
