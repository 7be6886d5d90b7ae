use super::inputs::{key_of, number_of};
use super::planted::TREE;
use crate::{action_on, is_enabled};
use std::alloc::Global;
use std::test::Fail;
use tx_expect::each_line;
use tx_test_kit::tree_of;
use tx_tree::{NodeId, Row};

/// Whether a binding with priority is asked for, by the word for it.
fn priority_of(word: &str) -> Result<bool, Fail> {
    match word {
        "priority" => Ok(true),
        "plain" => Ok(false),
        _ => Err(Fail::from("priority or plain")),
    }
}

/// The action that a row has on a key.
fn bound(alloc: Global, row: &Row, key: &str, priority: &str) -> Result<String, Fail> {
    let key = key_of(key)?;
    let priority = priority_of(priority)?;
    match action_on(row.binds.as_slice(), key, priority) {
        Some(action) => Ok(format!(in alloc; "{action:?}")?),
        None => Ok(String::from_str(alloc, "none")?),
    }
}

/// The action of the row, the key and the priority of a line.
fn bound_in(alloc: Global, line: &str) -> Result<String, Fail> {
    let (number, words) = line.split_once(' ').ok_or("a row")?;
    let (key, priority) = words.split_once(' ').ok_or("a key")?;
    let tree = tree_of(alloc, TREE)?;
    let node = NodeId(number_of(number)?);
    let row = tree.row(node).ok_or("no row")?;
    bound(alloc, row, key, priority)
}

/// Whether the row of a word is enabled.
fn enabled_in(alloc: Global, word: &str) -> Result<String, Fail> {
    let tree = tree_of(alloc, TREE)?;
    let node = NodeId(number_of(word)?);
    let row = tree.row(node).ok_or("no row")?;
    let told = if is_enabled(&tree, row) {
        "enabled"
    } else {
        "disabled"
    };
    Ok(String::from_str(alloc, told)?)
}

#[test]
fn the_first_binding_counts(rt: HostRuntime) -> Result<(), Fail> {
    let alloc = rt.alloc();
    let table = "1 f1 priority => ToggleDark
1 f1 plain => none
1 f2 plain => ToggleDark
1 f2 priority => none
3 f5 plain => Scroll(Up)
3 f5 priority => Scroll(Home)
3 f6 plain => Scroll(Home)
3 f6 priority => none
3 f3 priority => FocusPrevious
3 enter plain => none
6 f2 plain => Scroll(PageDown)
4 f5 plain => none";
    each_line(table, |line| bound_in(alloc, line))
}

#[test]
fn rows_are_enabled(rt: HostRuntime) -> Result<(), Fail> {
    let alloc = rt.alloc();
    let table = "1 => enabled
3 => enabled
5 => disabled
6 => disabled
7 => enabled";
    each_line(table, |word| enabled_in(alloc, word))
}
