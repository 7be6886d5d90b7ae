use super::inputs::{input_of, number_of};
use super::panes::{Pane, Panes};
use super::planted::{ALL, TREE};
use crate::{Deliveries, Input, route};
use std::alloc::Global;
use std::test::Fail;
use tx_expect::each_line;
use tx_select::Pseudo;
use tx_test_kit::tree_of;
use tx_tree::{Action, NodeId, Tree};

/// Adds a part to a text, with a space before it where it isn't the first.
fn add(text: &mut String, part: &str) -> Result<(), Fail> {
    if !text.is_empty() {
        text.push_str(" ")?;
    }
    text.push_str(part)?;
    Ok(())
}

/// What of the deliveries there is.
fn told(
    alloc: Global,
    deliveries: &Deliveries,
    action: Option<(NodeId, Action)>,
) -> Result<String, Fail> {
    let mut text = String::new(alloc);
    if let Some(why) = deliveries.missed {
        add(&mut text, format!(in alloc; "missed {why:?}")?.as_str())?;
    }
    if let Some(node) = deliveries.pointed {
        add(&mut text, format!(in alloc; "pointed {}", node.0)?.as_str())?;
    }
    if let Some((node, action)) = action {
        add(
            &mut text,
            format!(in alloc; "action {} {action:?}", node.0)?.as_str(),
        )?;
    }
    if let Some((node, message)) = deliveries.put {
        add(
            &mut text,
            format!(in alloc; "put {} {message:?}", node.0)?.as_str(),
        )?;
    }
    if let Some(node) = deliveries.target {
        add(&mut text, format!(in alloc; "target {}", node.0)?.as_str())?;
    }
    if let Some(node) = deliveries.other {
        add(&mut text, format!(in alloc; "other {}", node.0)?.as_str())?;
    }
    Ok(text)
}

/// The deliveries of an input where a row has the focus, or none for 0.
fn routed(tree: &Tree, focused: u32, panes: &[Pane], input: &Input) -> Result<Deliveries, Fail> {
    let mut pseudo = Pseudo {
        focused: None,
        pointed: None,
        dark: true,
    };
    let sight = Panes { panes };
    if focused == 0 {
        return Ok(route(tree, &pseudo, &sight, input)?);
    }
    let node = NodeId(focused);
    if tree.row(node).is_none() {
        return Err(Fail::from("a row"));
    }
    pseudo.focused = Some(node);
    Ok(route(tree, &pseudo, &sight, input)?)
}

/// What the input of a line comes to in a tree; before it stands the focused row, or 0.
fn told_in(alloc: Global, tree: &str, panes: &[Pane], line: &str) -> Result<String, Fail> {
    let (focused, line) = line.split_once(' ').ok_or("a row")?;
    let tree = tree_of(alloc, tree)?;
    let input = input_of(alloc, line)?;
    let deliveries = routed(&tree, number_of(focused)?, panes, &input)?;
    let action = deliveries.action;
    told(alloc, &deliveries, action)
}

/// The same in the tree of the tests.
fn told_of(alloc: Global, panes: &[Pane], line: &str) -> Result<String, Fail> {
    told_in(alloc, TREE, panes, line)
}

const KEYS: &str = "0 press a => put 1 Key(Char('a'))
0 press f1 => action 1 ToggleDark
0 press f2 => put 1 Key(Function(2))
0 press f3 => put 1 Key(Function(3))
3 press enter => put 3 Key(Enter)
3 press f1 => action 1 ToggleDark
3 press f2 => put 3 Key(Function(2))
3 press f3 => action 2 FocusNext
3 press f4 => put 3 Key(Function(4))
3 press f5 => action 3 Scroll(Home)
3 press f6 => put 3 Key(Function(6))
3 press f7 => put 3 Key(Function(7))
4 press f3 => action 2 FocusNext
4 press f5 => put 4 Key(Function(5))
6 press f2 => put 6 Key(Function(2))
6 press f7 => action 5 Scroll(PageUp)
8 press a => put 8 Key(Char('a'))";

const PLACES: &str = "0 click 2 1 => pointed 3 put 3 Click { x: 0, y: 0 }
0 click 7 2 => pointed 3 put 3 Click { x: 5, y: 1 }
0 click 8 1 => pointed 2 put 2 Click { x: 8, y: 1 }
4 click 10 1 => pointed 4 put 4 Click { x: 0, y: 0 }
0 click 15 2 => pointed 2 put 2 Click { x: 15, y: 2 }
0 click 3 4 => pointed 6
0 click 0 4 => pointed 5
0 click 12 3 => pointed 8 put 8 Click { x: 0, y: 0 }
0 click 15 4 => pointed 8 put 8 Click { x: 3, y: 1 }
0 click 19 5 => pointed 1 put 1 Click { x: 19, y: 5 }
0 click 18 0 => missed NoTarget
0 click 20 0 => missed OffScreen
0 click 0 6 => missed OffScreen
0 hover 3 2 => pointed 3
0 hover 3 4 => pointed 6
0 hover 19 0 => missed NoTarget
0 hover 4294967295 4294967295 => missed OffScreen
0 click #go => pointed 3 put 3 Click { x: 0, y: 0 } target 3
0 click Button => pointed 3 put 3 Click { x: 0, y: 0 } target 3
0 click #text => pointed 9 put 9 Click { x: 1, y: 0 } target 9
0 click #no => pointed 6 target 6
0 click Screen => pointed 1 put 1 Click { x: 16, y: 0 } target 1
0 click #list => missed NotShown
0 click #hidden => missed NotShown
0 click #none => missed NoTarget
4 hover :focus => pointed 4 target 4
0 hover :focus => missed NoTarget
0 hover #hidden => missed NotShown";

const CHANGES: &str = "0 class #go,on => target 3
0 class #none,on => missed NoTarget
0 unclass Button,on => target 3
0 text #hidden,a => target 10
0 style #no,color: red; => target 6
0 disable Screen => target 1
0 enable #off => target 5
0 enable #none => missed NoTarget
0 mount #box,Button => target 2
0 mount #box,Button go => missed DuplicateId
0 mount #go,Button go => missed Leaf
0 mount Screen,Screen => missed Leaf
0 mount #none,Screen => missed NoTarget
0 mount #list,Knob => target 7
0 remove #box => target 2
0 remove Screen => missed Root
0 remove #none => missed NoTarget
0 before #name,#go => target 4 other 3
0 before #go,#name => target 3 other 4
0 before #text,#box => target 9 other 2
0 before #go,#go => missed NotSiblings
0 before #go,#no => missed NotSiblings
0 before #go,#box => missed NotSiblings
0 before Screen,Screen => missed NotSiblings
0 before #go,#none => missed NoTarget
0 before #none,#go => missed NoTarget
0 advance #go,7 => put 3 Advance(7) target 3
0 advance #no,0 => put 6 Advance(0) target 6
0 advance #none,7 => missed NoTarget
3 pause => 
3 resize => 
3 dark => ";

#[test]
fn keys_are_delivered(rt: HostRuntime) -> Result<(), Fail> {
    let alloc = rt.alloc();
    each_line(KEYS, |line| told_of(alloc, &ALL, line))
}

#[test]
fn clicks_are_delivered(rt: HostRuntime) -> Result<(), Fail> {
    let alloc = rt.alloc();
    each_line(PLACES, |line| told_of(alloc, &ALL, line))
}

#[test]
fn changes_are_delivered(rt: HostRuntime) -> Result<(), Fail> {
    let alloc = rt.alloc();
    each_line(CHANGES, |line| told_of(alloc, &ALL, line))
}

#[test]
fn without_a_frame_nothing_is_pointed_at(rt: HostRuntime) -> Result<(), Fail> {
    let alloc = rt.alloc();
    let table = "0 click 0 0 => missed OffScreen
0 hover #go => missed NotShown
0 hover #none => missed NoTarget
3 press f3 => action 2 FocusNext";
    each_line(table, |line| told_of(alloc, &[], line))
}

/// A tree of one row in each depth, down to the deepest, and the Screen's second child behind them. The
/// rows of the depths 62 and 63 have ids.
fn deep(alloc: Global) -> Result<String, Fail> {
    let mut text = String::from_str(alloc, "Screen\n")?;
    for depth in 1u32..64 {
        for _ in 0..depth {
            text.push_str("  ")?;
        }
        text.push_str(match depth {
            62 => "Container #low\n",
            63 => "Container #lowest disabled\n",
            _ => "Container\n",
        })?;
    }
    text.push_str("  Button #last\n")?;
    Ok(text)
}

/// What the input of a line comes to in that tree, of which no frame is shown.
fn told_deep(alloc: Global, line: &str) -> Result<String, Fail> {
    let tree = deep(alloc)?;
    told_in(alloc, tree.as_str(), &[], line)
}

#[test]
fn deep_rows_are_reached(rt: HostRuntime) -> Result<(), Fail> {
    let alloc = rt.alloc();
    let table = "0 mount #low,Button a => target 63
0 mount #lowest,Button a => missed TooDeep
0 mount #lowest,Button last => missed TooDeep
0 mount #lowest,Screen => missed Leaf
0 mount #low,Button last => missed DuplicateId
0 remove #lowest => target 64
0 before #last,#low => missed NotSiblings
64 press a => put 64 Key(Char('a'))";
    each_line(table, |line| told_deep(alloc, line))
}
