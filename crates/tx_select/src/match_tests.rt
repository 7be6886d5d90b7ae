use crate::{Pseudo, Selector, matches, query, query_one, read_selector};
use std::alloc::Global;
use std::test::Fail;
use tx_expect::{each_line, expect};
use tx_io::{Counted, Steps};
use tx_tree::{Kind, Name, Names, NewRow, NodeId, Tree};

/// Mounts the row of a line: the number of its parent, its kind, its id and its class, each with a
/// space behind it but the last. `-` is no name. A row of the class `off` is disabled.
fn mount_line(alloc: Global, tree: &mut Tree, line: &str) -> Result<(), Fail> {
    let (parent, row) = line.split_once(' ').ok_or("a parent")?;
    let (kind, names) = row.split_once(' ').ok_or("a kind")?;
    let (id, class) = names.split_once(' ').ok_or("an id")?;
    let kind = match Kind::named(kind) {
        Some(kind) => kind,
        None => Kind::Handed(Name::of(kind).ok_or("a name")?),
    };
    let mut row = NewRow::of(alloc, kind);
    row.id = Name::of(id);
    row.disabled = class == "off";
    if let Some(class) = Name::of(class) {
        row.classes = Names::of(Vec::from_slice(alloc, &[class])?);
    }
    let number = parent.parse::<u32>().ok().ok_or("a number")?;
    tree.mount(NodeId(number), row)?;
    Ok(())
}

/// A Screen with the rows of these lines.
fn planted(alloc: Global, lines: &str) -> Result<Tree, Fail> {
    let mut tree = Tree::of_screen(alloc, NewRow::of(alloc, Kind::Screen))?;
    for line in lines.lines() {
        mount_line(alloc, &mut tree, line)?;
    }
    Ok(tree)
}

/// The nodes that match when each is asked, which takes one tick a node.
fn matched(
    alloc: Global,
    tree: &Tree,
    pseudo: &Pseudo,
    selector: &Selector,
) -> Result<Vec<NodeId>, Fail> {
    let mut nodes = Vec::new(alloc);
    let mut steps = Steps {
        ledger: Counted::default(),
    };
    for i in 0..tree.made() {
        let node = NodeId(i + 1);
        if tree.row(node).is_some() && matches(tree, pseudo, node, selector, &mut steps) {
            nodes.push(node)?;
        }
    }
    expect(steps.ledger.tests == u64::from(tree.made()), "the ticks")?;
    Ok(nodes)
}

/// The numbers of these nodes, with spaces between.
fn numbers(alloc: Global, nodes: &[NodeId]) -> Result<String, Fail> {
    let mut text = String::new(alloc);
    for node in nodes {
        if !text.is_empty() {
            text.push_str(" ")?;
        }
        let number = format!(in alloc; "{}", node.0)?;
        text.push_str(number.as_str())?;
    }
    Ok(text)
}

/// What a selector finds, by each of the three calls.
fn found(alloc: Global, tree: &Tree, pseudo: &Pseudo, text: &str) -> Result<String, Fail> {
    if text.len() >= 1000 {
        return Err(Fail::from("a long text"));
    }
    let Ok(selector) = read_selector(alloc, text) else {
        return Err(Fail::from("refused"));
    };
    let nodes = query(alloc, tree, pseudo, &selector)?;
    let first = query_one(tree, pseudo, &selector);
    expect(first == nodes.as_slice().first().copied(), "the first")?;
    let each = matched(alloc, tree, pseudo, &selector)?;
    expect(each.as_slice() == nodes.as_slice(), "one by one")?;
    numbers(alloc, nodes.as_slice())
}

/// A pane with a focused Button, over whose Container the pointer is, in the dark.
fn in_the_pane(alloc: Global, text: &str) -> Result<String, Fail> {
    let tree = planted(
        alloc,
        "\
1 Container p pane
2 Container q -
3 Button b -
2 Static n -",
    )?;
    let pseudo = Pseudo {
        focused: Some(NodeId(4)),
        pointed: Some(NodeId(3)),
        dark: true,
    };
    found(alloc, &tree, &pseudo, text)
}

#[test]
fn a_pane_is_matched(rt: HostRuntime) -> Result<(), Fail> {
    let alloc = rt.alloc();
    each_line(
        "\
#p Widget => 3 4 5
#p > Widget => 3 5
#p => 2
#p.pane => 2
.pane Button => 4
Button.pane => \n\
Screen => 1
* => 1 2 3 4 5
* * => 2 3 4 5
* > * > * => 3 4 5
Container => 2 3
Container Container => 3
Container > Button => 4
#p > Button => \n\
#q Static => \n\
#q #q => \n\
Screen > #p > #q > Button => 4
Screen > #q => \n\
:focus => 4
:blur => 1 2 3 5
:focus-within => 1 2 3 4
:focus-within > :blur => 2 3 5
:hover => 1 2 3
:hover > :focus => 4
Static:hover => \n\
:hover Static => 5
:dark => 1 2 3 4 5
:light => \n\
:first-child => 2 3 4
:last-child => 2 4 5
:first-child:last-child => 2 4
Static:first-child => \n\
Screen:first-child => \n\
Screen:last-child => \n\
:enabled => 1 2 3 4 5
:disabled => \n\
* * * * * * * * * * * * * * * * => ",
        |text| in_the_pane(alloc, text),
    )
}

/// Nested rows of two classes, and a disabled Container, in the light.
fn among_classes(alloc: Global, text: &str) -> Result<String, Fail> {
    let tree = planted(
        alloc,
        "\
1 Container - a
2 Container - b
3 Container - b
4 Static c c
1 Container - off
6 Button - -
6 Label - -
1 Meter m -
1 Checkbox - -",
    )?;
    let pseudo = Pseudo {
        focused: None,
        pointed: None,
        dark: false,
    };
    found(alloc, &tree, &pseudo, text)
}

#[test]
fn joins_take_a_second_try(rt: HostRuntime) -> Result<(), Fail> {
    let alloc = rt.alloc();
    each_line(
        "\
.a > .b .c => 5
.a .b > .c => 5
.a > .b > .c => \n\
.a > .b > .b > .c => 5
.a > .c => \n\
.b .b .c => 5
.b .b .b .c => \n\
.b .b => 4
Screen > .a .b:first-child > .c => 5
:disabled => 6 7 8
:enabled => 1 2 3 4 5 9 10
.off > Button:disabled => 7
Button:enabled => \n\
:focus => \n\
:blur => 1 2 3 4 5 6 7 8 9 10
:focus-within => \n\
:hover => \n\
:light => 1 2 3 4 5 6 7 8 9 10
:dark => \n\
:first-child => 2 3 4 5 7
:last-child => 3 4 5 8 10
Label:first-child => \n\
Checkbox:first-child => \n\
Button:last-child => \n\
.d => \n\
#c => 5
#d => ",
        |text| among_classes(alloc, text),
    )
}

/// A row of each kind.
fn among_kinds(alloc: Global, text: &str) -> Result<String, Fail> {
    let tree = planted(
        alloc,
        "\
1 Container - -
1 Vertical - -
1 Horizontal - -
1 Grid - -
1 VerticalScroll - -
1 Static - -
1 Label - -
1 Button - -
1 Checkbox - -
1 Input - -
1 OptionList - -
1 ProgressBar - -
1 Header - -
1 Footer - -
1 Meter - -",
    )?;
    let pseudo = Pseudo {
        focused: None,
        pointed: Some(NodeId(1)),
        dark: false,
    };
    found(alloc, &tree, &pseudo, text)
}

#[test]
fn kinds_are_called_by_their_bases(rt: HostRuntime) -> Result<(), Fail> {
    let alloc = rt.alloc();
    each_line(
        "\
Widget => 1 2 3 4 5 6 7 8 9 10 11 12 13 14 15 16
Screen => 1
Container => 2
Vertical => 3
Horizontal => 4
Grid => 5
VerticalScroll => 6
Static => 7 8
Label => 8
Button => 9
Checkbox => 10
Input => 11
OptionList => 12
ProgressBar => 13
Header => 14
Footer => 15
Custom => 16
Meter => 16
Meters => \n\
widget => \n\
:hover => 1",
        |text| among_kinds(alloc, text),
    )
}
