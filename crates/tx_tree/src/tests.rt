//! Tests of trees.

use crate::{
    Action, Ancestors, Bind, Binds, Jump, Key, Kind, Name, Names, NewRow, NodeId, Private, Text,
    Tree, TreeFault, Walk,
};
use std::alloc::{AllocError, Global};
use std::test::Fail;
use tx_expect::{each_line, expect};

// A row of a kind with an id.
fn named(alloc: Global, kind: Kind, id: &str) -> NewRow {
    let mut row = NewRow::of(alloc, kind);
    row.id = Name::of(id);
    row
}

// The tree of a Screen alone.
fn screen(alloc: Global) -> Result<Tree, AllocError> {
    Tree::of_screen(alloc, NewRow::of(alloc, Kind::Screen))
}

// A Screen with two Statics, `a` and `b`.
fn two_statics(alloc: Global) -> Result<Tree, Fail> {
    let mut tree = screen(alloc)?;
    tree.mount(NodeId(1), named(alloc, Kind::Static, "a"))?;
    tree.mount(NodeId(1), named(alloc, Kind::Static, "b"))?;
    Ok(tree)
}

// What a test compares of a row.
#[derive(Clone, Copy, PartialEq)]
struct Seen {
    number: u32,
    depth: u32,
    disabled: bool,
}

fn plain_row(number: u32, depth: u32) -> Seen {
    Seen {
        number,
        depth,
        disabled: false,
    }
}

// What a test compares of all rows.
fn seen_of(alloc: Global, tree: &Tree) -> Result<Vec<Seen>, AllocError> {
    tree.walk()
        .map(|row| Seen {
            number: row.node.0,
            depth: row.depth,
            disabled: row.disabled,
        })
        .collect(alloc)
}

fn is_shaped(alloc: Global, tree: &Tree, wanted: &[Seen]) -> Result<bool, AllocError> {
    Ok(seen_of(alloc, tree)?.as_slice() == wanted)
}

#[test]
fn two_statics_change_places(rt: HostRuntime) -> Result<(), Fail> {
    let alloc = rt.alloc();
    let mut tree = two_statics(alloc)?;
    expect(tree.root() == NodeId(1), "the root")?;
    expect(tree.made() == 3, "the nodes made")?;
    tree.move_before(NodeId(3), NodeId(2))?;
    let moved = [plain_row(1, 0), plain_row(3, 1), plain_row(2, 1)];
    expect(is_shaped(alloc, &tree, &moved)?, "the rows")?;
    let children = tree.children(NodeId(1))?;
    let wanted = [NodeId(3), NodeId(2)];
    expect(children.as_slice() == wanted.as_slice(), "the children")?;
    expect(tree.parent(NodeId(2)) == Some(NodeId(1)), "a parent")?;
    expect(tree.parent(NodeId(1)).is_none(), "no parent")?;
    expect(tree.next(NodeId(2)).is_none(), "no next row")?;
    let rows = tree.rows()?;
    expect(rows.len() == 3, "the number of rows")?;
    let second = rows.get(1).ok_or("a row")?;
    expect(second.id == Name::of("b"), "the id of the second row")
}

// A Screen with the Container 2 and the Static 3. In the Container are the Container 4, in which is
// the Static 5, and the Static 6.
fn small_tree(alloc: Global) -> Result<Tree, Fail> {
    let mut tree = screen(alloc)?;
    for (parent, kind) in [
        (1, Kind::Container),
        (1, Kind::Static),
        (2, Kind::Container),
        (4, Kind::Static),
        (2, Kind::Static),
    ] {
        tree.mount(NodeId(parent), NewRow::of(alloc, kind))?;
    }
    Ok(tree)
}

// The numbers of the rows that a walk goes over.
fn walked(alloc: Global, walk: Walk<'_>) -> Result<Vec<u32>, AllocError> {
    walk.map(|row| row.node.0).collect(alloc)
}

fn climbed(alloc: Global, ancestors: Ancestors<'_>) -> Result<Vec<u32>, AllocError> {
    ancestors.map(|row| row.node.0).collect(alloc)
}

#[test]
fn a_small_tree_is_walked(rt: HostRuntime) -> Result<(), Fail> {
    let alloc = rt.alloc();
    let tree = small_tree(alloc)?;
    let all = walked(alloc, tree.walk())?;
    expect(all.as_slice() == [1, 2, 4, 5, 6, 3].as_slice(), "all rows")?;
    let below = walked(alloc, tree.subtree(NodeId(2)))?;
    expect(below.as_slice() == [2, 4, 5, 6].as_slice(), "a subtree")?;
    let last = walked(alloc, tree.subtree(NodeId(6)))?;
    expect(last.as_slice() == [6].as_slice(), "that of a last child")?;
    let none = walked(alloc, tree.subtree(NodeId(9)))?;
    expect(none.is_empty(), "that of no row")?;
    let up = climbed(alloc, tree.ancestors(NodeId(5)))?;
    expect(up.as_slice() == [4, 2, 1].as_slice(), "the ancestors")?;
    for node in [1, 9] {
        let none = climbed(alloc, tree.ancestors(NodeId(node)))?;
        expect(none.is_empty(), "no ancestors")?;
    }
    Ok(())
}

#[test]
fn a_row_has_neighbours(rt: HostRuntime) -> Result<(), Fail> {
    let tree = small_tree(rt.alloc())?;
    for (node, next, sibling, child) in [
        (1, 2, 0, 2),
        (2, 4, 3, 4),
        (3, 0, 0, 0),
        (4, 5, 6, 5),
        (5, 6, 0, 0),
        (6, 3, 0, 0),
        (9, 0, 0, 0),
    ] {
        let node = NodeId(node);
        expect(number_or_zero(tree.next(node)) == next, "the next row")?;
        expect(
            number_or_zero(tree.next_sibling(node)) == sibling,
            "the next sibling",
        )?;
        expect(
            number_or_zero(tree.first_child(node)) == child,
            "the first child",
        )?;
    }
    Ok(())
}

fn number_or_zero(node: Option<NodeId>) -> u32 {
    node.map_or(0, |node| node.0)
}

#[test]
fn a_number_is_used_once(rt: HostRuntime) -> Result<(), Fail> {
    let alloc = rt.alloc();
    let mut tree = two_statics(alloc)?;
    tree.remove(NodeId(3))?;
    let left = [plain_row(1, 0), plain_row(2, 1)];
    expect(is_shaped(alloc, &tree, &left)?, "the rows")?;
    expect(tree.row(NodeId(3)).is_none(), "no row")?;
    expect(
        tree.remove(NodeId(3)) == Err(TreeFault::NoNode),
        "removed twice",
    )?;
    let again = tree.mount(NodeId(1), named(alloc, Kind::Static, "b"))?;
    expect(again == NodeId(4), "a new number for an old id")
}

#[test]
fn calls_on_small_trees_are_refused(rt: HostRuntime) -> Result<(), Fail> {
    let alloc = rt.alloc();
    let mut tree = two_statics(alloc)?;
    for (node, before, fault) in [
        (3, 1, TreeFault::NotSiblings),
        (1, 1, TreeFault::NotSiblings),
        (3, 3, TreeFault::NotSiblings),
        (9, 9, TreeFault::NoNode),
        (3, 9, TreeFault::NoNode),
        (0, 3, TreeFault::NoNode),
    ] {
        let moved = tree.move_before(NodeId(node), NodeId(before));
        expect(moved == Err(fault), "a move")?;
    }
    expect(
        tree.remove(NodeId(1)) == Err(TreeFault::Root),
        "the root goes",
    )?;
    expect(
        tree.remove(NodeId(0)) == Err(TreeFault::NoNode),
        "nothing goes",
    )?;
    expect(
        tree.children(NodeId(9)).err() == Some(TreeFault::NoNode),
        "no children",
    )?;
    let rows = [plain_row(1, 0), plain_row(2, 1), plain_row(3, 1)];
    expect(is_shaped(alloc, &tree, &rows)?, "the rows stay")
}

#[test]
fn changes_of_no_row_are_refused(rt: HostRuntime) -> Result<(), Fail> {
    let alloc = rt.alloc();
    let mut tree = two_statics(alloc)?;
    let red = Name::of("red").ok_or("a name")?;
    let nine = NodeId(9);
    let gone = Err(TreeFault::NoNode);
    let text = Text::of(alloc, "")?;
    expect(tree.set_text(nine, text.copy()?) == gone, "text")?;
    expect(tree.set_inline(nine, text.copy()?) == gone, "inline text")?;
    expect(
        tree.set_state(nine, text, Private::Plain) == gone,
        "text and state",
    )?;
    expect(tree.set_disabled(nine, true) == gone, "disabled")?;
    expect(tree.reserve_classes(nine, 1) == gone, "room")?;
    expect(
        tree.add_class(nine, red) == Err(TreeFault::NoNode),
        "a class more",
    )?;
    expect(
        tree.remove_class(nine, &red) == Err(TreeFault::NoNode),
        "a class less",
    )
}

// Whether `mount` and `may_mount` refuse a row of this kind and id so.
fn mount_is_refused(
    alloc: Global,
    tree: &mut Tree,
    parent: NodeId,
    kind: Kind,
    id: &str,
    fault: TreeFault,
) -> Result<bool, Fail> {
    let row = named(alloc, kind, id);
    let judged = tree.may_mount(parent, &row) == Err(fault);
    Ok(judged && tree.mount(parent, row) == Err(fault))
}

// A Screen with the Label `a`, and a chain of Containers from node 3 at depth 1 down to node 65 at
// depth 63.
fn chain(alloc: Global) -> Result<Tree, Fail> {
    let mut tree = screen(alloc)?;
    let mut parent = tree.root();
    tree.mount(parent, named(alloc, Kind::Label, "a"))?;
    for _ in 0..63 {
        parent = tree.mount(parent, NewRow::of(alloc, Kind::Container))?;
    }
    Ok(tree)
}

#[test]
fn the_first_refusal_of_a_mount_comes(rt: HostRuntime) -> Result<(), Fail> {
    let alloc = rt.alloc();
    let mut tree = chain(alloc)?;
    for (parent, kind, id, fault) in [
        (99, Kind::Screen, "a", TreeFault::NoNode),
        (0, Kind::Static, "b", TreeFault::NoNode),
        (2, Kind::Static, "a", TreeFault::Leaf),
        (65, Kind::Screen, "a", TreeFault::Leaf),
        (65, Kind::Static, "a", TreeFault::TooDeep),
        (64, Kind::Static, "a", TreeFault::DuplicateId),
        (1, Kind::Static, "a", TreeFault::DuplicateId),
    ] {
        let parent = NodeId(parent);
        let refused = mount_is_refused(alloc, &mut tree, parent, kind, id, fault)?;
        expect(refused, "a mount")?;
    }
    expect(tree.made() == 65, "nothing is made")?;
    let row = named(alloc, Kind::Static, "b");
    expect(
        tree.may_mount(NodeId(64), &row) == Ok(()),
        "the deepest row",
    )?;
    expect(
        tree.mount(NodeId(64), row) == Ok(NodeId(66)),
        "it is mounted",
    )
}

#[test]
fn a_tree_makes_65536_nodes(rt: HostRuntime) -> Result<(), Fail> {
    let alloc = rt.alloc();
    let mut tree = chain(alloc)?;
    let root = tree.root();
    for _ in 65..65_536 {
        let node = tree.mount(root, NewRow::of(alloc, Kind::Static))?;
        tree.remove(node)?;
    }
    expect(tree.made() == 65_536, "all are made")?;
    for (parent, kind, id, fault) in [
        (99, Kind::Static, "a", TreeFault::NoNode),
        (2, Kind::Static, "a", TreeFault::Leaf),
        (65, Kind::Static, "a", TreeFault::TooDeep),
        (64, Kind::Static, "a", TreeFault::TooMany),
        (64, Kind::Static, "b", TreeFault::TooMany),
    ] {
        let parent = NodeId(parent);
        let refused = mount_is_refused(alloc, &mut tree, parent, kind, id, fault)?;
        expect(refused, "a mount")?;
    }
    Ok(())
}

#[test]
fn texts_and_states_change(rt: HostRuntime) -> Result<(), Fail> {
    let alloc = rt.alloc();
    let mut tree = two_statics(alloc)?;
    let node = NodeId(3);
    for (before, after) in [
        (Private::Plain, Private::Plain),
        (Private::Cursor(0), Private::Cursor(3)),
        (Private::On(true), Private::On(true)),
        (Private::Chosen(7), Private::Chosen(0)),
        (
            Private::Bar { done: 1, total: 2 },
            Private::Bar { done: 1, total: 2 },
        ),
    ] {
        tree.set_state(node, Text::of(alloc, "b")?, before)?;
        tree.set_text(node, Text::of(alloc, "a\u{e4}")?)?;
        let row = tree.row(node).ok_or("a row")?;
        expect(row.text.as_str() == "a\u{e4}", "the text")?;
        expect(row.private == after, "the state")?;
    }
    tree.set_inline(node, Text::of(alloc, "width: 1;")?)?;
    tree.set_disabled(node, true)?;
    let row = tree.row(node).ok_or("a row")?.copy()?;
    expect(row.inline.as_str() == "width: 1;", "the inline text")?;
    expect(row.disabled, "disabled")?;
    expect(row.id == Name::of("b") && row.depth == 1, "all else stays")
}

#[test]
fn classes_come_and_go(rt: HostRuntime) -> Result<(), Fail> {
    let alloc = rt.alloc();
    let mut tree = screen(alloc)?;
    let red = Name::of("red").ok_or("a name")?;
    let blue = Name::of("blue").ok_or("a name")?;
    let mut row = NewRow::of(alloc, Kind::Static);
    row.classes = Names::of(vec![in alloc; red, blue, red]?);
    let node = tree.mount(NodeId(1), row.copy()?)?;
    expect(tree.remove_class(node, &red) == Ok(true), "both go")?;
    expect(tree.remove_class(node, &red) == Ok(false), "none is left")?;
    tree.reserve_classes(node, 2)?;
    expect(tree.add_class(node, red) == Ok(true), "one comes")?;
    expect(tree.add_class(node, red) == Ok(false), "it is there")?;
    let classes = tree.row(node).ok_or("a row")?.classes.copy()?;
    expect(
        classes.as_slice() == [blue, red].as_slice(),
        "the classes in order",
    )
}

// A plain list of rows with a new one behind the subtree of `parent`.
fn list_mounted(
    alloc: Global,
    list: &[Seen],
    parent: u32,
    number: u32,
) -> Result<Vec<Seen>, AllocError> {
    let mut after = Vec::new(alloc);
    let mut open = None;
    for row in list {
        if let Some(above) = open
            && row.depth <= above
        {
            after.push(plain_row(number, above.saturating_add(1)))?;
            open = None;
        }
        if row.number == parent {
            open = Some(row.depth);
        }
        after.push(*row)?;
    }
    if let Some(above) = open {
        after.push(plain_row(number, above.saturating_add(1)))?;
    }
    Ok(after)
}

// A plain list parted into the subtree of a row and the rest.
fn list_parted(
    alloc: Global,
    list: &[Seen],
    number: u32,
) -> Result<(Vec<Seen>, Vec<Seen>), AllocError> {
    let mut subtree = Vec::new(alloc);
    let mut rest = Vec::new(alloc);
    let mut open = None;
    for row in list {
        if let Some(above) = open
            && row.depth <= above
        {
            open = None;
        }
        if row.number == number {
            open = Some(row.depth);
        }
        match open {
            Some(_) => subtree.push(*row)?,
            None => rest.push(*row)?,
        }
    }
    Ok((subtree, rest))
}

// A plain list with the subtree of a row directly before another.
fn list_moved(
    alloc: Global,
    list: &[Seen],
    number: u32,
    other: u32,
) -> Result<Vec<Seen>, AllocError> {
    let (subtree, rest) = list_parted(alloc, list, number)?;
    let mut after = Vec::new(alloc);
    for row in &rest {
        if row.number == other {
            after.extend_from_slice(subtree.as_slice())?;
        }
        after.push(*row)?;
    }
    Ok(after)
}

// A plain list with one row disabled.
fn list_disabled(list: &mut [Seen], number: u32) {
    for row in list {
        if row.number == number {
            row.disabled = true;
        }
    }
}

// The number of a row of a plain list, or else that of the Screen.
fn picked(list: &[Seen], at: u32) -> NodeId {
    let place = at as usize % list.len().max(1);
    NodeId(list.get(place).map_or(1, |row| row.number))
}

// A tree, a plain list of what its rows should be, and how many of the moves were no refusals.
#[derive(Drop)]
struct Beside {
    tree: Tree,
    list: Vec<Seen>,
    moves: u32,
}

impl Beside {
    fn mount(&mut self, alloc: Global, parent: NodeId) -> Result<(), Fail> {
        let node = self.tree.mount(parent, NewRow::of(alloc, Kind::Container))?;
        self.list = list_mounted(alloc, self.list.as_slice(), parent.0, node.0)?;
        Ok(())
    }

    fn remove(&mut self, alloc: Global, node: NodeId) -> Result<(), Fail> {
        if self.tree.remove(node).is_ok() {
            self.list = list_parted(alloc, self.list.as_slice(), node.0)?.1;
            return Ok(());
        }
        expect(node == self.tree.root(), "only the root stays")
    }

    fn disable(&mut self, node: NodeId) -> Result<(), Fail> {
        self.tree.set_disabled(node, true)?;
        list_disabled(self.list.as_mut_slice(), node.0);
        Ok(())
    }

    fn move_before(&mut self, alloc: Global, node: NodeId, other: NodeId) -> Result<(), Fail> {
        if self.tree.move_before(node, other).is_ok() {
            self.list = list_moved(alloc, self.list.as_slice(), node.0, other.0)?;
            self.moves = self.moves.saturating_add(1);
            return Ok(());
        }
        let apart = self.tree.parent(node) != self.tree.parent(other);
        expect(node == other || apart, "siblings move")
    }

    // One edit, by its number and two rows.
    fn step(&mut self, alloc: Global, step: u32, first: NodeId, other: NodeId) -> Result<(), Fail> {
        match step % 8 {
            0 => self.mount(alloc, first),
            1 | 2 => self.mount(alloc, NodeId(1)),
            3 => self.remove(alloc, first),
            4 => self.disable(first),
            _ => self.move_before(alloc, first, other),
        }
    }
}

#[test]
fn edits_beside_a_plain_list(rt: HostRuntime) -> Result<(), Fail> {
    let alloc = rt.alloc();
    let tree = screen(alloc)?;
    let list = vec![in alloc; plain_row(1, 0)]?;
    let mut beside = Beside {
        tree,
        list,
        moves: 0,
    };
    let mut seed = 7u32;
    for step in 0..120 {
        seed = seed.wrapping_mul(1_103_515_245).wrapping_add(12_345);
        let first = picked(beside.list.as_slice(), seed / 65_536);
        let other = picked(beside.list.as_slice(), seed / 1024);
        beside.step(alloc, step, first, other)?;
        let same = is_shaped(alloc, &beside.tree, beside.list.as_slice())?;
        expect(same, "the rows after a step")?;
    }
    expect(beside.moves > 5, "some rows moved")
}

#[test]
fn rows_are_copied(rt: HostRuntime) -> Result<(), Fail> {
    let alloc = rt.alloc();
    let first = Name::of("ab").ok_or("a name")?;
    let second = Name::of("b").ok_or("a name")?;
    let bind = Bind {
        key: Key::Char('x'),
        action: Action::Scroll(Jump::End),
        priority: true,
    };
    let mut row = named(alloc, Kind::Handed(first), "b");
    row.classes = Names::of(vec![in alloc; first, second]?);
    row.binds = Binds::of(vec![in alloc; bind]?);
    let copy = row.copy()?;
    expect(copy.id == Some(second), "an id")?;
    expect(copy.kind == Kind::Handed(first), "a kind")?;
    expect(
        copy.classes.as_slice() == [first, second].as_slice(),
        "the classes",
    )?;
    expect(copy.binds.as_slice() == [bind].as_slice(), "the bindings")
}

// Whether a tree with one such row is spelled.
fn spelled_with(alloc: Global, row: NewRow) -> Result<bool, Fail> {
    let mut tree = screen(alloc)?;
    tree.mount(NodeId(1), row)?;
    Ok(tree.spelled())
}

#[test]
fn spelled_keys(rt: HostRuntime) -> Result<(), Fail> {
    let alloc = rt.alloc();
    for (key, good) in [
        (Key::Char(' '), true),
        (Key::Char('\u{1f}'), false),
        (Key::Char('~'), true),
        (Key::Char('\u{7f}'), false),
        (Key::Char('\u{9f}'), false),
        (Key::Char('\u{a0}'), true),
        (Key::Function(0), false),
        (Key::Function(1), true),
        (Key::Function(12), true),
        (Key::Function(13), false),
        (Key::Ctrl(b'`'), false),
        (Key::Ctrl(b'a'), true),
        (Key::Ctrl(b'z'), true),
        (Key::Ctrl(b'{'), false),
        (Key::ShiftTab, true),
    ] {
        let bind = Bind {
            key,
            action: Action::FocusNext,
            priority: false,
        };
        let mut row = NewRow::of(alloc, Kind::Static);
        row.binds = Binds::of(vec![in alloc; bind]?);
        expect(spelled_with(alloc, row)? == good, "a key")?;
    }
    Ok(())
}

#[test]
fn spelled_texts(rt: HostRuntime) -> Result<(), Fail> {
    let alloc = rt.alloc();
    for (text, inline, good) in [
        ("", "", true),
        ("a\tb\nc\u{7f}\u{e4}\"\\", "{ } \t\r", true),
        ("a\rb", "", false),
        ("\u{0}", "", false),
        ("", "a\nb", false),
    ] {
        let mut row = NewRow::of(alloc, Kind::Static);
        row.text = Text::of(alloc, text)?;
        row.inline = Text::of(alloc, inline)?;
        expect(spelled_with(alloc, row)? == good, "two texts")?;
    }
    let twice = Name::of("a").ok_or("a name")?;
    let mut row = NewRow::of(alloc, Kind::Static);
    row.classes = Names::of(vec![in alloc; twice, twice]?);
    expect(!spelled_with(alloc, row)?, "a class that stands twice")
}

#[test]
fn spelled_states(rt: HostRuntime) -> Result<(), Fail> {
    let alloc = rt.alloc();
    let bar = |total| Private::Bar { done: 5, total };
    for (kind, private, good) in [
        (Kind::Static, Private::Plain, true),
        (Kind::Static, Private::On(false), false),
        (Kind::Checkbox, Private::On(true), true),
        (Kind::Checkbox, Private::Plain, false),
        (Kind::Input, Private::Cursor(9), true),
        (Kind::Input, Private::Chosen(9), false),
        (Kind::OptionList, Private::Chosen(9), true),
        (Kind::OptionList, Private::Cursor(9), false),
        (Kind::ProgressBar, bar(0), false),
        (Kind::ProgressBar, bar(1), true),
        (Kind::ProgressBar, bar(1_000_000), true),
        (Kind::ProgressBar, bar(1_000_001), false),
    ] {
        let mut row = NewRow::of(alloc, kind);
        row.private = private;
        expect(spelled_with(alloc, row)? == good, "a state")?;
    }
    Ok(())
}

#[test]
fn kinds_have_names_and_fresh_states() -> Result<(), Fail> {
    let bar = Private::Bar {
        done: 0,
        total: 100,
    };
    for (kind, name, fresh) in [
        (Kind::Screen, "Screen", Private::Plain),
        (Kind::VerticalScroll, "VerticalScroll", Private::Plain),
        (Kind::Input, "Input", Private::Cursor(5)),
        (Kind::Checkbox, "Checkbox", Private::On(false)),
        (Kind::OptionList, "OptionList", Private::Chosen(0)),
        (Kind::ProgressBar, "ProgressBar", bar),
    ] {
        expect(kind.name() == name, "a name")?;
        expect(Private::fresh(kind, 5) == fresh, "a state")?;
    }
    let meter = Kind::Handed(Name::of("Meter").ok_or("a name")?);
    expect(meter.name() == "Meter", "a name that is handed in")?;
    expect(Private::fresh(meter, 5) == Private::Plain, "and its state")
}

/// The base by which a type selector names a kind.
fn base_of(kind: Kind) -> &'static str {
    if kind.is_called("Static") {
        "Static"
    } else if kind.is_called("Custom") {
        "Custom"
    } else if kind.is_called("Widget") {
        "Widget"
    } else {
        "none"
    }
}

/// The form of private states that a kind has.
fn form_of(kind: Kind) -> &'static str {
    match Private::fresh(kind, 9) {
        Private::Plain => "plain",
        Private::Cursor(_) => "cursor",
        Private::On(_) => "on",
        Private::Chosen(_) => "chosen",
        Private::Bar { .. } => "bar",
    }
}

fn kind_text(alloc: Global, name: &str) -> Result<String, Fail> {
    let kind = match Kind::named(name) {
        Some(kind) => kind,
        None => Kind::Handed(Name::of(name).ok_or("a name")?),
    };
    let base = base_of(kind);
    let children = if kind.holds_children() {
        "children"
    } else {
        "-"
    };
    let focus = if kind.can_focus() { "focus" } else { "-" };
    let form = form_of(kind);
    let fresh = Private::fresh(kind, 9);
    expect(fresh.has_form(kind), "the form")?;
    let name = kind.name();
    let text = format!(in alloc; "{name} {base} {children} {focus} {form}")?;
    Ok(text)
}

#[test]
fn each_kind_has_its_row(rt: HostRuntime) -> Result<(), Fail> {
    let alloc = rt.alloc();
    each_line(
        "\
Screen => Screen Widget children - plain\n\
Container => Container Widget children - plain\n\
Vertical => Vertical Widget children - plain\n\
Horizontal => Horizontal Widget children - plain\n\
Grid => Grid Widget children - plain\n\
VerticalScroll => VerticalScroll Widget children focus plain\n\
Static => Static Static - - plain\n\
Label => Label Static - - plain\n\
Button => Button Widget - focus plain\n\
Checkbox => Checkbox Widget - focus on\n\
Input => Input Widget - focus cursor\n\
OptionList => OptionList Widget - focus chosen\n\
ProgressBar => ProgressBar Widget - - bar\n\
Header => Header Widget - - plain\n\
Footer => Footer Widget - - plain\n\
Meter => Meter Custom - focus plain",
        |given| kind_text(alloc, given),
    )
}

#[test]
fn spelled_kinds(rt: HostRuntime) -> Result<(), Fail> {
    let alloc = rt.alloc();
    for (kind, good) in [
        ("Meter", true),
        ("meter", false),
        ("_Meter", false),
        ("Footer", false),
        ("Screen", false),
        ("Screens", true),
    ] {
        let name = Name::of(kind).ok_or("a name")?;
        let row = NewRow::of(alloc, Kind::Handed(name));
        expect(spelled_with(alloc, row)? == good, "a kind")?;
    }
    Ok(())
}
