mod reading;

use crate::write_tree;
use std::alloc::Global;
use std::test::Fail;
use tx_expect::expect;
use tx_tree::{
    Action, Bind, Binds, Jump, Key, Kind, Name, Names, NewRow, NodeId, Private, Text, Tree,
};

fn bind(key: Key, action: Action, priority: bool) -> Bind {
    Bind {
        key,
        action,
        priority,
    }
}

/// A Screen whose only child is this row.
fn with_child(alloc: Global, row: NewRow) -> Result<Tree, Fail> {
    let mut tree = Tree::of_screen(alloc, NewRow::of(alloc, Kind::Screen))?;
    tree.mount(NodeId(1), row)?;
    Ok(tree)
}

/// The tree is written so.
fn writes(alloc: Global, tree: &Tree, wanted: &str) -> Result<(), Fail> {
    expect(tree.spelled(), "a spelling")?;
    let text = write_tree(alloc, tree)?;
    expect(text.as_slice() == wanted.as_bytes(), "the text")
}

#[test]
fn each_part_is_written_in_its_place(rt: HostRuntime) -> Result<(), Fail> {
    let alloc = rt.alloc();
    let mut row = NewRow::of(alloc, Kind::Static);
    row.id = Name::of("a");
    let classes = [
        Name::of("b-1").ok_or("a name")?,
        Name::of("c_").ok_or("a name")?,
    ];
    row.classes = Names::of(classes.to_vec(alloc)?);
    row.disabled = true;
    row.text = Text::of(alloc, "q\"\\\n\u{4e16}")?;
    row.inline = Text::of(alloc, "color: red; {\"}")?;
    let tree = with_child(alloc, row)?;
    writes(
        alloc,
        &tree,
        "Screen\n  Static #a .b-1 .c_ disabled \"q\\\"\\\\\\n\u{4e16}\" {color: red; {\"}}\n",
    )
}

#[test]
fn states_are_written_where_they_differ(rt: HostRuntime) -> Result<(), Fail> {
    let alloc = rt.alloc();
    let cases: [(Kind, Private, &str); 6] = [
        (Kind::Checkbox, Private::On(true), "Checkbox on"),
        (Kind::Checkbox, Private::On(false), "Checkbox"),
        (
            Kind::ProgressBar,
            Private::Bar { done: 3, total: 40 },
            "ProgressBar total 40",
        ),
        (
            Kind::ProgressBar,
            Private::Bar {
                done: 3,
                total: 100,
            },
            "ProgressBar",
        ),
        (Kind::Input, Private::Cursor(2), "Input"),
        (Kind::OptionList, Private::Chosen(1), "OptionList"),
    ];
    for (kind, private, line) in cases {
        let mut row = NewRow::of(alloc, kind);
        row.private = private;
        let tree = with_child(alloc, row)?;
        let wanted = format!(in alloc; "Screen\n  {line}\n")?;
        writes(alloc, &tree, wanted.as_str())?;
    }
    Ok(())
}

#[test]
fn bindings_stand_below_their_row(rt: HostRuntime) -> Result<(), Fail> {
    let alloc = rt.alloc();
    let dark = Name::of("dark").ok_or("a name")?;
    let binds = [
        bind(Key::Ctrl(b'd'), Action::ToggleDark, false),
        bind(Key::Char(' '), Action::FocusNext, true),
        bind(Key::Char('\u{e9}'), Action::ToggleClass(dark), false),
        bind(Key::Function(12), Action::Scroll(Jump::PageDown), false),
        bind(Key::ShiftTab, Action::FocusPrevious, false),
    ];
    let mut row = NewRow::of(alloc, Kind::Container);
    row.binds = Binds::of(binds.to_vec(alloc)?);
    let mut tree = with_child(alloc, row)?;
    tree.mount(NodeId(2), NewRow::of(alloc, Kind::Label))?;
    writes(
        alloc,
        &tree,
        "Screen\n  Container\n    bind ctrl+d toggle_dark\n    bind priority space focus_next\n    bind \u{e9} toggle_class dark\n    bind f12 page_down\n    bind shift+tab focus_previous\n    Label\n",
    )
}
