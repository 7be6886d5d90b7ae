//! Styles that are worked out anew after an edit, against those of a tree opened anew.
ghost use Rattle.std.specs.Prelude.{◌≡◌, IfOk, OnOk};
ghost use Rattle.tx_cascade.specs.Styles.{scene};

use super::{STILL, planted, sheet_of, value_text};
use crate::laws::edits_lead;
use crate::{Edit, Styles};
use std::alloc::Global;
use std::rt::HostRuntime;
use std::test::Fail;
use tx_expect::expect;
use tx_io::{Counted, Steps};
use tx_parse::Sheet;
use tx_select::Pseudo;
use tx_text::{Name, Text};
use tx_tree::{NodeId, Tree};
use tx_value::Property;

const SHEET: &str = "\
.hot Static { color: red; }
.b { color: blue; }
Container:focus { text-style: bold; }";

const COLD: &str = "Foregroundmarks ;Foregroundmarks ;Foregroundmarks b;#0000ffmarks b;;";

const HOT: &str = "Foregroundmarks ;Foregroundmarks ;Foregroundmarks b;#ff0000marks b;;";

const LIME: &str = "Foregroundmarks ;Foregroundmarks ;Foregroundmarks b;#00ff00marks b;;";

const MOVED: &str = "Foregroundmarks ;Foregroundmarks b;Foregroundmarks b;#00ff00marks b;;";

/// The colours and the marks of the rows 1 to 5.
fn shown(alloc: Global, styles: &Styles) -> Result<String, Fail> {
    let mut text = String::new(alloc);
    for number in 1..6 {
        if let Some(style) = styles.style(NodeId(number)) {
            text.push_str(value_text(alloc, style.get(Property::Color))?.as_str())?;
            text.push_str(value_text(alloc, style.get(Property::TextStyle))?.as_str())?;
        }
        text.push_str(";")?;
    }
    Ok(text)
}

/// Fails unless the rows are shown so, as they are in styles opened anew too.
pub fn show_as(
    alloc: Global,
    styles: &Styles,
    sheet: &Sheet,
    tree: &Tree,
    pseudo: &Pseudo,
    wanted: &str,
) -> Result<(), Fail> {
    let mut steps = Steps {
        ledger: Counted::default(),
    };
    let anew = Styles::open(alloc, sheet, tree, pseudo, &mut steps)?;
    let found = shown(alloc, styles)?;
    expect(found.as_str() == wanted, "worked out anew")?;
    let other = shown(alloc, &anew)?;
    expect(other.as_str() == wanted, "opened anew")
}

/// The styles after a class came.
fn after_class_came(
    styles: &mut Styles,
    sheet: &Sheet,
    tree: &mut Tree,
    pseudo: &Pseudo,
    node: NodeId,
    name: Name,
) -> Result<(), Fail>
    requires { styles.old ≡ scene sheet.now tree.old.rows pseudo.now }
    ensures { OnOk result (styles.new ≡ scene sheet.now tree.new.rows pseudo.now) }
{
    edits_lead();
    let mut steps = Steps {
        ledger: Counted::default(),
    };
    let Ok(_) = tree.add_class(node, name) else {
        return Err(Fail::from("no class came"));
    };
    let edits = [Edit::Class { node, name }];
    styles.restyle(sheet, tree, pseudo, &edits, &mut steps)?;
    Ok(())
}

/// The styles after a class went.
fn after_class_went(
    styles: &mut Styles,
    sheet: &Sheet,
    tree: &mut Tree,
    pseudo: &Pseudo,
    node: NodeId,
    name: Name,
) -> Result<(), Fail>
    requires { styles.old ≡ scene sheet.now tree.old.rows pseudo.now }
    ensures { OnOk result (styles.new ≡ scene sheet.now tree.new.rows pseudo.now) }
{
    edits_lead();
    let mut steps = Steps {
        ledger: Counted::default(),
    };
    let Ok(_) = tree.remove_class(node, &name) else {
        return Err(Fail::from("no class went"));
    };
    let edits = [Edit::Class { node, name }];
    styles.restyle(sheet, tree, pseudo, &edits, &mut steps)?;
    Ok(())
}

/// The styles after a row has another inline text.
fn after_inline(
    styles: &mut Styles,
    sheet: &Sheet,
    tree: &mut Tree,
    pseudo: &Pseudo,
    node: NodeId,
    text: Text,
) -> Result<(), Fail>
    requires { styles.old ≡ scene sheet.now tree.old.rows pseudo.now }
    ensures { OnOk result (styles.new ≡ scene sheet.now tree.new.rows pseudo.now) }
{
    edits_lead();
    let mut steps = Steps {
        ledger: Counted::default(),
    };
    let Ok(()) = tree.set_inline(node, text) else {
        return Err(Fail::from("no inline text"));
    };
    let edits = [Edit::Inline(node)];
    styles.restyle(sheet, tree, pseudo, &edits, &mut steps)?;
    Ok(())
}

/// The styles after the focus moved, with the pseudo state then.
pub fn after_focus(
    styles: &mut Styles,
    sheet: &Sheet,
    tree: &Tree,
    pseudo: &Pseudo,
    to: Option<NodeId>,
) -> Result<Pseudo, Fail>
    requires { styles.old ≡ scene sheet.now tree.now.rows pseudo.now }
    ensures { IfOk result (λ after. styles.new ≡ scene sheet.now tree.now.rows after) }
{
    edits_lead();
    let mut steps = Steps {
        ledger: Counted::default(),
    };
    let edits = [Edit::Focus {
        from: pseudo.focused,
        to,
    }];
    let after = Pseudo {
        focused: to,
        pointed: pseudo.pointed,
        dark: pseudo.dark,
    };
    styles.restyle(sheet, tree, &after, &edits, &mut steps)?;
    Ok(after)
}

#[test]
fn classes_come_and_go(rt: HostRuntime) -> Result<(), Fail> {
    let alloc = rt.alloc();
    let sheet = sheet_of(alloc, SHEET)?;
    let mut tree = planted(alloc, "")?;
    let hot = Name::of("hot").ok_or("a name")?;
    let mut steps = Steps {
        ledger: Counted::default(),
    };
    let mut styles = Styles::open(alloc, &sheet, &tree, &STILL, &mut steps)?;
    show_as(alloc, &styles, &sheet, &tree, &STILL, COLD)?;
    after_class_came(&mut styles, &sheet, &mut tree, &STILL, NodeId(2), hot)?;
    show_as(alloc, &styles, &sheet, &tree, &STILL, HOT)?;
    after_class_went(&mut styles, &sheet, &mut tree, &STILL, NodeId(2), hot)?;
    show_as(alloc, &styles, &sheet, &tree, &STILL, COLD)
}

#[test]
fn another_inline_text_and_another_focus(rt: HostRuntime) -> Result<(), Fail> {
    let alloc = rt.alloc();
    let sheet = sheet_of(alloc, SHEET)?;
    let mut tree = planted(alloc, "")?;
    let text = Text::of(alloc, "color: lime")?;
    let mut steps = Steps {
        ledger: Counted::default(),
    };
    let mut styles = Styles::open(alloc, &sheet, &tree, &STILL, &mut steps)?;
    after_inline(&mut styles, &sheet, &mut tree, &STILL, NodeId(4), text)?;
    show_as(alloc, &styles, &sheet, &tree, &STILL, LIME)?;
    let moved = after_focus(&mut styles, &sheet, &tree, &STILL, Some(NodeId(2)))?;
    show_as(alloc, &styles, &sheet, &tree, &moved, MOVED)
}
