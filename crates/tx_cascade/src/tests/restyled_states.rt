//! Styles that are worked out anew after a change of what pseudo-classes are judged by.
ghost use Rattle.std.specs.Prelude.{◌≡◌, IfOk, OnOk};
ghost use Rattle.tx_cascade.specs.Styles.{scene};

use super::restyled::{after_focus, show_as};
use super::{STILL, planted, sheet_of};
use crate::laws::edits_lead;
use crate::{Edit, Styles};
use std::rt::HostRuntime;
use std::test::Fail;
use tx_io::{Counted, Steps};
use tx_parse::Sheet;
use tx_select::Pseudo;
use tx_tree::{NodeId, Tree};

const SHEET: &str = "\
Container:disabled { text-style: dim; }
#q:hover { text-style: italic; }
Container:focus { color: lime; }
Screen:light { color: red; }";

const ENABLED: &str = "Foregroundmarks ;Foregroundmarks ;#00ff00marks ;#00ff00marks ;;";

const DISABLED: &str = "Foregroundmarks ;Foregroundmarks d;#00ff00marks d;#00ff00marks d;;";

const POINTED: &str = "Foregroundmarks ;Foregroundmarks ;#00ff00marks i;#00ff00marks i;;";

const LIGHT: &str = "#ff0000marks ;#ff0000marks ;#00ff00marks ;#00ff00marks ;;";

const BLURRED: &str = "#ff0000marks ;#ff0000marks ;#ff0000marks ;#ff0000marks ;;";

/// The styles after a row was disabled or enabled.
fn after_disabled(
    styles: &mut Styles,
    sheet: &Sheet,
    tree: &mut Tree,
    pseudo: &Pseudo,
    node: NodeId,
    to: bool,
) -> Result<(), Fail>
    requires { styles.old ≡ scene sheet.now tree.old.rows pseudo.now }
    ensures { OnOk result (styles.new ≡ scene sheet.now tree.new.rows pseudo.now) }
{
    edits_lead();
    let mut steps = Steps {
        ledger: Counted::default(),
    };
    let Ok(()) = tree.set_disabled(node, to) else {
        return Err(Fail::from("no such row"));
    };
    let edits = [Edit::Disabled(node)];
    styles.restyle(sheet, tree, pseudo, &edits, &mut steps)?;
    Ok(())
}

/// The styles after the pointer moved, with the pseudo state then.
fn after_pointed(
    styles: &mut Styles,
    sheet: &Sheet,
    tree: &Tree,
    pseudo: &Pseudo,
    to: Option<NodeId>,
) -> Result<Pseudo, Fail>
    requires { styles.old ≡ scene sheet.now tree.now.rows pseudo.now }
    ensures { IfOk result (λ after. styles.new ≡ scene sheet.now tree.now.rows after) }
{
    edits_lead();
    let mut steps = Steps {
        ledger: Counted::default(),
    };
    let edits = [Edit::Pointed {
        from: pseudo.pointed,
        to,
    }];
    let after = Pseudo {
        focused: pseudo.focused,
        pointed: to,
        dark: pseudo.dark,
    };
    styles.restyle(sheet, tree, &after, &edits, &mut steps)?;
    Ok(after)
}

/// The styles after the theme changed, with the pseudo state then.
fn after_dark(
    styles: &mut Styles,
    sheet: &Sheet,
    tree: &Tree,
    pseudo: &Pseudo,
    to: bool,
) -> Result<Pseudo, Fail>
    requires { styles.old ≡ scene sheet.now tree.now.rows pseudo.now }
    ensures { IfOk result (λ after. styles.new ≡ scene sheet.now tree.now.rows after) }
{
    edits_lead();
    let mut steps = Steps {
        ledger: Counted::default(),
    };
    let edits = [Edit::Dark];
    let after = Pseudo {
        focused: pseudo.focused,
        pointed: pseudo.pointed,
        dark: to,
    };
    styles.restyle(sheet, tree, &after, &edits, &mut steps)?;
    Ok(after)
}

#[test]
fn rows_are_disabled_and_enabled(rt: HostRuntime) -> Result<(), Fail> {
    let alloc = rt.alloc();
    let sheet = sheet_of(alloc, SHEET)?;
    let mut tree = planted(alloc, "")?;
    let mut steps = Steps {
        ledger: Counted::default(),
    };
    let mut styles = Styles::open(alloc, &sheet, &tree, &STILL, &mut steps)?;
    after_disabled(&mut styles, &sheet, &mut tree, &STILL, NodeId(2), true)?;
    show_as(alloc, &styles, &sheet, &tree, &STILL, DISABLED)?;
    after_disabled(&mut styles, &sheet, &mut tree, &STILL, NodeId(2), false)?;
    show_as(alloc, &styles, &sheet, &tree, &STILL, ENABLED)
}

#[test]
fn the_pointer_moves(rt: HostRuntime) -> Result<(), Fail> {
    let alloc = rt.alloc();
    let sheet = sheet_of(alloc, SHEET)?;
    let tree = planted(alloc, "")?;
    let mut steps = Steps {
        ledger: Counted::default(),
    };
    let mut styles = Styles::open(alloc, &sheet, &tree, &STILL, &mut steps)?;
    let pointed = after_pointed(&mut styles, &sheet, &tree, &STILL, Some(NodeId(4)))?;
    show_as(alloc, &styles, &sheet, &tree, &pointed, POINTED)
}

#[test]
fn the_theme_and_the_focus_change(rt: HostRuntime) -> Result<(), Fail> {
    let alloc = rt.alloc();
    let sheet = sheet_of(alloc, SHEET)?;
    let tree = planted(alloc, "")?;
    let mut steps = Steps {
        ledger: Counted::default(),
    };
    let mut styles = Styles::open(alloc, &sheet, &tree, &STILL, &mut steps)?;
    let light = after_dark(&mut styles, &sheet, &tree, &STILL, false)?;
    show_as(alloc, &styles, &sheet, &tree, &light, LIGHT)?;
    let blurred = after_focus(&mut styles, &sheet, &tree, &light, None)?;
    show_as(alloc, &styles, &sheet, &tree, &blurred, BLURRED)
}
