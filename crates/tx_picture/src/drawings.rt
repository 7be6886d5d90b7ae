//! The drawings of rows.

ghost use Rattle.std.specs.Prelude.{◌≡◌, false, IfOk, IfSome};
ghost use Rattle.tx_node_map.specs.Held.{held};
ghost use Rattle.std.specs.List.{All};
ghost use Rattle.tx_paint.specs.Drawing.{IsDrawing, drawing_of};
ghost use Rattle.tx_picture.specs.Backgrounds.{AreBackgrounds};
ghost use Rattle.tx_picture.specs.Drawings.{drawing_where, drawings};
ghost use Rattle.tx_picture.specs.Given.{AreBuiltIn};
ghost use Rattle.tx_picture.specs.Picture.{entry_drawing, placement_of};
ghost use Rattle.tx_select.specs.Holds.{is_row_of};
ghost use Rattle.tx_tree.specs.Kind.{is_handed};

use crate::backgrounds::backgrounds_of;
use std::alloc::{AllocError, Global};
use tx_cascade::Styles;
use tx_geom::{Rgb, Size};
use tx_map::{Entry, Present};
use tx_node_map::NodeMap;
use tx_owner::Owners;
use tx_paint::{Drawing, Placement};
use tx_text::NoMemory;
use tx_tree::{NodeId, Row};
use tx_value::Style;

// Whether a row is that of a node, if there is one.
fn is_row_of(node: Option<NodeId>, row: NodeId) -> bool
    ensures { result ≡ is_row_of node row.0 }
{
    match node {
        Some(node) => node.0 == row.0,
        None => false,
    }
}

// How large the region of an entry is, and what it shows of the children.
fn placement_of(entry: &Entry) -> Placement
    ensures { result ≡ placement_of entry.now }
{
    Placement {
        size: Size {
            width: entry.region.width,
            height: entry.region.height,
        },
        viewport: entry.viewport,
        over: entry.over,
        scroll: entry.scroll,
    }
}

// The drawing of a row at its entry. A text of 2^32 bytes or more counts as want of memory.
#[tactic(auto, unfolding(crate::specs::Picture::row_drawing))]
fn row_drawing(
    alloc: Global,
    present: &Present<'_>,
    style: &Style,
    under: Rgb,
    entry: &Entry,
    row: &Row,
) -> Result<Drawing, NoMemory>
    requires built_in { is_handed row.now.kind ≡ false }
    ensures { IfOk result (λ d. d ≡ drawing_of present.now.pseudo.now.dark style.now under row.now.kind row.now.text row.now.private
        (is_row_of present.now.pseudo.now.focused row.now.node.0) (placement_of entry.now)) }
{
    if row.text.as_str().len() >= 4_294_967_296 {
        return Err(AllocError);
    }
    Drawing::of(
        alloc,
        style,
        present.pseudo.dark,
        under,
        row.kind,
        &row.text,
        row.private,
        is_row_of(present.pseudo.focused, row.node),
        placement_of(entry),
    )
}

// The drawing of the row of an entry, where the tree has that row.
#[tactic(auto, unfolding(crate::specs::Picture::row_drawing))]
fn entry_drawing(
    alloc: Global,
    present: &Present<'_>,
    styles: &Styles,
    backgrounds: &NodeMap<Rgb>,
    entry: &Entry,
) -> Result<Option<Drawing>, NoMemory>
    requires same { styles.now.rows ≡ present.now.tree.now.rows }
    requires state { styles.now.state ≡ present.now.pseudo.now }
    requires built_in { AreBuiltIn present.now.tree.now.rows }
    requires backgrounds { AreBackgrounds styles.now present.now.tree.now.rows (held backgrounds.now) }
    ensures { IfOk result (λ d. d ≡ entry_drawing styles.now entry.now) }
{
    let Some(row) = present.tree.row(entry.node) else {
        return Ok(None);
    };
    let Some(style) = styles.style(entry.node) else {
        unreachable!()
    };
    let Some(under) = backgrounds.get(entry.node) else {
        unreachable!()
    };
    let drawing = row_drawing(alloc, present, style, *under, entry, row)?;
    Ok(Some(drawing))
}

// The drawing of the row of an entry, where that row owns a cell.
fn drawing_where(
    alloc: Global,
    present: &Present<'_>,
    styles: &Styles,
    owners: &Owners,
    backgrounds: &NodeMap<Rgb>,
    entry: &Entry,
) -> Result<Option<Drawing>, NoMemory>
    requires same { styles.now.rows ≡ present.now.tree.now.rows }
    requires state { styles.now.state ≡ present.now.pseudo.now }
    requires built_in { AreBuiltIn present.now.tree.now.rows }
    requires backgrounds { AreBackgrounds styles.now present.now.tree.now.rows (held backgrounds.now) }
    ensures { IfOk result (λ d. d ≡ drawing_where styles.now (held owners.now.spots) entry.now) }
{
    match owners.spot(entry.node) {
        Some(_) => entry_drawing(alloc, present, styles, backgrounds, entry),
        None => Ok(None),
    }
}

// The drawing of each entry whose row owns a cell, by the backgrounds under rows.
fn drawings_over(
    alloc: Global,
    present: &Present<'_>,
    styles: &Styles,
    owners: &Owners,
    backgrounds: &NodeMap<Rgb>,
    entries: &[Entry],
) -> Result<Vec<Option<Drawing>>, NoMemory>
    requires same { styles.now.rows ≡ present.now.tree.now.rows }
    requires state { styles.now.state ≡ present.now.pseudo.now }
    requires built_in { AreBuiltIn present.now.tree.now.rows }
    requires backgrounds { AreBackgrounds styles.now present.now.tree.now.rows (held backgrounds.now) }
    ensures { IfOk result (λ all. all.items ≡ drawings styles.now (held owners.now.spots) entries.now) }
{
    let mut all = Vec::with_capacity(alloc, entries.len())?;
    for entry in entries {
        let drawing = drawing_where(alloc, present, styles, owners, backgrounds, entry)?;
        all.push(drawing)?;
    }
    Ok(all)
}

/// The drawing of each entry whose row owns a cell.
pub fn drawings_of(
    alloc: Global,
    present: &Present<'_>,
    styles: &Styles,
    owners: &Owners,
    entries: &[Entry],
) -> Result<Vec<Option<Drawing>>, NoMemory>
    requires same { styles.now.rows ≡ present.now.tree.now.rows }
    requires state { styles.now.state ≡ present.now.pseudo.now }
    requires built_in { AreBuiltIn present.now.tree.now.rows }
    ensures { IfOk result (λ all. all.items ≡ drawings styles.now (held owners.now.spots) entries.now) }
{
    let backgrounds = backgrounds_of(alloc, present.tree, styles, present.pseudo.dark)?;
    drawings_over(alloc, present, styles, owners, &backgrounds, entries)
}

// Sees that a drawing, if there is one, is one.
fn see_drawing(drawing: &Option<Drawing>)
    ensures { IfSome drawing.now IsDrawing }
{
    if let Some(drawing) = drawing {
        let _size = drawing.size();
    }
}

/// Sees that all drawings are some.
pub fn see_drawings(drawings: &[Option<Drawing>])
    ensures { All (λ drawing. IfSome drawing IsDrawing) drawings.now }
{
    for drawing in drawings {
        see_drawing(drawing);
    }
}
