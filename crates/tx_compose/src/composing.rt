//! The picture of what is shown.

ghost use Rattle.std.specs.Prelude.{◌≡◌, ◌*◌, ℕ, Ok, IfOk, OnOk, length};
ghost use Rattle.tx_cascade.specs.Reaching.{selectors_in};
ghost use Rattle.tx_cascade.specs.Styles.{scene};
ghost use Rattle.tx_compose.specs.Presented.{composed, map_of, presented};
ghost use Rattle.tx_compose.specs.Ticks.{MapTicks, RefreshTicks};
ghost use Rattle.tx_map.specs.Faults.{told};
ghost use Rattle.tx_map.specs.Ticks.{ArrangedAtMost};
ghost use Rattle.tx_picture.specs.Given.{AreBuiltIn};
ghost use Rattle.tx_picture.specs.Ticks.{Composed, ComposedAtMost};
ghost use Rattle.tx_read.specs.Answer.{Gives};

use crate::frame::Frame;
use std::alloc::Global;
use tx_cascade::Styles;
use tx_cell::Grid;
use tx_io::{Ledger, Steps};
use tx_map::{ComposeFault, LayoutMap, Present};
use tx_owner::Owners;
use tx_parse::Sheet;
use tx_picture::picture_of;
use tx_text::NoMemory;

/// A picture, and what is kept of it.
#[derive(Drop)]
pub struct Made {
    pub grid: Grid,
    pub frame: Frame,
}

// The map of what is shown, whose styles these are.
#[tactic(auto, unfolding(crate::specs::Presented::map_of))]
fn map_of<L: Ledger>(
    alloc: Global,
    sheet: &Sheet,
    present: &Present<'_>,
    styles: &Styles,
    steps: &mut Steps<L>,
) -> Result<LayoutMap, ComposeFault>
    requires styles { styles.now ≡ scene sheet.now present.now.tree.now.rows present.now.pseudo.now }
    ensures exact { Gives (λ map. map) told result (map_of (presented sheet.now present.now.tree.now.rows present.now.pseudo.now present.now.scrolls.now present.now.size)) }
    ensures ticks { ArrangedAtMost L.ticked (4 * length present.now.tree.now.rows) steps.old.ledger steps.new.ledger }
{
    LayoutMap::of(alloc, present, styles, steps)
}

// The picture of what is shown, whose styles and map these are.
fn made_with<L: Ledger>(
    alloc: Global,
    sheet: &Sheet,
    present: &Present<'_>,
    styles: &Styles,
    map: LayoutMap,
    steps: &mut Steps<L>,
) -> Result<Made, NoMemory>
    requires built_in { AreBuiltIn present.now.tree.now.rows }
    requires styles { styles.now ≡ scene sheet.now present.now.tree.now.rows present.now.pseudo.now }
    requires map { map_of (presented sheet.now present.now.tree.now.rows present.now.pseudo.now present.now.scrolls.now present.now.size) ≡ Ok map }
    ensures grid { IfOk result (λ made. composed (presented sheet.now present.now.tree.now.rows present.now.pseudo.now present.now.scrolls.now present.now.size) ≡ Ok made.grid) }
    ensures frame { IfOk result (λ made. made.frame ≡ presented sheet.now present.now.tree.now.rows present.now.pseudo.now present.now.scrolls.now present.now.size) }
    ensures cells { OnOk result (Composed L.ticked (present.now.size.width * present.now.size.height) steps.old.ledger steps.new.ledger) }
    ensures ticks { ComposedAtMost L.ticked (present.now.size.width * present.now.size.height) steps.old.ledger steps.new.ledger }
{
    let owners = Owners::of(alloc, &map, styles, present.size)?;
    let grid = picture_of(alloc, present, styles, &map, &owners, steps)?;
    let frame = Frame::of(alloc, sheet, present, styles, map, owners)?;
    Ok(Made { grid, frame })
}

// The picture of what is shown, whose styles these are.
fn made_by<L: Ledger>(
    alloc: Global,
    sheet: &Sheet,
    present: &Present<'_>,
    styles: &Styles,
    steps: &mut Steps<L>,
) -> Result<Made, ComposeFault>
    requires built_in { AreBuiltIn present.now.tree.now.rows }
    requires styles { styles.now ≡ scene sheet.now present.now.tree.now.rows present.now.pseudo.now }
    ensures exact { Gives (λ made. made.grid) told result (composed (presented sheet.now present.now.tree.now.rows present.now.pseudo.now present.now.scrolls.now present.now.size)) }
    ensures frame { IfOk result (λ made. made.frame ≡ presented sheet.now present.now.tree.now.rows present.now.pseudo.now present.now.scrolls.now present.now.size) }
    ensures ticks { MapTicks L.ticked (4 * length present.now.tree.now.rows) present.now.size result steps.old.ledger steps.new.ledger }
{
    match map_of(alloc, sheet, present, styles, steps) {
        Ok(map) => match made_with(alloc, sheet, present, styles, map, steps) {
            Ok(made) => Ok(made),
            Err(_) => Err(ComposeFault::NoMemory),
        },
        Err(fault) => Err(fault),
    }
}

/// The picture of what is shown under a sheet, from nothing.
pub fn made_of<L: Ledger>(
    alloc: Global,
    sheet: &Sheet,
    present: &Present<'_>,
    steps: &mut Steps<L>,
) -> Result<Made, ComposeFault>
    requires built_in { AreBuiltIn present.now.tree.now.rows }
    ensures exact { Gives (λ made. made.grid) told result (composed (presented sheet.now present.now.tree.now.rows present.now.pseudo.now present.now.scrolls.now present.now.size)) }
    ensures frame { IfOk result (λ made. made.frame ≡ presented sheet.now present.now.tree.now.rows present.now.pseudo.now present.now.scrolls.now present.now.size) }
    ensures ticks { RefreshTicks L.ticked (selectors_in sheet.now * length present.now.tree.now.rows) (4 * length present.now.tree.now.rows) present.now.size result steps.old.ledger steps.new.ledger }
{
    match Styles::open(alloc, sheet, present.tree, present.pseudo, steps) {
        Ok(styles) => made_by(alloc, sheet, present, &styles, steps),
        Err(_) => Err(ComposeFault::NoMemory),
    }
}
