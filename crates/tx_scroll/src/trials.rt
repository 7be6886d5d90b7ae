//! The bars that a container is tried with.

ghost use Rattle.std.specs.Prelude.{◌≡◌};
ghost use Rattle.tx_scroll.specs.Bars.{trials, viewport, fits_along, fits};

use tx_geom::{Overflow, Size};
use tx_layout::Arrangement;

/// The bars of one trial.
#[derive(Clone, Copy, Debug, PartialEq, Eq)]
pub struct Trial {
    /// A horizontal bar, in the last row.
    pub across: bool,
    /// A vertical bar, in the last two columns.
    pub down: bool,
}

/// The bars of a container, and its children beside them.
#[derive(Drop, Debug)]
pub struct Barred {
    /// Whether there is a horizontal bar, in the last row of the content area.
    pub across: bool,
    /// Whether there is a vertical bar, in the last two columns of the content area, or in the one
    /// that it has.
    pub down: bool,
    /// What the bars leave of the content area.
    pub viewport: Size,
    /// The arrangement of the children in that viewport.
    pub arrangement: Arrangement,
}

const NO_BAR: Trial = Trial {
    across: false,
    down: false,
};

const VERTICAL: Trial = Trial {
    across: false,
    down: true,
};

const HORIZONTAL: Trial = Trial {
    across: true,
    down: false,
};

const BOTH: Trial = Trial {
    across: true,
    down: true,
};

const FREE: [Trial; 4] = [NO_BAR, VERTICAL, HORIZONTAL, BOTH];

/// The trials of a container, in order: without bars, with the vertical one, with the horizontal one,
/// with both. Those that give a hidden axis a bar, or a scroll axis none, are left out.
pub fn trials(x: Overflow, y: Overflow) -> &'static [Trial]
    ensures { result.now ≡ trials x y }
{
    match (x, y) {
        (Overflow::Auto, Overflow::Auto) => &FREE,
        (Overflow::Auto, Overflow::Hidden) => &[NO_BAR, HORIZONTAL],
        (Overflow::Auto, Overflow::Scroll) => &[VERTICAL, BOTH],
        (Overflow::Hidden, Overflow::Auto) => &[NO_BAR, VERTICAL],
        (Overflow::Hidden, Overflow::Hidden) => &[NO_BAR],
        (Overflow::Hidden, Overflow::Scroll) => &[VERTICAL],
        (Overflow::Scroll, Overflow::Auto) => &[HORIZONTAL, BOTH],
        (Overflow::Scroll, Overflow::Hidden) => &[HORIZONTAL],
        (Overflow::Scroll, Overflow::Scroll) => &[BOTH],
    }
}

/// What the bars leave of a content area.
pub fn viewport(content: Size, trial: Trial) -> Size
    ensures { result ≡ viewport content trial }
{
    let columns = if trial.down { 2 } else { 0 };
    let rows = if trial.across { 1 } else { 0 };
    Size {
        width: content.width.saturating_sub(columns),
        height: content.height.saturating_sub(rows),
    }
}

// An axis that would get a bar where it needs one, and has none, needs none.
fn fits_along(overflow: Overflow, bar: bool, over: u32) -> bool
    ensures { result ≡ fits_along overflow bar over }
{
    match overflow {
        Overflow::Auto => bar || over == 0,
        Overflow::Hidden | Overflow::Scroll => true,
    }
}

/// Whether nothing goes over in any auto axis without a bar.
pub fn fits(x: Overflow, y: Overflow, trial: Trial, over: Size) -> bool
    ensures { result ≡ fits x y trial over }
{
    fits_along(x, trial.across, over.width) && fits_along(y, trial.down, over.height)
}
