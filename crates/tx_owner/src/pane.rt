//! The part of the screen in which an entry shows.

ghost use Rattle.std.specs.Prelude.{◌≡◌, ◌≤◌, IfOk, slice_index_or, length, drop, ◌++◌, ◌&&◌, pos, ◌+ℤ◌};
ghost use Rattle.std.specs.Cmp.Lexicographic.{slice_cmp};
ghost use Rattle.std.specs.Ordering.{nat_cmp};
ghost use Rattle.tx_cascade.specs.Styles.{all_styles};
ghost use Rattle.tx_owner.specs.Owner.{is_among, is_empty_key, is_seen, is_visible_by, is_within, shows_at};
ghost use Rattle.tx_owner.specs.Panes.{covers, end_of, first_at, first_of, has_cells, is_along, is_on, kept_in, pane_of, panes};
ghost use Rattle.tx_owner.specs.Topmost.{AreTopmostFirst};

use std::alloc::Global;
use std::cmp::Ordering;
use std::marker::Model;
use tx_cascade::Styles;
use tx_geom::Size;
use tx_map::Entry;
use tx_text::NoMemory;

/// The cells of the screen at which an entry shows: the columns from `left` up to, but not including,
/// `right`, and so its rows.
#[derive(Drop)]
pub struct Pane<'a> {
    /// The place of the entry in its map.
    place: usize,
    key: &'a [u32],
    left: u32,
    right: u32,
    top: u32,
    bottom: u32,
}

impl<'a> Model for Pane<'a> {
    ghost use Rattle.tx_owner.specs.Panes.{PaneValue};

    ghost Value = { PaneValue };

    ghost view = { λ p. record { place = p.place; key = p.key.now; left = p.left; right = p.right; top = p.top; bottom = p.bottom } };
}

// A column or row, kept from 0 to a side of the screen.
fn kept_in(most: u32, at: i128) -> u32
    ensures { result ≡ kept_in most at }
{
    if at < 0 {
        return 0;
    }
    if at > most as i128 {
        return most;
    }
    at as u32
}

// The first column or row of both of two runs, on the screen.
fn first_of(most: u32, one: i64, other: i64) -> u32
    ensures { result ≡ first_of most one other }
{
    kept_in(most, one.max(other) as i128)
}

// The end of a run.
fn run_end(from: i64, count: u32) -> i128
    ensures { result ≡ from +ℤ pos count }
{
    from as i128 + count as i128
}

// The end of both of two runs, on the screen.
fn end_of(most: u32, one: i64, count: u32, other: i64, more: u32) -> u32
    ensures { result ≡ end_of most one count other more }
{
    kept_in(most, run_end(one, count).min(run_end(other, more)))
}

impl<'a> Pane<'a> {
    // The pane of the entry at a place.
    fn of(size: Size, place: usize, entry: &'a Entry) -> Pane<'a>
        ensures { result ≡ pane_of size (record { place = place; entry = entry.now }) }
    {
        let region = entry.region;
        let clip = entry.clip;
        Pane {
            place,
            key: entry.key.as_slice(),
            left: first_of(size.width, region.x, clip.x),
            right: end_of(size.width, region.x, region.width, clip.x, clip.width),
            top: first_of(size.height, region.y, clip.y),
            bottom: end_of(size.height, region.y, region.height, clip.y, clip.height),
        }
    }

    /// The place of the entry in its map.
    pub fn place(&self) -> usize
        ensures { result ≡ self.now.place }
    {
        self.place
    }

    /// Its first column.
    pub fn left(&self) -> u32
        ensures { result ≡ self.now.left }
    {
        self.left
    }

    /// The column after its last one.
    pub fn right(&self) -> u32
        ensures { result ≡ self.now.right }
    {
        self.right
    }

    /// Whether it has cells on a line of the screen.
    pub fn is_on(&self, y: u32) -> bool
        ensures { result ≡ is_on y self.now }
    {
        self.top <= y && y < self.bottom
    }

    // Whether it has a cell.
    fn has_cells(&self) -> bool
        ensures { result ≡ has_cells self.now }
    {
        self.left < self.right && self.top < self.bottom
    }

    // How its entry's key compares with that of another.
    fn compared(&self, other: &Pane<'_>) -> Ordering
        ensures { result ≡ slice_cmp nat_cmp self.now.key other.now.key }
    {
        self.key.cmp(other.key)
    }
}

// Whether the row of an entry is visible.
fn is_visible(styles: &Styles, entry: &Entry) -> bool
    ensures { result ≡ is_visible_by (all_styles styles.now.sheet styles.now.state styles.now.rows entry.now.node.0) }
{
    match styles.style(entry.node) {
        Some(style) => style.is_visible(),
        None => true,
    }
}

// Whether an entry is seen.
fn is_seen(styles: &Styles, entry: &Entry) -> bool
    ensures { result ≡ is_seen (all_styles styles.now.sheet styles.now.state styles.now.rows) entry.now }
{
    entry.key.as_slice().is_empty() || is_visible(styles, entry)
}

// The panes of all entries that are seen and have a cell on the screen.
fn panes_of<'a>(
    alloc: Global,
    entries: &'a [Entry],
    styles: &Styles,
    size: Size,
) -> Result<Vec<Pane<'a>>, NoMemory>
    ensures { IfOk result (λ all. all.items ≡ panes (all_styles styles.now.sheet styles.now.state styles.now.rows) entries.now size) }
{
    let mut all = Vec::new(alloc);
    for (place, entry) in entries.iter().enumerate() {
        if is_seen(styles, entry) {
            let pane = Pane::of(size, place, entry);
            if pane.has_cells() {
                all.push(pane)?;
            }
        }
    }
    Ok(all)
}

/// The panes of all entries that are seen and have a cell on the screen, the ones of greatest key
/// first.
pub fn topmost_first<'a>(
    alloc: Global,
    entries: &'a [Entry],
    styles: &Styles,
    size: Size,
) -> Result<Vec<Pane<'a>>, NoMemory>
    ensures { IfOk result (λ all. AreTopmostFirst (all_styles styles.now.sheet styles.now.state styles.now.rows) entries.now size all.items) }
{
    let mut all = panes_of(alloc, entries, styles, size)?;
    all.sort_by(|one, other| other.compared(one))?;
    Ok(all)
}
