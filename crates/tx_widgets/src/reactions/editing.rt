//! Edits of a text at a cursor.

ghost use Rattle.std.specs.Prelude.{◌≡◌, ◌≤◌, true, length, IfOk};
ghost use Rattle.tx_widgets.specs.Editing.{edge_after, edge_before, with_character, without_part};
ghost use Rattle.tx_widgets.specs.Form.{is_edge};

use std::alloc::Global;
use tx_text::NoMemory;
use tx_tree::Text;
use unicode_segmentation::UnicodeSegmentation;

// The last cluster edge before a place, or the place itself where there is none.
pub(crate) fn edge_before(text: &str, at: usize) -> usize
    requires inside { at ≤ length text.now }
    ensures { result ≡ edge_before text.now at }
{
    let mut edge = at;
    for (start, _) in text.grapheme_indices(true) {
        if start < at {
            edge = start;
        }
    }
    edge
}

// The next cluster edge after a place, or the place itself where there is none.
pub(crate) fn edge_after(text: &str, at: usize) -> usize
    requires inside { at ≤ length text.now }
    ensures { result ≡ edge_after text.now at }
{
    for (start, _) in text.grapheme_indices(true) {
        if at < start {
            return start;
        }
    }
    text.len()
}

// A text with a character put in at a place.
pub(crate) fn with_character(
    alloc: Global,
    text: &str,
    at: usize,
    character: char,
) -> Result<Text, NoMemory>
    requires edge { is_edge text.now at ≡ true }
    ensures { IfOk result (λ longer. longer ≡ with_character text.now at character) }
{
    let (before, after) = text.split_at(at);
    let mut longer = String::from_str(alloc, before)?;
    longer.push(character)?;
    longer.push_str(after)?;
    Text::of(alloc, longer.as_str())
}

// A text without what stands between two places.
pub(crate) fn without_part(
    alloc: Global,
    text: &str,
    from: usize,
    to: usize,
) -> Result<Text, NoMemory>
    requires from { is_edge text.now from ≡ true }
    requires to { is_edge text.now to ≡ true }
    ensures { IfOk result (λ shorter. shorter ≡ without_part text.now from to) }
{
    let (before, _) = text.split_at(from);
    let (_, after) = text.split_at(to);
    let mut shorter = String::from_str(alloc, before)?;
    shorter.push_str(after)?;
    Text::of(alloc, shorter.as_str())
}
