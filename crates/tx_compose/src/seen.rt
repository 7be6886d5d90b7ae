//! Which rows of a map are visible.

ghost use Rattle.std.specs.Prelude.{◌≡◌, IfOk};
ghost use Rattle.tx_cascade.specs.Styles.{all_styles};
ghost use Rattle.tx_compose.specs.Seen.{AreSeen};
ghost use Rattle.tx_node_map.specs.Held.{held};
ghost use Rattle.tx_owner.specs.Owner.{is_seen};

use std::alloc::{AllocError, Global};
use tx_cascade::Styles;
use tx_map::Entry;
use tx_node_map::NodeMap;
use tx_text::NoMemory;

// Whether an entry is seen: its row is visible, or is the Screen.
fn is_seen(styles: &Styles, entry: &Entry) -> bool
    ensures { result ≡ is_seen (all_styles styles.now.sheet styles.now.state styles.now.rows) entry.now }
{
    if entry.key.as_slice().is_empty() {
        return true;
    }
    match styles.style(entry.node) {
        Some(style) => style.is_visible(),
        None => true,
    }
}

/// Whether the row of each entry is visible.
pub fn seen_of(alloc: Global, styles: &Styles, entries: &[Entry]) -> Result<NodeMap<bool>, NoMemory>
    ensures { IfOk result (λ seen. AreSeen (is_seen (all_styles styles.now.sheet styles.now.state styles.now.rows)) entries.now (held seen)) }
{
    let mut seen = NodeMap::new(alloc);
    for at in (0..entries.len()).rev() {
        let entry = &entries[at];
        let Ok(()) = seen.insert(entry.node, is_seen(styles, entry)) else {
            return Err(AllocError);
        };
    }
    Ok(seen)
}
