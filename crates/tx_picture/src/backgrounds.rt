//! The background under each row of a tree.

ghost use Rattle.std.specs.Prelude.{◌≡◌, Some, IfOk};
ghost use Rattle.tx_node_map.specs.Held.{held};
ghost use Rattle.tx_picture.specs.Backgrounds.{AreBackgrounds, ParentIsHeld};
ghost use Rattle.tx_picture.specs.Picture.{background_under};

use std::alloc::{AllocError, Global};
use tx_cascade::Styles;
use tx_geom::Rgb;
use tx_node_map::NodeMap;
use tx_paint::{background_over, ground};
use tx_text::NoMemory;
use tx_tree::{NodeId, Tree};

// The background under a row, where the one under its parent is among these.
fn background_under(
    tree: &Tree,
    styles: &Styles,
    dark: bool,
    backgrounds: &NodeMap<Rgb>,
    node: NodeId,
) -> Rgb
    requires same { styles.now.rows ≡ tree.now.rows }
    requires dark { styles.now.state.dark ≡ dark }
    requires above { ParentIsHeld styles.now node.0 (held backgrounds.now) }
    ensures { result ≡ background_under styles.now node.0 }
{
    let _root = tree.root();
    let Some(parent) = tree.parent(node) else {
        return ground();
    };
    let Some(above) = backgrounds.get(parent) else {
        unreachable!()
    };
    let Some(style) = styles.style(parent) else {
        unreachable!()
    };
    background_over(style, dark, *above)
}

/// The background under each row of a tree, each found from that under its parent.
pub fn backgrounds_of(
    alloc: Global,
    tree: &Tree,
    styles: &Styles,
    dark: bool,
) -> Result<NodeMap<Rgb>, NoMemory>
    requires same { styles.now.rows ≡ tree.now.rows }
    requires dark { styles.now.state.dark ≡ dark }
    ensures { IfOk result (λ backgrounds. AreBackgrounds styles.now tree.now.rows (held backgrounds)) }
{
    let _root = tree.root();
    let mut backgrounds = NodeMap::new(alloc);
    for row in tree.walk() {
        let under = background_under(tree, styles, dark, &backgrounds, row.node);
        let Ok(()) = backgrounds.insert(row.node, under) else {
            return Err(AllocError);
        };
    }
    Ok(backgrounds)
}
