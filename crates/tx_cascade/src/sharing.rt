//! Styles by node, of which equal ones may stand in one place.
ghost use Rattle.std.specs.Prelude.{◌≡◌, ℕ, List, Option, Some, slice_get, IfOk, IfSome, OnOk, option_copied};
ghost use Rattle.tx_node_map.specs.Held.{held, nothing, with_at};
ghost use Rattle.tx_value.specs.Style.{IsStyle};
ghost use Rattle.tx_value.specs.declared.value.Value.{Value};
ghost use Rattle.tx_cascade.specs.Styles.{AreWhole, StillStand, ArePlaced, style_placed};

use crate::sameness::is_same_style;
use std::alloc::{AllocError, Global};
use tx_node_map::NodeMap;
use tx_text::NoMemory;
use tx_tree::NodeId;
use tx_value::Style;

// A style is looked for among so many that were made last.
const RECENT: usize = 16;

/// The place of a style that equals this one, if one of those made last does.
fn find_equal(made: &[Style], style: &Style) -> Option<usize>
    requires made { AreWhole made.now }
    requires style { IsStyle style.now }
    ensures { IfSome result (λ place. slice_get made.now place ≡ Some style.now) }
{
    for place in made.len().saturating_sub(RECENT)..made.len() {
        if is_same_style(&made[place], style) {
            return Some(place);
        }
    }
    None
}

/// The place of a style among those made. Unless an equal one is found it is added as the last.
fn place_of(made: &mut Vec<Style>, style: Style) -> Result<usize, NoMemory>
    requires made { AreWhole made.old.items }
    requires style { IsStyle style }
    ensures made { AreWhole made.new.items }
    ensures found { IfOk result (λ place. slice_get made.new.items place ≡ Some style) }
    ensures kept { StillStand made.old.items made.new.items }
{
    if let Some(place) = find_equal(made.as_slice(), &style) {
        return Ok(place);
    }
    let place = made.len();
    let Ok(()) = made.push(style) else {
        return Err(AllocError);
    };
    Ok(place)
}

/// Styles by node. Nodes that have equal styles may share the place of one.
#[derive(Drop)]
pub struct SharedStyles {
    pub made: Vec<Style>,
    pub places: NodeMap<usize>,
}

impl SharedStyles {
    /// No styles. It takes no memory.
    pub fn new(alloc: Global) -> SharedStyles
        ensures made { AreWhole result.made.items }
        ensures none { ArePlaced result.made.items (held result.places) nothing }
    {
        SharedStyles {
            made: Vec::new(alloc),
            places: NodeMap::new(alloc),
        }
    }

    /// The style of a node; None exactly where it has none.
    pub fn get(&self, node: NodeId) -> Option<&Style>
        ensures { option_copied result ≡ style_placed self.now.made.items (held self.now.places) node.0 }
    {
        let place = *self.places.get(node)?;
        self.made.get(place)
    }

    /// Gives a node a style.
    pub fn insert(&mut self, node: NodeId, style: Style) -> Result<(), NoMemory>
        requires made { AreWhole self.old.made.items }
        requires style { IsStyle style }
        ensures made { AreWhole self.new.made.items }
        ensures placed { OnOk result ((styles : ℕ → Option (List Value)) → ArePlaced self.old.made.items (held self.old.places) styles
            → ArePlaced self.new.made.items (held self.new.places) (with_at styles node.0 (Some style))) }
    {
        let place = place_of(&mut self.made, style)?;
        let Ok(()) = self.places.insert(node, place) else {
            return Err(AllocError);
        };
        Ok(())
    }
}
