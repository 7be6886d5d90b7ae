//! What a screen tells of the rows that it shows.

ghost use Rattle.std.specs.Prelude.{◌≡◌};

use crate::screen::Screen;
use tx_geom::Region;
use tx_tree::NodeId;
use tx_widgets::Sight;

/// Over the frame of the last accepted refresh, as the calls of the same names say.
impl Sight for Screen {
    ghost use Rattle.tx_compose.specs.Frame.{reported};
    ghost use Rattle.tx_compose.specs.Sight.{lawful, is_lawful};

    ghost frame = { λ s. lawful (reported s.accepted) };

    fn owner(&self, x: u32, y: u32) -> Option<NodeId> {
        Screen::owner(self, x, y)
    }

    fn spot(&self, node: NodeId) -> Option<(u32, u32)> {
        Screen::spot(self, node)
    }

    fn region(&self, node: NodeId) -> Option<Region> {
        Screen::region(self, node)
    }

    fn shown(&self, node: NodeId) -> bool {
        Screen::shown(self, node)
    }

    ghost law = { λ s. is_lawful (reported s.accepted) };
}
