//! What a frame tells.

ghost use Rattle.std.specs.Prelude.{◌≡◌};

use tx_geom::Region;
use tx_tree::NodeId;

/// What a frame tells of the rows that it shows. Columns and rows of cells are counted from 0 at the
/// upper left corner of the screen. No call of it takes memory.
///
/// Where a cell has an owner, the owner's region holds that cell; and a row owns the cell at its
/// spot.
pub trait Sight {
    ghost use Rattle.tx_widgets.specs.Frame.{FrameValue, IsFrame};

    /// What the frame tells.
    ghost frame: { Self → FrameValue };

    /// The node of the row that owns the cell in column `x` and row `y`, if one does.
    fn owner(&self, x: u32, y: u32) -> Option<NodeId>
        ensures owner { result ≡ (frame self.now).owner x y };

    /// The column and the row of a cell that this row owns, where it can be pointed at.
    fn spot(&self, node: NodeId) -> Option<(u32, u32)>
        ensures spot { result ≡ (frame self.now).spot node };

    /// The region of this row on the screen, in cells, if it has one.
    fn region(&self, node: NodeId) -> Option<Region>
        ensures region { result ≡ (frame self.now).region node };

    /// Whether this row is shown.
    fn shown(&self, node: NodeId) -> bool
        ensures shown { result ≡ (frame self.now).shown node };

    ghost law: { (sight : Self) → IsFrame (frame sight) };
}
