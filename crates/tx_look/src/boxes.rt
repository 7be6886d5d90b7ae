//! The box of a row.

ghost use Rattle.std.specs.Prelude.{◌≡◌};
ghost use Rattle.tx_layout.specs.Style.{IsBoxStyle};
ghost use Rattle.tx_look.specs.Boxes.{box_style};

use crate::layers::layer_number;
use tx_geom::Axis;
use tx_layout::BoxStyle;
use tx_value::Style;
use tx_value::laws::reads_are_within;

/// What the style of a row says of its box in a container.
///
/// Its gutter is its padding and one cell for each border edge that is set. Its layer has the number
/// that the container's `layers` gives it. It meets the conditions of the calls of [`tx_layout`]. It
/// takes no memory.
pub fn box_style(container: &Style, own: &Style) -> BoxStyle
    ensures exact { result ≡ box_style container.now own.now }
    ensures accepted { IsBoxStyle result }
{
    reads_are_within();
    BoxStyle {
        width: own.size(Axis::Width),
        height: own.size(Axis::Height),
        least: [own.least(Axis::Width), own.least(Axis::Height)],
        most: [own.most(Axis::Width), own.most(Axis::Height)],
        margin: own.margin(),
        gutter: own.gutter(),
        sizing: own.box_sizing(),
        dock: own.dock(),
        layer: layer_number(container, own),
        offset: own.offset(),
        column_span: own.column_span(),
        row_span: own.row_span(),
    }
}
