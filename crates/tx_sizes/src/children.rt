//! The children of a row.

ghost use Rattle.std.specs.Prelude.{◌≡◌, ◌≤◌, length, All, IfOk};
ghost use Rattle.tx_layout.specs.Style.{IsBoxStyle};
ghost use Rattle.tx_sizes.specs.Counts.{counts, AreChildren};

use crate::rows::StyledRow;
use std::alloc::Global;
use tx_geom::Axis;
use tx_layout::BoxStyle;
use tx_look::box_style;
use tx_text::NoMemory;
use tx_value::Style;

/// The children of a row that take part, in the order of the document.
#[derive(Drop)]
pub struct Children {
    pub styles: Vec<BoxStyle>,
    /// Where each of them stands among the rows after the one that they are children of.
    pub starts: Vec<u32>,
}

/// The children of a row of this style and depth that are displayed. The rows are those after it in
/// preorder, each with the number of the rows below it. It takes no longer than there are children.
pub fn children_of(
    alloc: Global,
    container: &Style,
    depth: u32,
    rows: &[StyledRow<'_>],
    below: &[u32],
) -> Result<Children, NoMemory>
    requires below { below.now ≡ counts rows.now }
    requires few { length rows.now ≤ 65536 }
    ensures exact { IfOk result (λ children. AreChildren container.now depth rows.now children.styles.items children.starts.items) }
    ensures accepted { IfOk result (λ children. All IsBoxStyle children.styles.items) }
    ensures few { IfOk result (λ children. length children.styles.items ≤ 65536) }
    ensures as_many { IfOk result (λ children. length children.styles.items ≡ length children.starts.items) }
{
    // A loop that carries boxes wants a size at hand.
    let _width = container.size(Axis::Width);
    let mut styles = Vec::new(alloc);
    let mut starts = Vec::new(alloc);
    let mut at: usize = 0;
    while at < rows.len() {
        let row = &rows[at];
        if row.depth() <= depth {
            return Ok(Children { styles, starts });
        }
        let next = at + (1 + below[at] as usize);
        if !row.is_taking_part() {
            at = next;
            continue;
        }
        styles.push(box_style(container, row.style()))?;
        starts.push(at as u32)?;
        at = next;
    }
    Ok(Children { styles, starts })
}
