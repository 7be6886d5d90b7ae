//! Rows with their styles.

ghost use Rattle.std.specs.Prelude.{◌≡◌, ◌≤◌, length, IfOk};
ghost use Rattle.tx_cascade.specs.Styles.{all_styles};
ghost use Rattle.tx_sizes.specs.Forest.{depth, styled_rows};
ghost use Rattle.tx_sizes.specs.Measures.{is_taking_part};
ghost use Rattle.tx_tree.specs.Kind.{holds_children};
ghost use Rattle.tx_tree.specs.Row.{plain};

use std::alloc::Global;
use std::marker::Model;
use tx_cascade::Styles;
use tx_text::NoMemory;
use tx_tree::{Row, Tree};
use tx_value::Style;

/// A row of a tree with its style.
#[derive(Drop)]
pub struct StyledRow<'a> {
    row: &'a Row,
    style: &'a Style,
}

impl<'a> Model for StyledRow<'a> {
    ghost use Rattle.tx_tree.specs.Row.{plain};
    ghost use Rattle.tx_sizes.specs.Forest.{Styled};

    ghost Value = { Styled };

    ghost view = { λ s. record { row = plain s.row.now; style = s.style.now } };
}

impl<'a> StyledRow<'a> {
    /// How many rows it stands below.
    pub fn depth(&self) -> u32
        ensures { result ≡ depth self.now }
    {
        self.row.depth
    }

    /// Whether it is of a kind that has children.
    pub fn is_container(&self) -> bool
        ensures { result ≡ holds_children self.now.row.kind }
    {
        self.row.kind.holds_children()
    }

    /// Whether there is room for it and for the rows below it.
    pub fn is_taking_part(&self) -> bool
        ensures { result ≡ is_taking_part self.now }
    {
        self.style.is_displayed()
    }

    /// The row.
    pub fn row(&self) -> &'a Row
        ensures { plain result.now ≡ self.now.row }
    {
        self.row
    }

    /// Its style.
    pub fn style(&self) -> &'a Style
        ensures { result.now ≡ self.now.style }
    {
        self.style
    }
}

/// The rows of a tree in preorder, each with its style.
pub fn styled_rows<'a>(
    alloc: Global,
    tree: &'a Tree,
    styles: &'a Styles,
) -> Result<Vec<StyledRow<'a>>, NoMemory>
    requires same { styles.now.rows ≡ tree.now.rows }
    ensures few { IfOk result (λ rows. length rows.items ≤ 65536) }
    ensures exact { IfOk result (λ rows. rows.items ≡ styled_rows (all_styles styles.now.sheet styles.now.state tree.now.rows) tree.now.rows) }
{
    let _root = tree.root();
    let mut rows = Vec::new(alloc);
    for row in tree.walk() {
        let Some(style) = styles.style(row.node) else {
            unreachable!()
        };
        rows.push(StyledRow { row, style })?;
    }
    Ok(rows)
}
