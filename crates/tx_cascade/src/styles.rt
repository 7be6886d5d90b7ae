//! The styles of all rows.
ghost use Rattle.std.specs.Prelude.{◌≡◌, ◌*◌, Some, None, length, IfOk, OnOk, OnErr, MatchOption, option_copied};
ghost use Rattle.tx_tree.specs.Row.{plain};
ghost use Rattle.tx_tree.specs.Rows.{row_at};
ghost use Rattle.tx_node_map.specs.Held.{held};
ghost use Rattle.tx_cascade.specs.Cascade.{styled, up_from, IsStyleOf};
ghost use Rattle.tx_cascade.specs.Edits.{Leads};
ghost use Rattle.tx_cascade.specs.Reaching.{selectors_in};
ghost use Rattle.tx_cascade.specs.Styles.{all_styles, ParentIsStyled, ArePlaced, style_placed, scene};
ghost use Rattle.tx_cascade.specs.Tested.{TestedAtMost};
ghost use Rattle.tx_cascade.specs.Matchers.{matchers_of};

use crate::edit::Edit;
use crate::path::row_style;
use crate::sharing::SharedStyles;
use std::alloc::{AllocError, Global};
use std::marker::Model;
use std::snapshot::Snapshot;
use tx_io::{Ledger, Steps};
use tx_parse::Sheet;
use tx_select::Pseudo;
use tx_text::NoMemory;
use tx_tree::{NodeId, Row, Tree};
use tx_value::Style;

/// The style of each row of a tree under a sheet. It is seen as the sheet, the rows and the pseudo
/// state that it was made of. A row whose style equals one of the sixteen that were made last shares
/// it; each other one takes 3,360 bytes and what its lists hold.
#[derive(Drop)]
pub struct Styles {
    alloc: Global,
    styles: SharedStyles,
    sheet: Snapshot<Sheet>,
    tree: Snapshot<Tree>,
    pseudo: Snapshot<Pseudo>,
}

impl Model for Styles {
    ghost use Rattle.std.specs.Prelude.{◌≡◌};
    ghost use Rattle.tx_node_map.specs.Held.{held};
    ghost use Rattle.tx_tree.specs.Walk.{NumbersDiffer};
    ghost use Rattle.tx_cascade.specs.Styles.{StylesValue, ArePlaced, all_styles};

    ghost Value = { StylesValue };

    ghost view = { λ s. record { sheet = s.sheet.value; rows = s.tree.value.rows; state = s.pseudo.value } };

    ghost invariant = { λ s. ArePlaced s.styles.made.items (held s.styles.places) (all_styles s.sheet.value s.pseudo.value s.tree.value.rows) × NumbersDiffer s.tree.value.rows };
}

/// The style of a row, which is there, where its parent's is among these.
fn style_among<L: Ledger>(
    alloc: Global,
    styles: &SharedStyles,
    sheet: &Sheet,
    tree: &Tree,
    pseudo: &Pseudo,
    row: &Row,
    steps: &mut Steps<L>,
) -> Result<Style, NoMemory>
    requires there { row_at row.now.node.0 tree.now.rows ≡ Some (plain row.now) }
    requires above { ParentIsStyled sheet.now pseudo.now tree.now.rows row.now.node.0 (style_placed styles.now.made.items (held styles.now.places)) }
    ensures exact { IfOk result (λ style. style ≡ styled (matchers_of pseudo.now tree.now.rows) sheet.now (up_from tree.now.rows row.now.node.0)) }
    ensures ticks { TestedAtMost L.ticked (selectors_in sheet.now) steps.old.ledger steps.new.ledger }
{
    let _root = tree.root();
    let Some(parent) = tree.parent(row.node) else {
        let above = Style::initial(alloc)?;
        return row_style(alloc, sheet, tree, pseudo, row, &above, steps);
    };
    let Some(above) = styles.get(parent) else {
        unreachable!()
    };
    row_style(alloc, sheet, tree, pseudo, row, above, steps)
}

/// The styles of all rows, each row after its parent.
pub fn styles_of<L: Ledger>(
    alloc: Global,
    sheet: &Sheet,
    tree: &Tree,
    pseudo: &Pseudo,
    steps: &mut Steps<L>,
) -> Result<SharedStyles, NoMemory>
    ensures exact { IfOk result (λ styles. ArePlaced styles.made.items (held styles.places) (all_styles sheet.now pseudo.now tree.now.rows)) }
    ensures ticks { TestedAtMost L.ticked (selectors_in sheet.now * length tree.now.rows) steps.old.ledger steps.new.ledger }
{
    let _root = tree.root();
    let mut styles = SharedStyles::new(alloc);
    for row in tree.walk() {
        let style = style_among(alloc, &styles, sheet, tree, pseudo, row, steps)?;
        styles.insert(row.node, style)?;
    }
    Ok(styles)
}

impl Styles {
    /// The styles of all rows of a tree, each as [`crate::style_of`] gives it. At most one `Test` is
    /// ticked for each selector of the sheet and the default sheet at each row, and nothing else.
    /// NoMemory is the only error.
    pub fn open<L: Ledger>(
        alloc: Global,
        sheet: &Sheet,
        tree: &Tree,
        pseudo: &Pseudo,
        steps: &mut Steps<L>,
    ) -> Result<Styles, NoMemory>
        ensures seen { IfOk result (λ styles. styles ≡ scene sheet.now tree.now.rows pseudo.now) }
        ensures ticks { TestedAtMost L.ticked (selectors_in sheet.now * length tree.now.rows) steps.old.ledger steps.new.ledger }
    {
        let _root = tree.root();
        let styles = styles_of(alloc, sheet, tree, pseudo, steps)?;
        Ok(Styles {
            alloc,
            styles,
            sheet: Snapshot::of(sheet),
            tree: Snapshot::of(tree),
            pseudo: Snapshot::of(pseudo),
        })
    }

    /// The styles of all rows of a tree that these edits lead to, under the same sheet. Edits lead
    /// from one tree and pseudo state to another where each part in which they differ is named by one
    /// of them. NoMemory is the only error, and all styles are then as they were. Until then the old and the new
    /// ones are both held. At most one `Test` is ticked for each selector of the sheet and the
    /// default sheet at each row.
    pub fn restyle<L: Ledger>(
        &mut self,
        sheet: &Sheet,
        tree: &Tree,
        pseudo: &Pseudo,
        edits: &[Edit],
        steps: &mut Steps<L>,
    ) -> Result<(), NoMemory>
        requires sheet { sheet.now ≡ self.old.sheet }
        requires lead { Leads edits.now self.old.rows self.old.state tree.now.rows pseudo.now }
        ensures ok { OnOk result (self.new ≡ scene sheet.now tree.now.rows pseudo.now) }
        ensures err { OnErr result (self.new ≡ self.old) }
        ensures ticks { TestedAtMost L.ticked (selectors_in sheet.now * length tree.now.rows) steps.old.ledger steps.new.ledger }
    {
        let _edits = edits;
        let Ok(styles) = Styles::open(self.alloc, sheet, tree, pseudo, steps) else {
            return Err(AllocError);
        };
        *self = styles;
        Ok(())
    }

    /// The style of the row of a node; None exactly where there was no such row. It takes no memory.
    pub fn style(&self, node: NodeId) -> Option<&Style>
        ensures style { MatchOption result (row_at node.0 self.now.rows ≡ None)
            (λ style. IsStyleOf self.now.sheet self.now.state self.now.rows node.0 style.now) }
        ensures exact { option_copied result ≡ all_styles self.now.sheet self.now.state self.now.rows node.0 }
    {
        self.styles.get(node)
    }
}
