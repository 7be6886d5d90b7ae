//! What holds of forests and measures.

ghost use Rattle.tx_sizes.specs.Laws.{KeepsRows, SubtreesStandAlone, SubtreesDecide};
ghost use Rattle.tx_sizes.specs.Ordinary.{OrdinaryRows};

/// The rows of a tree with the rows below each of them are these rows in preorder.
pub fn forests_keep_their_rows()
    ensures { KeepsRows }
{}

/// Below a row stand the deeper ones directly after it, and nothing else.
pub fn subtrees_stand_alone()
    ensures { SubtreesStandAlone }
{}

/// What a row measures depends on nothing but the width and the area that are asked for, the screen,
/// and the row and the rows below it with their styles.
pub fn subtrees_decide()
    ensures { SubtreesDecide }
{}

/// What rows measure is always defined where the sizes in their styles have at most 9 whole digits
/// and 3 decimals and no row has more than 1,000 children: on a screen and in areas of at most 2^23
/// cells, at widths of at most 65,535.
pub fn ordinary_rows()
    ensures { OrdinaryRows }
{
    tx_layout::laws::ordinary_children();
    tx_look::laws::ordinary_looks();
}
