//! What holds of every map.

ghost use Rattle.tx_map.specs.Keys.{KeysDiffer, KeysInOrder, ScreenAloneIsLowest};
ghost use Rattle.tx_map.specs.Laws.{EntriesAreOfRows, NodesHaveOneEntry, RefusedAreNamed, SubtreesArrange, SubtreesAreMapped, ScreenFills, ScreenIsFirst, ScrollsAreKept, ShownHaveEntries, SubtreesAreClipped, ViewportsClip};
ghost use Rattle.tx_map.specs.Moving.{ScrollsMove, SubtreesMove};
ghost use Rattle.tx_map.specs.Outcomes.{FirstIsNamed};
ghost use Rattle.tx_map.specs.Ordinary.{OrdinaryScenes};
ghost use Rattle.tx_map.specs.OrdinarySheets.{OrdinarySheets};

use tx_sizes::laws::{forests_keep_their_rows, subtrees_stand_alone};

/// The bars of a row and where its children stand beside them depend on nothing but the size of its
/// content, the screen, and the row and the rows below it with their styles and the pictures of
/// those below it.
pub fn subtrees_arrange()
    ensures { SubtreesArrange }
{
    subtrees_stand_alone();
    forests_keep_their_rows();
}

/// The entries of a row and of the rows below it depend on nothing but where the row stands, the
/// screen, these rows with their styles, how far they are scrolled, and the pictures of those below
/// it.
pub fn subtrees_are_mapped()
    ensures { SubtreesAreMapped }
{
    subtrees_stand_alone();
    forests_keep_their_rows();
}

/// The Screen fills the screen, whatever its style says.
pub fn screen_fills()
    ensures { ScreenFills }
{}

/// A map begins with the entry of the first row, which is the Screen, and this one fills the screen.
pub fn screen_is_first()
    ensures { ScreenIsFirst }
{}

/// Of a row and of the rows below it nothing shows but in the row's own clip.
pub fn subtrees_are_clipped()
    ensures { SubtreesAreClipped }
{}

/// Of the rows below a row nothing shows but in that row's viewport.
pub fn viewports_clip()
    ensures { ViewportsClip }
{}

/// The scroll of each entry is at most what its children go over, and 0 along an axis that its row
/// hides.
pub fn scrolls_are_kept()
    ensures { ScrollsAreKept }
{
    forests_keep_their_rows();
}

/// Where a map is undefined, the container that it names is a row of the tree whose own arrangement
/// is undefined along that axis, in some region.
pub fn refused_are_named()
    ensures { RefusedAreNamed }
{}

/// The entries of a map are those of rows of the tree, one for each of these rows, in the order of
/// the document.
pub fn entries_are_of_rows()
    ensures { EntriesAreOfRows }
{
    forests_keep_their_rows();
}

/// Where no two rows have one node, no two entries have, and each entry is the one that is found by
/// its node.
pub fn nodes_have_one_entry()
    ensures { NodesHaveOneEntry }
{
    forests_keep_their_rows();
}

/// The rows that have entries, in the order of the document, are the Screen and each row that is
/// displayed and finds room in a row that has one. Only a child of a grid may find none, and a child
/// of a row of a kind without children finds none. No size of a row, of an area or of the screen
/// counts.
pub fn shown_have_entries()
    ensures { ShownHaveEntries }
{
    tx_layout::laws::celled_have_regions();
    tx_scroll::laws::shows_the_arrangement_beside_the_bars();
}

/// No two entries of a map have one key, and only that of the Screen has the empty one.
pub fn keys_differ()
    ensures differ { KeysDiffer }
    ensures lowest { ScreenAloneIsLowest }
{}

/// All rows below a row are before it. Of two children of a container that in the layer of greater
/// number is before the other, in one layer a docked one is before those that follow others, and else
/// the later one; and so are all rows below it before those below the other.
pub fn keys_in_order()
    ensures { KeysInOrder }
{}

/// A row that stands elsewhere takes the rows below it along by as much: nothing else of their
/// entries changes but what of them can show.
pub fn subtrees_move()
    ensures { SubtreesMove }
{}

/// A child of a scrolled container that follows others stands where it would without the scroll, moved
/// by exactly the scroll to the left and up, and so do the rows below it. A docked one isn't moved.
/// Nothing else of their entries changes but what of them can show.
pub fn scrolls_move()
    ensures { ScrollsMove }
{}

/// Of all rows that are reached each comes to its entry or is undefined, whatever the others come to.
/// The map has all these entries, or names the first undefined row in the order of the document. A
/// row is reached where the row above it is and isn't undefined, and it is displayed and finds room.
pub fn first_is_named()
    ensures { FirstIsNamed }
{}

/// The map is always defined where the sizes in all styles have at most 9 whole digits and 3 decimals
/// and each row has at most 1,000 children, on a screen with sides of at most 2^23 cells.
pub fn ordinary_scenes()
    ensures { OrdinaryScenes }
{
    tx_layout::laws::ordinary_children();
    tx_scroll::laws::defined_where_arranged();
    tx_scroll::laws::shows_the_arrangement_beside_the_bars();
    tx_sizes::laws::ordinary_rows();
}

/// The map is always defined where the sizes in the sheet and in the inline texts have at most 9 whole
/// digits and 3 decimals and each row has at most 1,000 children, on a screen with sides of at most
/// 2^23 cells.
pub fn ordinary_sheets()
    ensures { OrdinarySheets }
{
    tx_frac::laws::one_form();
    ordinary_scenes();
}
