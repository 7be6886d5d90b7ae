//! The tree and the frame of the tests.

use super::panes::Pane;

/// Ten rows: the Screen 1, #box 2 with #go 3 and #name 4, #off 5 with #no 6, #list 7 with #check 8,
/// #text 9 and #hidden 10.
pub const TREE: &str = "Screen
  bind priority f1 toggle_dark
  bind f2 toggle_dark
  Container #box
    bind priority f1 toggle_class boxed
    bind priority f3 focus_next
    bind f4 scroll_up
    Button #go \"Go\"
      bind priority f3 focus_previous
      bind f5 scroll_up
      bind priority f5 scroll_home
      bind priority f5 scroll_end
      bind f6 scroll_home
      bind f6 scroll_end
    Input #name
  Container #off disabled
    bind priority f7 page_up
    Button #no \"No\"
      bind f2 page_down
  VerticalScroll #list
    Checkbox #check
  Static #text \"text\"
  Static #hidden \"hidden\"
";

/// A screen of 20 columns and 6 rows. The row 11 isn't in the tree, #hidden has no pane, and
/// #check lies over all of #list and over the corner of #text.
pub const ALL: [Pane; 10] = [
    (11, 18, 0, 2, 1, 18, 0),
    (3, 2, 1, 6, 2, 2, 1),
    (4, 10, 1, 5, 1, 10, 1),
    (6, 2, 4, 4, 1, 2, 4),
    (8, 12, 3, 4, 2, 12, 3),
    (7, 12, 3, 3, 1, 12, 3),
    (9, 15, 4, 3, 2, 16, 4),
    (2, 0, 0, 16, 3, 0, 0),
    (5, 0, 4, 10, 1, 0, 4),
    (1, 0, 0, 20, 6, 16, 0),
];

/// The same where only #name has a pane.
pub const ONE: [Pane; 1] = [(4, 10, 1, 5, 1, 10, 1)];

/// The same where #go, #name and #check have one, and two rows that can't have the focus.
pub const THREE: [Pane; 5] = [
    (3, 2, 1, 6, 2, 2, 1),
    (4, 10, 1, 5, 1, 10, 1),
    (6, 2, 4, 4, 1, 2, 4),
    (8, 12, 3, 4, 2, 12, 3),
    (1, 0, 0, 20, 6, 16, 0),
];
