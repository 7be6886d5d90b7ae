//! What holds of the rows of a tree, as contracts of functions that do nothing.

ghost use Rattle.tx_tree.specs.Kind.{FoundByName};
ghost use Rattle.tx_tree.specs.Walk.{WalksOn};

/// Whoever begins at the first row and goes on by [`crate::Tree::next`] meets each row once, in
/// preorder: the rows from a node on are its own row and then those from the next one on.
pub fn walk()
    ensures { WalksOn }
{}

/// Each built-in kind is found by its name, so that the list of them is whole and no two have one
/// name.
pub fn kinds()
    ensures { FoundByName }
{}
