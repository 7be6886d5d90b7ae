//! What holds of tree files, as contracts of functions that do nothing.

ghost use Rattle.tx_tree_file.specs.Laws.{FilesAreRead, OneText, OneFault, ReadAgain};
ghost use Rattle.tx_tree_file.specs.Words.{WordsAreRead};

/// A file is read exactly where it spells a tree, and as that tree.
pub fn files_are_read()
    ensures { FilesAreRead }
{}

/// No two texts are read as the same rows.
pub fn one_text()
    ensures { OneText }
{}

/// What is written is read again, as the same rows with nodes numbered anew and what a file keeps
/// of their state.
pub fn read_again()
    ensures { ReadAgain }
{}

/// What is reported of a file is its first fault, and it has only one.
pub fn one_fault()
    ensures { OneFault }
{}

/// The words that other texts have too are read exactly where they are spelled.
pub fn words_are_read()
    ensures { WordsAreRead }
{}
