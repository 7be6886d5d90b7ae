//! What holds of openings, as contracts of functions that do nothing.

ghost use Rattle.tx_opening.specs.OpeningFaults.{FaultsAreFirst, OpeningsAreRead};

/// A tree of built-in kinds with inline texts of the grammar, spelled in a file, and a sheet of the
/// grammar are read, as what they are.
pub fn openings_are_read()
    ensures { OpeningsAreRead }
{
    tx_tree_file::laws::files_are_read();
}

/// What is reported of a tree file is its first fault: of the grammar, else of the kinds, else of the
/// inline texts.
pub fn faults_are_first()
    ensures { FaultsAreFirst }
{
    tx_tree_file::laws::one_fault();
}
