//! Laws on the definitions.
ghost use Rattle.tx_app.specs.Faults.{OrdinaryPicturesAreAccepted, PicturesAreAccepted, SheetsAreAccepted, TreesAreAccepted};

/// Where the words ask for the counts of a sheet and the file holds one, by the grammar and within
/// the limit, the plan of the words finds all that it asks for.
pub fn sheets_are_accepted()
    ensures { SheetsAreAccepted }
{}

/// Where the words ask for the rows of a tree that a selector matches, the selector is in its
/// grammar, and the file spells a tree within the limit, of built-in kinds and with inline texts in the
/// grammar, the plan of the words finds all that it asks for.
pub fn trees_are_accepted()
    ensures { TreesAreAccepted }
{
    tx_select::laws::wholes_are_read();
    tx_tree_file::laws::files_are_read();
}

/// Where the words ask for a picture, the files spell such a tree and hold a sheet, by the grammar and
/// each within the limit, and the picture is defined, the plan of the words finds all that it asks for.
pub fn pictures_are_accepted()
    ensures { PicturesAreAccepted }
{
    tx_tree_file::laws::files_are_read();
}

/// The same without a word on the picture, where the sizes in the sheet and in the inline texts have at
/// most 9 whole digits and 3 decimals and each row has at most 1,000 children, on a screen within the
/// limits.
pub fn ordinary_pictures_are_accepted()
    ensures { OrdinaryPicturesAreAccepted }
{
    tx_tree_file::laws::files_are_read();
    tx_map::laws::ordinary_sheets();
}
