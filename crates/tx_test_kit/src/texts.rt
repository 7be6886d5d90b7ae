//! Trees and sheets.
ghost use Rattle.std.specs.Prelude.{◌≡◌, IfOk, string_bytes};
ghost use Rattle.tx_tree_file.specs.Spelling.{spelling};
ghost use Rattle.tx_tree_file.specs.TreeFile.{IsReading};

use std::alloc::{AllocError, Global};
use std::str;
use std::test::Fail;
use tx_expect::expect;
use tx_parse::{Sheet, SheetFault, read_sheet};
use tx_tree::{Tree, TreeFault};
use tx_tree_file::{read_tree, write_tree};

/// More bytes than a text of a test has.
const MOST_BYTES: usize = 1_000_000;

/// A text with line feeds in place of `/`, and one at its end.
pub fn lines_of(alloc: Global, text: &str) -> Result<String, AllocError> {
    let mut lines = String::new(alloc);
    for line in text.split('/') {
        lines.push_str(line)?;
        lines.push_str("\n")?;
    }
    Ok(lines)
}

/// The number that a word of decimal digits is.
pub fn number_of(word: &str) -> Result<u32, Fail> {
    Ok(word.parse::<u32>().ok().ok_or("a number")?)
}

/// The numbers of two words with a blank between them.
pub fn pair_of(text: &str) -> Result<(u32, u32), Fail> {
    let (first, second) = text.split_once(' ').ok_or("two numbers")?;
    Ok((number_of(first)?, number_of(second)?))
}

/// The tree that a tree file's text spells. It fails where that is none.
pub fn tree_of(alloc: Global, text: &str) -> Result<Tree, Fail>
    ensures { IfOk result (λ tree. IsReading text.now tree) }
{
    if text.len() > MOST_BYTES {
        return Err(Fail::from("a tree's text is too long"));
    }
    match read_tree(alloc, text.as_bytes()) {
        Ok(tree) => Ok(tree),
        Err(TreeFault::NoMemory) => Err(Fail::from("no memory")),
        Err(_) => Err(Fail::from("a tree's text is refused")),
    }
}

/// The text of the tree file that holds a tree. It fails where the tree has no spelling.
pub fn tree_text(alloc: Global, tree: &Tree) -> Result<String, Fail>
    ensures { IfOk result (λ text. string_bytes text ≡ spelling tree.now.rows) }
{
    expect(tree.spelled(), "a tree has no spelling")?;
    let bytes = write_tree(alloc, tree)?;
    match str::from_utf8(&bytes) {
        Ok(text) => Ok(String::from_str(alloc, text)?),
        Err(_) => Err(Fail::from("a tree's text isn't UTF-8")),
    }
}

/// The sheet that a text is. It fails where that is none.
pub fn sheet_of(alloc: Global, text: &str) -> Result<Sheet, Fail> {
    if text.len() > MOST_BYTES {
        return Err(Fail::from("a sheet is too long"));
    }
    match read_sheet(alloc, text.as_bytes()) {
        Ok(sheet) => Ok(sheet),
        Err(SheetFault::NoMemory) => Err(Fail::from("no memory")),
        Err(_) => Err(Fail::from("a sheet is refused")),
    }
}
