//! A picture of a tree under a sheet.
ghost use Rattle.std.specs.Prelude.{◌<◌, ◌^◌, [], length, IfOk};
ghost use Rattle.tx_compose.specs.Presented.{IsScreen};
ghost use Rattle.tx_parse.specs.Texts.{sheet_of};
ghost use Rattle.tx_picture.specs.Given.{AreBuiltIn};
ghost use Rattle.tx_app.specs.Openings.{opened_of, ComesTo, CanBeDone};
ghost use Rattle.tx_app.specs.Plan.{Begun, Follows, opening_of};
ghost use Rattle.tx_app.specs.Plans.{sheet_plan, show_plan, shown_plan, tree_plan};
ghost use Rattle.tx_app.specs.Trees.{rows_of};

use crate::causes::{Cause, Refusal, refused};
use crate::loads::load;
use crate::openings::Opened;
use crate::trees::{TreeStop, read_rows};
use std::alloc::Global;
use tx_geom::Size;
use tx_io::Files;
use tx_parse::{SheetFault, read_sheet};
use tx_tree::Tree;

/// A tree under the sheet in these bytes.
fn open_shown(
    alloc: Global,
    sheet: &str,
    size: Size,
    tree: Tree,
    bytes: &[u8],
) -> Result<Opened, Cause>
    requires screen { IsScreen size }
    requires built_in { AreBuiltIn tree.rows }
    requires short { length bytes.now < 2 ^ 32 }
    ensures opens { ComesTo (opening_of (shown_plan size sheet.now tree.rows bytes.now (sheet_of bytes.now)) []) (opened_of result) }
    ensures possible { IfOk result CanBeDone }
{
    match read_sheet(alloc, bytes) {
        Ok(sheet) => Ok(Opened::Picture(tree, sheet, size)),
        Err(SheetFault::Text { line, column, kind }) => {
            Err(refused(alloc, sheet, line, column, Refusal::Sheet(kind)))
        }
        Err(SheetFault::NoMemory) => Err(Cause::NoMemory),
    }
}

/// A tree under a sheet that is to be loaded.
fn open_sheet<F: Files>(
    alloc: Global,
    files: &mut F,
    sheet: &str,
    size: Size,
    tree: Tree,
) -> Result<Opened, Cause>
    requires screen { IsScreen size }
    requires built_in { AreBuiltIn tree.rows }
    ensures opens { Begun (F.seen files.old) (F.seen files.new) (sheet_plan size sheet.now tree.rows) (opened_of result) }
    ensures possible { IfOk result CanBeDone }
{
    match load(alloc, files, sheet) {
        Ok(bytes) => open_shown(alloc, sheet, size, tree, &bytes),
        Err(cause) => Err(cause),
    }
}

/// The tree in these bytes under a sheet that is to be loaded.
fn open_tree<F: Files>(
    alloc: Global,
    files: &mut F,
    tree: &str,
    sheet: &str,
    size: Size,
    bytes: &[u8],
) -> Result<Opened, Cause>
    requires screen { IsScreen size }
    requires short { length bytes.now < 2 ^ 32 }
    ensures opens { Follows (F.seen files.old) (F.seen files.new) (tree_plan size tree.now sheet.now (rows_of bytes.now)) (opened_of result) }
    ensures possible { IfOk result CanBeDone }
{
    match read_rows(alloc, bytes) {
        Ok(tree) => open_sheet(alloc, files, sheet, size, tree),
        Err(TreeStop::At { line, kind }) => Err(refused(alloc, tree, line, 1, kind)),
        Err(TreeStop::NoMemory) => Err(Cause::NoMemory),
    }
}

/// A tree under a sheet, both of which are to be loaded.
pub fn open_show<F: Files>(
    alloc: Global,
    files: &mut F,
    tree: &str,
    sheet: &str,
    size: Size,
) -> Result<Opened, Cause>
    requires { IsScreen size }
    ensures opens { Begun (F.seen files.old) (F.seen files.new) (show_plan size tree.now sheet.now) (opened_of result) }
    ensures possible { IfOk result CanBeDone }
{
    match load(alloc, files, tree) {
        Ok(bytes) => open_tree(alloc, files, tree, sheet, size, &bytes),
        Err(cause) => Err(cause),
    }
}
