//! The rows of a tree that a selector matches.
ghost use Rattle.std.specs.Prelude.{◌<◌, ◌^◌, [], length, IfOk};
ghost use Rattle.tx_app.specs.Trees.{rows_of};
ghost use Rattle.tx_app.specs.Openings.{opened_of, ComesTo, CanBeDone};
ghost use Rattle.tx_app.specs.Plan.{Begun, opening_of};
ghost use Rattle.tx_app.specs.Plans.{query_plan, rows_plan};

use crate::causes::{Cause, refused};
use crate::loads::load;
use crate::openings::Opened;
use crate::trees::{TreeStop, read_rows};
use std::alloc::Global;
use tx_io::Files;
use tx_select::Selector;

/// The tree in these bytes, with the selector.
fn open_rows(alloc: Global, name: &str, bytes: &[u8], selector: Selector) -> Result<Opened, Cause>
    requires { length bytes.now < 2 ^ 32 }
    ensures opens { ComesTo (opening_of (rows_plan name.now selector (rows_of bytes.now)) []) (opened_of result) }
    ensures possible { IfOk result CanBeDone }
{
    match read_rows(alloc, bytes) {
        Ok(tree) => Ok(Opened::Matches(tree, selector)),
        Err(TreeStop::At { line, kind }) => Err(refused(alloc, name, line, 1, kind)),
        Err(TreeStop::NoMemory) => Err(Cause::NoMemory),
    }
}

/// A tree that is to be loaded, with the selector.
pub fn open_query<F: Files>(
    alloc: Global,
    files: &mut F,
    name: &str,
    selector: Selector,
) -> Result<Opened, Cause>
    ensures opens { Begun (F.seen files.old) (F.seen files.new) (query_plan name.now selector) (opened_of result) }
    ensures possible { IfOk result CanBeDone }
{
    match load(alloc, files, name) {
        Ok(bytes) => open_rows(alloc, name, &bytes, selector),
        Err(cause) => Err(cause),
    }
}
