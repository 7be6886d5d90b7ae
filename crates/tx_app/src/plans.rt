//! From the words to what is to be done.
ghost use Rattle.std.specs.Prelude.{map, string_bytes, IfOk};
ghost use Rattle.tx_app.specs.Openings.{opened_of, CanBeDone};
ghost use Rattle.tx_app.specs.Plans.{Planned};

mod check;
mod query;
mod show;

use crate::causes::Cause;
use crate::openings::Opened;
use crate::words::{Task, read_words};
use check::open_check;
use query::open_query;
use show::open_show;
use std::alloc::Global;
use tx_io::Files;

/// What the words ask for, with the files that they name.
pub fn open_words<F: Files>(alloc: Global, files: &mut F, words: &[String]) -> Result<Opened, Cause>
    ensures planned { Planned (map string_bytes words.now) (F.seen files.old) (F.seen files.new) (opened_of result) }
    ensures possible { IfOk result CanBeDone }
{
    match read_words(alloc, words) {
        Ok(Some(Task::Show(show))) => open_show(alloc, files, show.tree, show.sheet, show.size),
        Ok(Some(Task::Check(sheet))) => open_check(alloc, files, sheet),
        Ok(Some(Task::Query(tree, selector))) => open_query(alloc, files, tree, selector),
        Ok(None) => Err(Cause::Usage),
        Err(_) => Err(Cause::NoMemory),
    }
}
