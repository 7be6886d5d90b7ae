//! The run.
ghost use Rattle.std.specs.Prelude.{◌≡◌, [], map, IfOk, IfSome, string_bytes};
ghost use Rattle.tx_compose.specs.Presented.{IsScreen};
ghost use Rattle.tx_io.specs.Sending.{Sends, failed_puts};
ghost use Rattle.tx_picture.specs.Given.{AreBuiltIn};
ghost use Rattle.tx_term.specs.Update.{closing};
ghost use Rattle.tx_app.specs.Causes.{sink_cause};
ghost use Rattle.tx_app.specs.Faults.{CausedBy, IsComplete, read_faults, sink_faults};
ghost use Rattle.tx_app.specs.FirstShown.{first_shown};
ghost use Rattle.tx_app.specs.Headline.{IfAccepted, ShowsPicture};
ghost use Rattle.tx_app.specs.Openings.{CanBeDone, Opens, Prints, Finds, opened_of};
ghost use Rattle.tx_app.specs.Refreshing.{entry_cause};
ghost use Rattle.tx_app.specs.Run.{IsRun, Runs, Does};
ghost use Rattle.tx_app.specs.Ticks.{JournalTicks, OpeningTicks, RunTicks};

use crate::causes::{Cause, sink_cause, status_of};
use crate::journal::{Entry, Journal, Refreshed};
use crate::listing::matching_lines;
use crate::openings::Opened;
use crate::outcome::Outcome;
use crate::plans::open_words;
use crate::refreshing::refresh;
use crate::report::report;
use std::alloc::Global;
use tx_cell::{Cell, Grid, Pen};
use tx_compose::Screen;
use tx_geom::Size;
use tx_io::{Files, Ledger, Sent, Sink, Steps, send_all};
use tx_parse::Sheet;
use tx_select::Selector;
use tx_term::closing_bytes;
use tx_term::laws::whole_updates_lead;
use tx_tree::Tree;

fn send_closing<K: Sink>(out: &mut K) -> Sent
    ensures { Sends (K.seen out.old) (K.seen out.new) closing result }
{
    send_all(out, closing_bytes())
}

fn failures(sent: Sent) -> u64
    ensures { result ≡ failed_puts sent }
{
    if sent.failed { 1 } else { 0 }
}

/// The cause of a run whose last refresh has this entry, after the closing bytes.
fn end_cause(entry: Entry, closed: Sent) -> Option<Cause>
    ensures { result ≡ entry_cause entry closed }
{
    let Entry::Refresh { result, faults, .. } = entry;
    match result {
        Refreshed::NoMemory => Some(Cause::NoMemory),
        Refreshed::Fraction { node, axis } => Some(Cause::Fraction { node, axis }),
        _ => { sink_cause(faults.saturating_add(failures(closed))) }
    }
}

/// One refresh and then the closing bytes, unless memory runs out before.
fn show<K: Sink, L: Ledger>(
    alloc: Global,
    tree: &Tree,
    sheet: Sheet,
    size: Size,
    out: &mut K,
    journal: &mut Vec<Entry>,
    steps: &mut Steps<L>,
) -> Option<Cause>
    requires limits { IsScreen size }
    requires built_in { AreBuiltIn tree.now.rows }
    requires empty { journal.old.items ≡ [] }
    ensures does { Does (Opens (first_shown tree.now.rows sheet size)) (K.seen out.old) (K.seen out.new) [] journal.new.items result }
    ensures ticks { JournalTicks L.ticked (first_shown tree.now.rows sheet size) journal.new.items steps.old.ledger steps.new.ledger }
{
    if journal.try_reserve(1).is_err() {
        return Some(Cause::NoMemory);
    }
    let mut shown = match Grid::open(alloc, size, Cell::blank(Pen::WHITE_ON_BLACK)) {
        Ok(shown) => shown,
        Err(_) => return Some(Cause::NoMemory),
    };
    let mut screen = match Screen::open(alloc, sheet, size) {
        Ok(screen) => screen,
        Err(_) => return Some(Cause::NoMemory),
    };
    let entry = refresh(alloc, &mut screen, tree, &mut shown, out, steps);
    let closed = send_closing(out);
    match journal.push(entry) {
        Ok(()) => end_cause(entry, closed),
        Err(_) => unreachable!(),
    }
}

/// Sends lines.
fn print<K: Sink>(out: &mut K, lines: &[u8]) -> Option<Cause>
    ensures { Does (Prints lines.now) (K.seen out.old) (K.seen out.new) [] [] result }
{
    let sent = send_all(out, lines);
    sink_cause(failures(sent))
}

/// Sends the lines of the rows that a selector matches.
fn list<K: Sink>(alloc: Global, tree: &Tree, selector: &Selector, out: &mut K) -> Option<Cause>
    ensures { Does (Finds tree.now.rows selector.now) (K.seen out.old) (K.seen out.new) [] [] result }
{
    match matching_lines(alloc, tree, selector) {
        Some(lines) => print(out, &lines),
        None => Some(Cause::NoMemory),
    }
}

/// Shows or prints what was opened.
fn perform<K: Sink, L: Ledger>(
    alloc: Global,
    opened: Result<Opened, Cause>,
    out: &mut K,
    journal: &mut Vec<Entry>,
    steps: &mut Steps<L>,
) -> Option<Cause>
    requires can { IfOk opened CanBeDone }
    requires empty { journal.old.items ≡ [] }
    ensures does { Does (opened_of opened) (K.seen out.old) (K.seen out.new) [] journal.new.items result }
    ensures ticks { OpeningTicks L.ticked (opened_of opened) journal.new.items steps.old.ledger steps.new.ledger }
{
    match opened {
        Ok(Opened::Picture(tree, sheet, size)) => {
            show(alloc, &tree, sheet, size, out, journal, steps)
        }
        Ok(Opened::Lines(lines)) => print(out, &lines),
        Ok(Opened::Matches(tree, selector)) => list(alloc, &tree, &selector, out),
        Err(cause) => Some(cause),
    }
}

fn run<F: Files, K: Sink, L: Ledger>(
    alloc: Global,
    words: &[String],
    files: &mut F,
    out: &mut K,
    journal: &mut Vec<Entry>,
    steps: &mut Steps<L>,
) -> Option<Cause>
    requires { journal.old.items ≡ [] }
    ensures runs { Runs (map string_bytes words.now)
        (F.seen files.old) (F.seen files.new) (K.seen out.old) (K.seen out.new) journal.new.items result }
    ensures ticks { RunTicks L.ticked (map string_bytes words.now)
        (F.seen files.old) (F.seen files.new) journal.new.items steps.old.ledger steps.new.ledger }
{
    let opened = open_words(alloc, files, words);
    perform(alloc, opened, out, journal, steps)
}

/// Does what the words ask for, the program's name before them.
///
/// `check SHEET` loads the sheet and reads it, and prints how many rules, declarations and variables
/// it has to `out`, in one line.
///
/// `query TREE SELECTOR` reads the selector, loads the tree and reads it, and prints to `out` for
/// each row that the selector matches as a run begins, in document order, one line: the number of
/// its node, its kind and, where it has one, `#` and its id. The first row that can have the focus
/// has it, where neither it nor an ancestor is disabled, nothing is pointed at, and the theme is
/// dark. A selector outside its grammar, or one of 4 GiB or more, is refused with the words.
///
/// `show TREE SHEET`, with `--width W` (1 to 1,024, 80) and `--height H` (1 to 512, 24) anywhere
/// after the mode, each at most once, or without, sends one whole update of the picture of the tree
/// under the sheet, in that same state, to `out`, and then the closing bytes, each as far as `out`
/// takes it. Where the picture is undefined only the closing bytes are sent. The tree is loaded
/// once, and the sheet once, after a tree that is taken. Nothing is sent before all is read.
///
/// A tree is refused at the first line that breaks a rule of its grammar; else with NoCustom at the
/// first row of a kind that isn't built in; else with Inline at the first row whose inline text is
/// outside the grammar. A sheet is refused at its first fault, and either file with TooLong past
/// 4 MiB.
///
/// Where the status isn't 0 a line to `err` says why. No call on `files` comes after one that
/// failed.
pub fn top_alone<F: Files, K: Sink, E: Sink, L: Ledger>(
    alloc: Global,
    words: &[String],
    files: &mut F,
    out: &mut K,
    err: &mut E,
    steps: &mut Steps<L>,
) -> Outcome
    ensures run { IsRun (map string_bytes words.now)
        (F.seen files.old) (F.seen files.new)
        (K.seen out.old) (K.seen out.new) (E.seen err.old) (E.seen err.new) result }

    // Status 3 comes only where a load failed in this call, and status 5 only where a put on `out` did.
    ensures read_fault { CausedBy (read_faults result.cause) (F.seen files.old).faults (F.seen files.new).faults }
    ensures sink_fault { CausedBy (sink_faults result.cause) (K.seen out.old).faults (K.seen out.new).faults }

    // Words and files that are accepted, a picture that is defined, and no rise of a count give status 0
    // or out of memory.
    ensures complete { IfSome (F.seen files.old).contents (λ told. IsComplete (map string_bytes words.now) told
        (F.seen files.old).faults (F.seen files.new).faults (K.seen out.old).faults (K.seen out.new).faults result.cause) }

    // The headline: after an accepted refresh the terminal shows the picture of what was read.
    ensures shows { IfAccepted result.journal (λ sent. ShowsPicture (map string_bytes words.now)
        (F.seen files.old) (F.seen files.new) (K.seen out.old) (K.seen out.new) sent) }

    // Nothing but the refresh ticks.
    ensures ledger { RunTicks L.ticked (map string_bytes words.now)
        (F.seen files.old) (F.seen files.new) result.journal steps.old.ledger steps.new.ledger }
{
    whole_updates_lead();
    let mut journal = Vec::new(alloc);
    let cause = run(alloc, words, files, out, &mut journal, steps);
    report(err, &cause);
    Outcome {
        status: status_of(&cause),
        journal: Journal::of(journal),
        cause,
    }
}
