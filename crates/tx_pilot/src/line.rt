//! Reading one line.
ghost use Rattle.std.specs.Prelude.{◌≡◌, ◌<◌, ◌≤◌, ◌^◌, List, ℕ, Option, Ok, Err, IfOk, IfErr, length, true};
ghost use Rattle.std.specs.List.{list_all};
ghost use Rattle.tx_read.specs.Answer.{Gives};
ghost use Rattle.tx_tree.specs.Spelled.{no_line_feed};
ghost use Rattle.tx_route.specs.declared.input.Input.{Input};
ghost use Rattle.tx_pilot.specs.Lines.{Spells, Breaks, IsFaultOf};
ghost use Rattle.tx_pilot.specs.LineReading.{line_of, told};
ghost use Rattle.tx_pilot.specs.declared.fault.LineKind.{LineKind};

use crate::fault::{LineFault, LineKind};
use crate::inputs::input_of;
use std::alloc::Global;
use tx_route::Input;
use tx_tree_file::as_text;

// The most bytes of a line.
const MOST_BYTES: usize = 65_536;

fn is_whole(line: &[u8]) -> bool
    ensures { result ≡ list_all no_line_feed line.now }
{
    line.iter().all(|byte| *byte != b'\n')
}

/// What a line is.
#[tactic(auto, unfolding(crate::specs::LineReading::line_of))]
pub fn line_of(alloc: Global, line: &[u8]) -> Result<Option<Input>, LineFault>
    ensures { Gives (λ read. read) told result (line_of line.now) }
{
    if line.len() > MOST_BYTES {
        return Err(LineFault::Line(LineKind::TooLong));
    }
    let Some(_) = as_text(line) else {
        return Err(LineFault::Line(LineKind::BadByte));
    };
    if !is_whole(line) {
        return Err(LineFault::Line(LineKind::Expected));
    }
    if line.is_empty() {
        return Ok(None);
    }
    match input_of(alloc, line) {
        Ok(input) => Ok(Some(input)),
        Err(fault) => Err(fault),
    }
}

/// The input that a line of a script spells, without its line feed; none where the line is empty.
/// It has fewer than 2^32 bytes.
///
/// # Errors
///
/// The first of these: TooLong where it has more than 65,536 bytes; BadByte where it isn't UTF-8;
/// Expected where there is a line feed in it; else what is met first from the left, and what stands
/// after that isn't looked at:
///
/// - BadKey at a word in the place of a key that is none, and BadNumber at one in the place of a
///   number that isn't plain digits, or whose number is out of its range. Such a word has at least
///   one byte, and one blank before it: where there is none, Expected is met.
/// - BadSelector at a text in quotes in the place of a selector that is none. In `before` the second
///   text is such a place too. A text that has no closing quote, or an escape or a byte that may not
///   stand in quotes, is Expected, whatever it holds.
/// - BadInline where the text between the braces of `style` isn't a list of declarations, and the
///   closing brace is the last byte of the line: else it is Expected. Of a row of `mount` it is met
///   where the row is one of a tree file, so that all else that a row breaks is Expected.
/// - Expected everywhere else.
///
/// And NoMemory.
pub fn read_line(alloc: Global, line: &[u8]) -> Result<Option<Input>, LineFault>
    requires { length line.now < 2 ^ 32 }
    // What is read is what the line spells.
    ensures found { IfOk result (λ read. Spells line.now read) }
    // What it spells is read, unless out of memory.
    ensures only { (read : Option Input) → Spells line.now read → Gives (λ read. read) told result (Ok read) }
    // A fault is the first rule that it breaks.
    ensures fault { IfErr result (λ fault. IsFaultOf line.now fault) }
    // And that rule is reported, unless out of memory.
    ensures refused { (kind : LineKind) → Breaks line.now kind → Gives (λ read. read) told result (Err kind) }
    ensures exact { Gives (λ read. read) told result (line_of line.now) }
{
    line_of(alloc, line)
}
