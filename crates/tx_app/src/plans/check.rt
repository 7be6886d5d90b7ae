//! The counts of a sheet.
ghost use Rattle.std.specs.Prelude.{◌≡◌, ◌<◌, ◌^◌, [], length, decimal, ◌++◌, IfOk, OnOk};
ghost use Rattle.tx_parse.specs.Texts.{sheet_of};
ghost use Rattle.tx_app.specs.Openings.{opened_of, ComesTo, CanBeDone, Prints};
ghost use Rattle.tx_app.specs.Plan.{Begun, opening_of};
ghost use Rattle.tx_app.specs.Plans.{check_plan, counted, counts_of};

use crate::causes::{Cause, Refusal, refused};
use crate::loads::load;
use crate::openings::Opened;
use itoa::Buffer;
use std::alloc::{AllocError, Global};
use tx_io::Files;
use tx_parse::{Sheet, SheetFault, read_sheet};

/// Adds these words and a number after them.
fn push_count(out: &mut Vec<u8>, words: &[u8], count: usize) -> Result<(), AllocError>
    ensures { OnOk result (out.new.items ≡ out.old.items ++ words.now ++ decimal count) }
{
    out.extend_from_slice(words)?;
    let mut buffer = Buffer::new();
    out.extend_from_slice(buffer.format(count).as_bytes())
}

/// A line of counts: how many rules, declarations and variables there are.
fn counts_of(
    alloc: Global,
    rules: usize,
    declarations: u32,
    variables: u32,
) -> Result<Vec<u8>, AllocError>
    ensures { IfOk result (λ line. line.items ≡ counts_of rules declarations variables) }
{
    let mut line = Vec::new(alloc);
    push_count(&mut line, b"rules ", rules)?;
    push_count(&mut line, b", declarations ", declarations as usize)?;
    push_count(&mut line, b", variables ", variables as usize)?;
    line.extend_from_slice(b"\n")?;
    Ok(line)
}

/// The counts of a sheet.
fn counts_line(alloc: Global, sheet: &Sheet) -> Result<Opened, Cause>
    ensures opens { ComesTo (Prints (counts_of (length sheet.now.rules) sheet.now.declarations sheet.now.variables)) (opened_of result) }
    ensures possible { IfOk result CanBeDone }
{
    let rules = sheet.rules().as_slice().len();
    match counts_of(alloc, rules, sheet.declarations(), sheet.variables()) {
        Ok(line) => Ok(Opened::Lines(line)),
        Err(_) => Err(Cause::NoMemory),
    }
}

/// The counts of the sheet in these bytes.
fn open_counts(alloc: Global, name: &str, bytes: &[u8]) -> Result<Opened, Cause>
    requires { length bytes.now < 2 ^ 32 }
    ensures opens { ComesTo (opening_of (counted name.now bytes.now (sheet_of bytes.now)) []) (opened_of result) }
    ensures possible { IfOk result CanBeDone }
{
    match read_sheet(alloc, bytes) {
        Ok(sheet) => counts_line(alloc, &sheet),
        Err(SheetFault::Text { line, column, kind }) => {
            Err(refused(alloc, name, line, column, Refusal::Sheet(kind)))
        }
        Err(SheetFault::NoMemory) => Err(Cause::NoMemory),
    }
}

/// The counts of a sheet that is to be loaded.
pub fn open_check<F: Files>(alloc: Global, files: &mut F, name: &str) -> Result<Opened, Cause>
    ensures opens { Begun (F.seen files.old) (F.seen files.new) (check_plan name.now) (opened_of result) }
    ensures possible { IfOk result CanBeDone }
{
    match load(alloc, files, name) {
        Ok(bytes) => open_counts(alloc, name, &bytes),
        Err(cause) => Err(cause),
    }
}
