//! Reading a whole script.
ghost use Rattle.std.specs.Prelude.{◌≡◌, ◌<◌, ◌^◌, ◌+◌, ◌++◌, List, ℕ, Result, Ok, Err, IfOk, IfErr, OnOk, length, option_map, option_to_list};
ghost use Rattle.tx_read.specs.Answer.{Gives, Tells};
ghost use Rattle.tx_route.specs.declared.input.Input.{Input};
ghost use Rattle.tx_pilot.specs.Script.{IsScript, IsFirstFault, IsFaultOf};
ghost use Rattle.tx_pilot.specs.LineReading.{told as told_of_line};
ghost use Rattle.tx_pilot.specs.ScriptReading.{Met, limited, put_before, then_lines, script_of, told};
ghost use Rattle.tx_pilot.specs.declared.fault.LineKind.{LineKind};

use crate::fault::{LineFault, LineKind, ScriptFault};
use crate::line::line_of;
use std::alloc::{AllocError, Global};
use tx_read::split_once;
use tx_route::{Input, Inputs, Track};

// The most lines of a script, and its most bytes.
const MOST_LINES: u32 = 100_000;

const MOST_BYTES: usize = 67_108_864;

// The input of a line after so many, with which the script has so many bytes.
fn limited(alloc: Global, before: u32, size: usize, line: &[u8]) -> Result<Option<Input>, LineFault>
    ensures { Gives (λ read. read) told_of_line result (limited before size line.now) }
{
    if before >= MOST_LINES {
        return Err(LineFault::Line(LineKind::TooMany));
    }
    if size > MOST_BYTES {
        return Err(LineFault::Line(LineKind::TooLong));
    }
    line_of(alloc, line)
}

// The fault of a line with this number.
fn at_line(line: u32, fault: LineFault) -> ScriptFault
    ensures { told result ≡ option_map (λ kind. (line, kind)) (told_of_line fault) }
{
    match fault {
        LineFault::Line(kind) => ScriptFault::Line { line, kind },
        LineFault::NoMemory => ScriptFault::NoMemory,
    }
}

// Adds an input at the end, where there is one.
fn add(inputs: &mut Vec<Input>, read: Option<Input>) -> Result<(), AllocError>
    ensures { OnOk result (inputs.new.items ≡ inputs.old.items ++ option_to_list read) }
{
    let Some(input) = read else {
        return Ok(());
    };
    inputs.push(input)?;
    Ok(())
}

// Reads a line after so many, with which the script has so many bytes, and adds its input.
fn read_next(
    alloc: Global,
    inputs: &mut Vec<Input>,
    before: u32,
    size: usize,
    line: &[u8],
) -> Result<(), ScriptFault>
    requires { before + 1 < 2 ^ 32 }
    ensures read { (more : Result (List Input) Met) → OnOk result (put_before inputs.old.items (then_lines (before + 1) (limited before size line.now) more) ≡ put_before inputs.new.items more) }
    ensures fault { (more : Result (List Input) Met) → IfErr result (λ fault. Tells (told fault) (put_before inputs.old.items (then_lines (before + 1) (limited before size line.now) more))) }
{
    match limited(alloc, before, size, line) {
        Ok(read) => {
            add(inputs, read)?;
            Ok(())
        }
        Err(fault) => Err(at_line(before + 1, fault)),
    }
}

// The inputs of all lines.
#[tactic(auto, unfolding(crate::specs::ScriptReading::script_of))]
fn read_lines(alloc: Global, bytes: &[u8]) -> Result<Vec<Input>, ScriptFault>
    requires { length bytes.now < 2 ^ 32 }
    ensures { Gives (λ inputs. inputs.items) told result (script_of bytes.now) }
{
    let mut inputs = Vec::new(alloc);
    let mut before = 0u32;
    let mut left = bytes;
    while let Some((line, rest)) = split_once(left, b'\n') {
        let size = bytes.len() - rest.len();
        match read_next(alloc, &mut inputs, before, size, line) {
            Ok(()) => {}
            Err(fault) => return Err(fault),
        }
        before += 1;
        left = rest;
    }
    if left.is_empty() {
        return Ok(inputs);
    }
    match read_next(alloc, &mut inputs, before, bytes.len(), left) {
        Ok(()) => Ok(inputs),
        Err(fault) => Err(fault),
    }
}

fn track_of(alloc: Global, bytes: &[u8]) -> Result<Track, ScriptFault>
    requires { length bytes.now < 2 ^ 32 }
    ensures { Gives (λ track. track.inputs) told result (script_of bytes.now) }
{
    match read_lines(alloc, bytes) {
        Ok(inputs) => Ok(Track {
            inputs: Inputs::of(inputs),
        }),
        Err(fault) => Err(fault),
    }
}

/// The inputs of a script, in the order of its lines. Lines end with a line feed, which the last
/// one may lack; an empty line has no input. The script has fewer than 2^32 bytes.
///
/// # Errors
///
/// Line, with the first line that breaks a rule, from 1 on, and of that line the first of these:
/// TooMany where 100,000 lines stand before it; TooLong where it has more than 65,536 bytes without
/// its line feed, or the script has more than 64 MiB up to its end, its line feed among them; else
/// what [`read_line`](crate::read_line) refuses it for. And NoMemory.
pub fn read_script(alloc: Global, bytes: &[u8]) -> Result<Track, ScriptFault>
    requires { length bytes.now < 2 ^ 32 }
    // What is read is what the script spells.
    ensures found { IfOk result (λ track. IsScript bytes.now track.inputs) }
    // What it spells is read, unless out of memory.
    ensures only { (inputs : List Input) → IsScript bytes.now inputs → Gives (λ track. track.inputs) told result (Ok inputs) }
    // A fault is that of the first line that breaks a rule.
    ensures fault { IfErr result (λ fault. IsFaultOf bytes.now fault) }
    // And that line is reported, unless out of memory.
    ensures refused { (line : ℕ) (kind : LineKind) → IsFirstFault bytes.now line kind → Gives (λ track. track.inputs) told result (Err (line, kind)) }
    ensures exact { Gives (λ track. track.inputs) told result (script_of bytes.now) }
{
    track_of(alloc, bytes)
}
