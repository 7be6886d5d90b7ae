//! Whole scripts.
use super::{bytes_of, described};
use crate::{LineKind, ScriptFault, read_script};
use std::alloc::Global;
use std::test::Fail;
use tx_expect::{each_line, expect};

// Longer scripts than this stand in no test.
const LONGEST: usize = 80_000_000;

fn fault_of(alloc: Global, script: &[u8]) -> Result<Option<(u32, LineKind)>, Fail> {
    if script.len() > LONGEST {
        return Err(Fail::from("the script is too long"));
    }
    match read_script(alloc, script) {
        Ok(_) => Ok(None),
        Err(ScriptFault::Line { line, kind }) => Ok(Some((line, kind))),
        Err(ScriptFault::NoMemory) => Err(Fail::from("no memory")),
    }
}

/// The inputs of a script, each with a `;` behind it, or its fault.
fn answer(alloc: Global, given: &str) -> Result<String, Fail> {
    let script = bytes_of(alloc, given)?;
    if script.len() > LONGEST {
        return Err(Fail::from("the script is too long"));
    }
    let track = match read_script(alloc, &script) {
        Ok(track) => track,
        Err(ScriptFault::Line { line, kind }) => return Ok(format!(in alloc; "{line} {kind:?}")?),
        Err(ScriptFault::NoMemory) => return Err(Fail::from("no memory")),
    };
    let mut all = String::new(alloc);
    for input in track.inputs.as_slice() {
        let text = described(alloc, input)?;
        all.push_str(text.as_str())?;
        all.push_str(";")?;
    }
    Ok(all)
}

#[test]
fn scripts(rt: HostRuntime) -> Result<(), Fail> {
    let alloc = rt.alloc();
    each_line(
        "\
pause => Pause;\n\
pause| => Pause;\n\
pause|| => Pause;\n\
||pause => Pause;\n\
\u{20}=> \n\
| => \n\
press a|press b => Press Char('a');Press Char('b');\n\
press x|press y| => Press Char('x');Press Char('y');\n\
press tab|jump => 2 Expected\n\
jump|press tab => 1 Expected\n\
text '#s' 'b'|text '#s' 'c' => SetText 1:#s [b];SetText 1:#s [c];\n\
pause||press ab|jump => 3 BadKey\n\
pause|~|jump => 2 BadByte\n\
pause|resize 0 1 => 2 BadNumber\n\
pause|  => 2 Expected\n\
style '#s' {color: red;} => SetInline 1:#s [color: red;];\n\
pause|\r|pause => 2 Expected\n\
press down|press tab|press x|hover '#new'|press tab|press enter|class '#main' +busy|advance '#load' 10|text '.title' 'Sites'|style '#side' { }|press ctrl+d|resize 40 12| => Press Down;Press Tab;Press Char('x');Hover 1:#new;Press Tab;Press Enter;AddClass 1:#main busy;Advance 1:#load 10;SetText 1:.title [Sites];SetInline 1:#side [ ];Press Ctrl(100);Resize 40 12;",
        |given| answer(alloc, given),
    )
}

/// So many copies of a text.
fn copies(alloc: Global, text: &[u8], count: usize) -> Result<Vec<u8>, Fail> {
    let mut all = Vec::new(alloc);
    for _ in 0..count {
        all.extend_from_slice(text)?;
    }
    Ok(all)
}

#[test]
fn many_lines(rt: HostRuntime) -> Result<(), Fail> {
    let alloc = rt.alloc();
    let full = copies(alloc, b"\n", 100_000)?;
    expect(fault_of(alloc, &full)?.is_none(), "100,000 lines")?;
    let cases: [&[u8]; 4] = [b"\n", b"pause", b"\xff", b"jump\n"];
    for more in cases {
        let mut script = copies(alloc, b"\n", 100_000)?;
        script.extend_from_slice(more)?;
        let fault = fault_of(alloc, &script)?;
        expect(fault == Some((100_001, LineKind::TooMany)), "line 100,001")?;
    }
    Ok(())
}
