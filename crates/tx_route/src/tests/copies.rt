use super::inputs::input_of;
use crate::{Input, Inputs, Track};
use std::alloc::Global;
use std::test::Fail;
use tx_expect::{each_line, expect};

/// What an input is printed as.
fn printed(alloc: Global, input: &Input) -> Result<String, Fail> {
    Ok(format!(in alloc; "{input:?}")?)
}

/// Whether two inputs are printed as one text.
fn are_printed_alike(alloc: Global, one: &Input, other: &Input) -> Result<bool, Fail> {
    let one = printed(alloc, one)?;
    let other = printed(alloc, other)?;
    Ok(one.as_str() == other.as_str())
}

/// Whether a copy of an input is printed as the input is.
fn is_copied(alloc: Global, input: &Input) -> Result<bool, Fail> {
    match input.copy() {
        Ok(copy) => are_printed_alike(alloc, input, &copy),
        Err(_) => Err(Fail::from("no memory")),
    }
}

/// What is told of a copy of the input of a line.
fn told_of(alloc: Global, line: &str) -> Result<bool, Fail> {
    let input = input_of(alloc, line)?;
    is_copied(alloc, &input)
}

/// The line itself, where a copy of its input is printed as the input is.
fn copied(alloc: Global, line: &str) -> Result<String, Fail> {
    let alike = told_of(alloc, line)?;
    expect(alike, "a copy")?;
    Ok(String::from_str(alloc, line)?)
}

const LINES: &str = "press a => press a
click 1 2 => click 1 2
click #a => click #a
hover 1 2 => hover 1 2
hover A > .b:focus => hover A > .b:focus
pause => pause
resize => resize
class #a,b => class #a,b
unclass #a,b => unclass #a,b
text #a,b c => text #a,b c
style #a,color: red; => style #a,color: red;
disable #a => disable #a
enable #a => enable #a
mount #a,Button b => mount #a,Button b
remove #a => remove #a
before #a,#b => before #a,#b
advance #a,3 => advance #a,3
dark => dark";

#[test]
fn inputs_are_copied(rt: HostRuntime) -> Result<(), Fail> {
    let alloc = rt.alloc();
    each_line(LINES, |line| copied(alloc, line))?;
    let track = Track {
        inputs: Inputs::of(vec![in alloc; input_of(alloc, "pause")?]?),
    };
    expect(track.inputs.as_slice().len() == 1, "a track")
}
