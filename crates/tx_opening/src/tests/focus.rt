//! Which row has the focus first.
use crate::opening_state;
use std::alloc::Global;
use std::test::Fail;
use tx_expect::{each_line, expect};
use tx_test_kit::tree_of;

fn answer(alloc: Global, given: &str) -> Result<String, Fail> {
    let text = given.replace(alloc, "|", "\n")?;
    let tree = tree_of(alloc, text.as_str())?;
    let state = opening_state(&tree);
    expect(
        state.pointed.is_none() && state.dark,
        "pointed at, or light",
    )?;
    match state.focused {
        Some(node) => Ok(format!(in alloc; "{}", node.0)?),
        None => Ok(String::from_str(alloc, "none")?),
    }
}

#[test]
fn the_first_focus(rt: HostRuntime) -> Result<(), Fail> {
    let alloc = rt.alloc();
    each_line(
        "\
Screen| => none\n\
Screen|  Container|  Static|  Label|  ProgressBar|  Header|  Footer| => none\n\
Screen|  Button|  Input| => 2\n\
Screen|  VerticalScroll|    Button| => 2\n\
Screen|  Static|  Checkbox| => 3\n\
Screen|  Static|  OptionList| => 3\n\
Screen|  Container|    Label|    Input|  Button| => 4\n\
Screen|  Meter|  Button| => 2",
        |given| answer(alloc, given),
    )
}

#[test]
fn disabled_rows_have_no_focus(rt: HostRuntime) -> Result<(), Fail> {
    let alloc = rt.alloc();
    each_line(
        "\
Screen disabled|  Button| => none\n\
Screen|  Button disabled| => none\n\
Screen|  Button disabled|  Input| => 3\n\
Screen|  Container disabled|    Container|      Button|  Checkbox| => 5\n\
Screen|  VerticalScroll disabled|    Button| => none",
        |given| answer(alloc, given),
    )
}
