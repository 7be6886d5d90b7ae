//! Pictures of small trees, from what is shown through the bytes that are sent to the grid of a
//! terminal that reads them.

use super::terminal_by;
use std::alloc::Global;
use std::rt::HostRuntime;
use std::test::Fail;
use tx_expect::each_line;
use tx_test_kit::cells_text;

// The cells that the terminal shows.
fn shown(alloc: Global, line: &str) -> Result<String, Fail> {
    let terminal = terminal_by(alloc, line)?;
    Ok(cells_text(alloc, terminal.grid())?)
}

#[test]
fn lines_are_wrapped_and_placed(rt: HostRuntime) -> Result<(), Fail> {
    let alloc = rt.alloc();
    each_line(
        "\
6 2 | Screen/  Static \"ab cd ef\" | Label { } | => ab.cd./ef....
4 2 | Screen/  Static \"abcdef\" | Label { } | => abcd/ef..
5 2 | Screen/  Static \"ab  cd\" | Label { } | => ab.../cd...
1 2 | Screen/  Static \"世a\" | Label { } | => �/a
2 2 | Screen/  Static \"a世\" | Label { } | => a./世_
3 2 | Screen/  Static \"a世b\" | Label { } | => a世_/b..
5 3 | Screen/  Static #s \"a\" | #s { height: 3; content-align: center middle; } | => ...../..a../.....
5 3 | Screen/  Static #s \"a\" | #s { height: 3; content-align: right bottom; } | => ...../...../....a
6 2 | Screen/  Static #s \"ab\\ncdef\" | #s { text-align: right; } | => ....ab/..cdef
6 2 | Screen/  Static #s \"ab\\ncdef\" | #s { text-align: center; } | => ..ab../.cdef.
6 2 | Screen/  Static #s \"ab\\ncdef\" | #s { content-align: right top; } | => ..ab../..cdef
5 2 | Screen/  Static #s \"a\\nb\\nc\" | #s { height: 2; } | => a..../b....
3 1 | Screen/  Label \"abcdef\" | Screen { overflow: hidden; } | => abc",
        |line: &str| shown(alloc, line),
    )
}

#[test]
fn widgets_look_so(rt: HostRuntime) -> Result<(), Fail> {
    let alloc = rt.alloc();
    each_line(
        "\
20 3 | Screen/  Button \"Go\" | Label { } | => ..................../.......Go.........../....................
4 1 | Screen/  Button #b \"Go\" | #b { min-width: 4; height: 1; } |focus 2 => .'G'o'.'
8 1 | Screen/  Checkbox \"ab\" | Label { } | => [.].ab..
8 1 | Screen/  Checkbox on \"ab\" | Label { } | => [X].ab..
8 1 | Screen/  Checkbox on \"a\" | Label { } |focus 2 => ['X']'.'a'...
6 3 | Screen/  Input \"ab\" | Label { } | => ┌────┐/│ab..│/└────┘
6 3 | Screen/  Input \"ab\" | Label { } |focus 2 => ┌────┐/│ab.'.│/└────┘
5 3 | Screen/  Input \"abcde\" | Label { } |focus 2 => ┌───┐/│de.'│/└───┘
5 3 | Screen/  Input \"abcde\" | Label { } | => ┌───┐/│de.│/└───┘
4 3 | Screen/  OptionList \"a\\nb\" | Label { } | => a'.'.'.'/b.../....
4 2 | Screen/  OptionList \"a\\nb\\nc\" | Label { } | => a'.'.'.'/b...
4 1 | Screen/  OptionList | Label { } | => ....
8 1 | Screen/  ProgressBar #p total 4 | #p { width: 8; } | => ────────
10 3 | Screen/  Header \"ab\"/  Footer \"cd\" | Label { } | => ....ab..../........../cd........",
        |line: &str| shown(alloc, line),
    )
}

#[test]
fn containers_lay_out_their_children(rt: HostRuntime) -> Result<(), Fail> {
    let alloc = rt.alloc();
    each_line(
        "\
6 1 | Screen/  Horizontal/    Static \"a\"/    Static \"b\" | Label { } | => a..b..
6 1 | Screen/  Horizontal/    Static #a \"a\"/    Static \"b\" | #a { margin: 0 1; } | => .a..b.
4 3 | Screen/  Vertical/    Static #a \"a\"/    Static \"b\" | #a { margin: 0 0 1 0; } | => a.../..../b...
4 3 | Screen/  Vertical #v/    Static \"a\" | #v { padding: 1; } | => ..../.a../....
6 2 | Screen/  Grid #g/    Static \"a\"/    Static \"b\"/    Static \"c\" | #g { grid-size: 2; } | => a..b../c.....
7 3 | Screen/  Grid #g/    Static \"a\"/    Static \"b\"/    Static \"c\" | #g { grid-size: 2; grid-gutter: 1; } | => a...b../......./c......
6 2 | Screen/  Grid #g/    Static #a \"a\"/    Static \"b\"/    Static \"c\" | #g { grid-size: 2; } #a { column-span: 2; } | => a...../b..c..
5 3 | Screen/  Label \"a\" | Screen { align: center middle; } | => ...../..a../.....
5 3 | Screen/  Label \"a\" | Screen { align: right bottom; } | => ...../...../....a
6 2 | Screen/  Static \"a\"/  Static #b \"b\" | #b { dock: right; width: 2; } | => a...b./......
6 3 | Screen/  Static \"a\"/  Static #b \"b\" | #b { dock: bottom; } | => a...../....../b.....
6 3 | Screen/  Static \"a\"/  Static #b \"b\" | #b { dock: top; } | => b...../a...../......
4 2 | Screen/  Static #a \"a\"/  Static \"b\" | #a { display: none; } | => b.../....
4 2 | Screen/  Static #a \"a\"/  Static \"b\" | #a { visibility: hidden; } | => ..../b...
4 2 | Screen/  Static #a \"a\"/  Static \"b\" | Screen { layers: low high; } #a { layer: high; } | => a.../....
4 2 | Screen/  Static #a \"aaaa\"/  Static #b \"b\" | Screen { layers: low high; } #b { layer: high; width: 1; offset: 1 0; } | => abaa/....",
        |line: &str| shown(alloc, line),
    )
}

#[test]
fn borders_look_so(rt: HostRuntime) -> Result<(), Fail> {
    let alloc = rt.alloc();
    each_line(
        "\
4 3 | Screen/  Static #s \"a\" | #s { border: solid red; } | => ┌──┐/│a.│/└──┘
4 3 | Screen/  Static #s \"a\" | #s { border: round red; } | => ╭──╮/│a.│/╰──╯
4 3 | Screen/  Static #s \"a\" | #s { border: double red; } | => ╔══╗/║a.║/╚══╝
4 3 | Screen/  Static #s \"a\" | #s { border: heavy red; } | => ┏━━┓/┃a.┃/┗━━┛
4 3 | Screen/  Static #s \"a\" | #s { border: ascii red; } | => +--+/|a.|/+--+
4 3 | Screen/  Static #s \"a\" | #s { border: blank red; } | => ..../.a../....
4 2 | Screen/  Static #s \"a\" | #s { border-top: solid red; } | => ────/a...
4 2 | Screen/  Static #s \"a\" | #s { border-top: solid red; border-left: heavy red; } | => ┌───/┃a..
4 2 | Screen/  Static #s \"a\" | #s { border-bottom: double red; border-right: solid red; } | => a..│/═══╝
4 1 | Screen/  Static #s \"a\" | #s { border: solid red; height: 1; } | => ┌──┐
1 3 | Screen/  Static #s \"a\" | #s { border: solid red; width: 1; height: 3; } | => ┌/│/└
5 3 | Screen/  Static #s \"a\" | #s { border: round red; padding: 0 1; } | => ╭───╮/│.a.│/╰───╯",
        |line: &str| shown(alloc, line),
    )
}

#[test]
fn bars_look_so(rt: HostRuntime) -> Result<(), Fail> {
    let alloc = rt.alloc();
    each_line(
        "\
6 2 | Screen/  Static #s \"abcdefgh\" | Screen { overflow: auto hidden; } #s { width: 8; } | => abcdef/████░░
6 2 | Screen/  Static #s \"abcdefgh\" | Screen { overflow: auto hidden; } #s { width: 8; } |scroll 2 0 => cdefgh/░░████
6 2 | Screen/  Static #s \"abcdefgh\" | Screen { overflow: auto hidden; } #s { width: 8; } |scroll 9 9 => cdefgh/░░████
6 3 | Screen/  Static \"a\" | Screen { overflow: scroll; } | => a...██/....██/████..
6 3 | Screen/  VerticalScroll #v/    Static \"a\\nb\\nc\\nd\" | #v { padding: 0 1; } | => .a.██./.b.██./.c.░░.
1 3 | Screen/  Static \"a\\nb\\nc\\nd\\ne\\nf\" | Label { } | => █/░/░",
        |line: &str| shown(alloc, line),
    )
}
