//! Texts that are read, and texts that are refused.
use crate::{read_tree, write_tree};
use std::alloc::Global;
use std::test::Fail;
use tx_expect::{each_line, expect};
use tx_tree::{Kind, Name, NewRow, NodeId, Private, Tree, TreeFault};

// Longer texts than this stand in no test.
const LONGEST: usize = 10_000;

/// The text with a line feed for each slash, and a byte that is no UTF-8 for each tilde.
fn text_of(alloc: Global, text: &str) -> Result<Vec<u8>, Fail> {
    let mut bytes = Vec::new(alloc);
    for byte in text.as_bytes() {
        let meant = match *byte {
            b'/' => b'\n',
            b'~' => 0xff,
            other => other,
        };
        bytes.push(meant)?;
    }
    Ok(bytes)
}

fn read(alloc: Global, bytes: &[u8]) -> Result<Result<Tree, TreeFault>, Fail> {
    if bytes.len() > LONGEST {
        return Err(Fail::from("the text is too long"));
    }
    Ok(read_tree(alloc, bytes))
}

/// `ok` where the bytes are read and written again as they were; else the line and the kind of
/// the fault.
fn outcome(alloc: Global, bytes: &[u8]) -> Result<String, Fail> {
    match read(alloc, bytes)? {
        Ok(tree) => {
            expect(tree.spelled(), "a spelling")?;
            let written = write_tree(alloc, &tree)?;
            let same = written.as_slice() == bytes;
            Ok(String::from_str(alloc, if same { "ok" } else { "other" })?)
        }
        Err(TreeFault::Grammar { line, kind }) => Ok(format!(in alloc; "{line} {kind:?}")?),
        Err(_) => Err(Fail::from("another fault")),
    }
}

fn comes_out(alloc: Global, wanted: &str, bytes: &[u8]) -> Result<(), Fail> {
    let found = outcome(alloc, bytes)?;
    if found.as_str() == wanted {
        return Ok(());
    }
    Err(Fail::from(format!(in alloc; "{found}, not {wanted}")?))
}

/// What comes out of a text.
fn whole_text(alloc: Global, given: &str) -> Result<String, Fail> {
    let bytes = text_of(alloc, given)?;
    outcome(alloc, &bytes)
}

/// What comes out of a text by its second line, which stands one step below the Screen.
fn second_line(alloc: Global, given: &str) -> Result<String, Fail> {
    let text = format!(in alloc; "Screen\n  {given}\n")?;
    outcome(alloc, text.as_bytes())
}

#[test]
fn first_lines(rt: HostRuntime) -> Result<(), Fail> {
    let alloc = rt.alloc();
    each_line(
        "\
Screen/ => ok\n\
\x20=> 1 Expected\n\
/ => 1 Expected\n\
Screen => 1 Expected\n\
Static/ => 1 Expected\n\
\x20Screen/ => 1 BadIndent\n\
\x20 Screen => 1 BadIndent\n\
bind a focus_next/ => 1 Expected\n\
\x20 bind a focus_next/ => 1 Expected\n\
\x20 binds a focus_next/ => 1 BadIndent\n\
Screen / => 1 Expected\n\
screen/ => 1 Expected\n\
Screens/ => 1 Expected\n\
Screen #s .a disabled \"t\" {x}/ => ok\n\
~/ => 1 BadByte\n\
\x20~ => 1 BadByte\n\
\x20x => 1 BadIndent",
        |given| whole_text(alloc, given),
    )
}

#[test]
fn indents(rt: HostRuntime) -> Result<(), Fail> {
    let alloc = rt.alloc();
    each_line(
        "\
Screen/  Static/ => ok\n\
Screen/Static/ => 2 BadIndent\n\
Screen/ Static/ => 2 BadIndent\n\
Screen/   Static/ => 2 BadIndent\n\
Screen/    Static/ => 2 BadIndent\n\
Screen/  Vertical/    Static/ => ok\n\
Screen/  Vertical/    Static/  Static/ => ok\n\
Screen/  Vertical/      Static/ => 3 BadIndent\n\
Screen/  Vertical/    Grid/ Static/ => 4 BadIndent\n\
Screen// => 2 BadIndent\n\
Screen/  Static// => 3 BadIndent\n\
Screen/Screen/ => 2 BadIndent\n\
Screen/  Screen/ => 2 Expected\n\
Screen/\tStatic/ => 2 BadIndent\n\
Screen/  \tStatic/ => 2 Expected\n\
Screen/  / => 2 Expected",
        |given| whole_text(alloc, given),
    )
}

#[test]
fn indents_of_bindings(rt: HostRuntime) -> Result<(), Fail> {
    let alloc = rt.alloc();
    each_line(
        "\
Screen/  bind a focus_next/ => ok\n\
Screen/bind a focus_next/ => 2 BadIndent\n\
Screen/ bind a focus_next/ => 2 BadIndent\n\
Screen/    bind a focus_next/ => 2 BadIndent\n\
Screen/  Static/    bind a focus_next/ => ok\n\
Screen/  Static/  bind a focus_next/ => 3 BadIndent\n\
Screen/  Static/   bind a focus_next/ => 3 BadIndent\n\
Screen/  Static/      bind a focus_next/ => 3 BadIndent\n\
Screen/  bind a focus_next/  bind b focus_next/  Static/    bind a toggle_dark/  Static/ => ok\n\
Screen/  Vertical/    Static/    bind a focus_next/ => 4 BadIndent\n\
Screen/  bind/ => 2 Expected\n\
Screen/bind/ => 2 BadIndent\n\
Screen/  bindx a focus_next/ => 2 Expected\n\
Screen/    bindx a focus_next/ => 2 BadIndent",
        |given| whole_text(alloc, given),
    )
}

#[test]
fn last_lines(rt: HostRuntime) -> Result<(), Fail> {
    let alloc = rt.alloc();
    each_line(
        "\
Screen/  Static => 2 Expected\n\
Screen/  bind a focus_next => 2 Expected\n\
Screen/ Static => 2 BadIndent\n\
Screen/Static => 2 BadIndent\n\
Screen/bind a focus_next => 2 BadIndent\n\
Screen/ ~ => 2 BadByte\n\
Screen/   => 2 Expected\n\
Screen/  Static/    Label => 3 Expected\n\
Screen #a/  Static #a => 2 Expected",
        |given| whole_text(alloc, given),
    )
}

#[test]
fn kinds_of_rows(rt: HostRuntime) -> Result<(), Fail> {
    let alloc = rt.alloc();
    each_line(
        "\
Container => ok\n\
Vertical => ok\n\
Horizontal => ok\n\
Grid => ok\n\
VerticalScroll => ok\n\
Static => ok\n\
Label => ok\n\
Button => ok\n\
Checkbox => ok\n\
Input => ok\n\
OptionList => ok\n\
ProgressBar => ok\n\
Header => ok\n\
Footer => ok\n\
Meter => ok\n\
Statics => ok\n\
M-_9 => ok\n\
Maaaaaaaaaaaaaaaaaaaaaaaaaaaaaaaaaaaaaaaaaaaaaaaaaaaaaaaaaaaaaaa => ok\n\
Maaaaaaaaaaaaaaaaaaaaaaaaaaaaaaaaaaaaaaaaaaaaaaaaaaaaaaaaaaaaaaaa => 2 Expected\n\
meter => 2 Expected\n\
_Meter => 2 Expected\n\
9 => 2 Expected\n\
M.a => 2 Expected\n\
M a => 2 Expected\n\
Screen => 2 Expected\n\
Äpfel => 2 Expected\n\
\x20=> 2 Expected",
        |given| second_line(alloc, given),
    )
}

#[test]
fn ids_and_classes(rt: HostRuntime) -> Result<(), Fail> {
    let alloc = rt.alloc();
    each_line(
        "\
Static #a => ok\n\
Static #_-9 ._ .b-2 => ok\n\
Static .a .b .c => ok\n\
Static #a .a => ok\n\
Static # => 2 Expected\n\
Static  #a => 2 Expected\n\
Static #1 => 2 Expected\n\
Static #a  => 2 Expected\n\
Static #a #b => 2 Expected\n\
Static .a #b => 2 Expected\n\
Static #a.b => 2 Expected\n\
Static .a .a => 2 Expected\n\
Static .a .b .a => 2 Expected\n\
Static . => 2 Expected\n\
Static .a.b => 2 Expected\n\
Static . a => 2 Expected\n\
Static.a => 2 Expected\n\
Static a => 2 Expected\n\
#a => 2 Expected",
        |given| second_line(alloc, given),
    )
}

#[test]
fn states(rt: HostRuntime) -> Result<(), Fail> {
    let alloc = rt.alloc();
    each_line(
        "\
Static disabled => ok\n\
Checkbox on => ok\n\
Checkbox disabled on => ok\n\
Button #a .b disabled => ok\n\
ProgressBar total 1 => ok\n\
ProgressBar total 99 => ok\n\
ProgressBar total 101 => ok\n\
ProgressBar total 1000000 => ok\n\
ProgressBar disabled total 40 => ok\n\
Static disabled disabled => 2 Expected\n\
Static disabled .a => 2 Expected\n\
Static disabledx => 2 Expected\n\
Static  disabled => 2 Expected\n\
Static on => 2 Expected\n\
Input on => 2 Expected\n\
Checkbox off => 2 Expected\n\
Checkbox on on => 2 Expected\n\
Checkbox on disabled => 2 Expected\n\
Checkbox ona => 2 Expected\n\
ProgressBar total 100 => 2 Expected\n\
ProgressBar total 0 => 2 Expected\n\
ProgressBar total 040 => 2 Expected\n\
ProgressBar total 1000001 => 2 Expected\n\
ProgressBar total 4294967336 => 2 Expected\n\
ProgressBar total => 2 Expected\n\
ProgressBar total  => 2 Expected\n\
ProgressBar total -1 => 2 Expected\n\
ProgressBar total 4 0 => 2 Expected\n\
ProgressBar total 4x => 2 Expected\n\
Static total 40 => 2 Expected\n\
Checkbox total 40 => 2 Expected\n\
ProgressBar on => 2 Expected",
        |given| second_line(alloc, given),
    )
}

#[test]
fn texts(rt: HostRuntime) -> Result<(), Fail> {
    let alloc = rt.alloc();
    each_line(
        "\
Static \"a\" => ok\n\
Static \"a b  c\" => ok\n\
Static \"\\\"\" => ok\n\
Static \"\\\\\" => ok\n\
Static \"a\\nb\" => ok\n\
Static \"\\\\n\" => ok\n\
Static \"\t\" => ok\n\
Static \"\x7f\" => ok\n\
Static \"#a .b on {c}\" => ok\n\
Static #a .b disabled \"c\" => ok\n\
Checkbox on \"c\" => ok\n\
Static \"世\" => ok\n\
Static \"\" => 2 Expected\n\
Static \"a => 2 Expected\n\
Static \" => 2 Expected\n\
Static \"a\\\" => 2 Expected\n\
Static \"\\t\" => 2 Expected\n\
Static \"\\x\" => 2 Expected\n\
Static \"\\\" => 2 Expected\n\
Static \"\x01\" => 2 Expected\n\
Static \"\x1f\" => 2 Expected\n\
Static \"a\"b => 2 Expected\n\
Static \"a\" \"b\" => 2 Expected\n\
Static  \"a\" => 2 Expected\n\
Static\"a\" => 2 Expected\n\
Static \"a\" #b => 2 Expected\n\
Static \"a\"  => 2 Expected\n\
Static a\" => 2 Expected",
        |given| second_line(alloc, given),
    )
}

#[test]
fn inline_texts(rt: HostRuntime) -> Result<(), Fail> {
    let alloc = rt.alloc();
    each_line(
        "\
Static {a} => ok\n\
Static {a}} => ok\n\
Static {{a} => ok\n\
Static { } => ok\n\
Static {;} => ok\n\
Static {\"} => ok\n\
Static {\x01} => ok\n\
Static {a} {b} => ok\n\
Static \"t\" {i} => ok\n\
ProgressBar total 7 {i} => ok\n\
Static {世} => ok\n\
Static {} => 2 Expected\n\
Static {a => 2 Expected\n\
Static {a}  => 2 Expected\n\
Static { => 2 Expected\n\
Static {a} \"t\" => 2 Expected\n\
Static  {a} => 2 Expected\n\
Static{a} => 2 Expected\n\
Static \"t\"{a} => 2 Expected\n\
Static \"t\"  {a} => 2 Expected\n\
Static a} => 2 Expected",
        |given| second_line(alloc, given),
    )
}

#[test]
fn keys(rt: HostRuntime) -> Result<(), Fail> {
    let alloc = rt.alloc();
    each_line(
        "\
bind space focus_next => ok\n\
bind enter focus_next => ok\n\
bind escape focus_next => ok\n\
bind tab focus_next => ok\n\
bind shift+tab focus_next => ok\n\
bind backspace focus_next => ok\n\
bind delete focus_next => ok\n\
bind up focus_next => ok\n\
bind down focus_next => ok\n\
bind left focus_next => ok\n\
bind right focus_next => ok\n\
bind home focus_next => ok\n\
bind end focus_next => ok\n\
bind pageup focus_next => ok\n\
bind pagedown focus_next => ok\n\
bind f1 focus_next => ok\n\
bind f9 focus_next => ok\n\
bind f10 focus_next => ok\n\
bind f12 focus_next => ok\n\
bind ctrl+a focus_next => ok\n\
bind ctrl+z focus_next => ok\n\
bind a focus_next => ok\n\
bind f focus_next => ok\n\
bind Z focus_next => ok\n\
bind { focus_next => ok\n\
bind \" focus_next => ok\n\
bind # focus_next => ok\n\
bind + focus_next => ok\n\
bind é focus_next => ok\n\
bind 世 focus_next => ok\n\
bind \u{a0} focus_next => ok\n\
bind \\ focus_next => ok\n\
bind  focus_next => 2 Expected\n\
bind aa focus_next => 2 Expected\n\
bind Space focus_next => 2 Expected\n\
bind f0 focus_next => 2 Expected\n\
bind f13 focus_next => 2 Expected\n\
bind f01 focus_next => 2 Expected\n\
bind f123 focus_next => 2 Expected\n\
bind F1 focus_next => 2 Expected\n\
bind ctrl+ focus_next => 2 Expected\n\
bind ctrl+A focus_next => 2 Expected\n\
bind ctrl+aa focus_next => 2 Expected\n\
bind ctrl+1 focus_next => 2 Expected\n\
bind shift+a focus_next => 2 Expected\n\
bind plus focus_next => 2 Expected\n\
bind \x7f focus_next => 2 Expected\n\
bind \u{80} focus_next => 2 Expected\n\
bind \u{9f} focus_next => 2 Expected\n\
bind \x01 focus_next => 2 Expected\n\
bind éa focus_next => 2 Expected\n\
bind priority a focus_next => ok\n\
bind p focus_next => ok\n\
bind priority focus_next => 2 Expected\n\
bind priority priority a focus_next => 2 Expected\n\
bind  a focus_next => 2 Expected\n\
bind priority  a focus_next => 2 Expected",
        |given| second_line(alloc, given),
    )
}

#[test]
fn actions(rt: HostRuntime) -> Result<(), Fail> {
    let alloc = rt.alloc();
    each_line(
        "\
bind a focus_next => ok\n\
bind a focus_previous => ok\n\
bind a toggle_dark => ok\n\
bind a scroll_up => ok\n\
bind a scroll_down => ok\n\
bind a scroll_home => ok\n\
bind a scroll_end => ok\n\
bind a page_up => ok\n\
bind a page_down => ok\n\
bind a toggle_class a => ok\n\
bind a toggle_class _-9 => ok\n\
bind priority f1 toggle_class a => ok\n\
bind a => 2 Expected\n\
bind a  => 2 Expected\n\
bind a => 2 Expected\n\
bind a focus => 2 Expected\n\
bind a focus_next  => 2 Expected\n\
bind a focus_next x => 2 Expected\n\
bind a  focus_next => 2 Expected\n\
bind a toggle_class => 2 Expected\n\
bind a toggle_class  => 2 Expected\n\
bind a toggle_class 1 => 2 Expected\n\
bind a toggle_class a b => 2 Expected\n\
bind a toggle_class .a => 2 Expected\n\
bind a scroll_left => 2 Expected\n\
bind a Focus_next => 2 Expected",
        |given| second_line(alloc, given),
    )
}

#[test]
fn places_of_rows(rt: HostRuntime) -> Result<(), Fail> {
    let alloc = rt.alloc();
    each_line(
        "\
Screen/  Container/    Label/ => ok\n\
Screen/  Vertical/    Label/ => ok\n\
Screen/  Horizontal/    Label/ => ok\n\
Screen/  Grid/    Label/ => ok\n\
Screen/  VerticalScroll/    Label/ => ok\n\
Screen/  Static/    Label/ => 3 Leaf\n\
Screen/  Label/    Label/ => 3 Leaf\n\
Screen/  Button/    Label/ => 3 Leaf\n\
Screen/  Checkbox/    Label/ => 3 Leaf\n\
Screen/  Input/    Label/ => 3 Leaf\n\
Screen/  OptionList/    Label/ => 3 Leaf\n\
Screen/  ProgressBar/    Label/ => 3 Leaf\n\
Screen/  Header/    Label/ => 3 Leaf\n\
Screen/  Footer/    Label/ => 3 Leaf\n\
Screen/  Meter/    Label/ => 3 Leaf\n\
Screen #a/  Static #a/ => 2 DuplicateId\n\
Screen/  Static #a/  Static #a/ => 3 DuplicateId\n\
Screen/  Static #a/  Static #b/ => ok\n\
Screen #a .a/  Static .a/  Static #A/ => ok\n\
Screen/  Grid #a/    Grid/      Static #a/ => 4 DuplicateId\n\
Screen/  Grid/    Static/      Label/ => 4 Leaf",
        |given| whole_text(alloc, given),
    )
}

#[test]
fn two_faults_of_a_line(rt: HostRuntime) -> Result<(), Fail> {
    let alloc = rt.alloc();
    each_line(
        "\
Screen/~Static/ => 2 BadByte\n\
Screen/  static ~/ => 2 BadByte\n\
Screen #a/  Static #a \"~\"/ => 2 BadByte\n\
Screen/  Static/    Label \"~\"/ => 3 BadByte\n\
Screen/bind ~ focus_next/ => 2 BadByte\n\
Screen/ static/ => 2 BadIndent\n\
Screen/ bind/ => 2 BadIndent\n\
Screen/  Static/     Label/ => 3 BadIndent\n\
Screen #a/ Static #a/ => 2 BadIndent\n\
Screen/  Static/    label/ => 3 Expected\n\
Screen/  Static/    Screen/ => 3 Expected\n\
Screen #a/  Static #a .b .b/ => 2 Expected\n\
Screen #a/  Screen #a/ => 2 Expected\n\
Screen #a/  Static/    Label #a/ => 3 Leaf\n\
Screen/Static/~/ => 2 BadIndent\n\
Screen/  Static/~/ => 3 BadByte\n\
Screen/  static/ Static/ => 2 Expected\n\
Screen #a/  Static #a/~ => 2 DuplicateId\n\
Screen #a/  Static #a/  bind/ => 2 DuplicateId\n\
Screen/  Static #a/    bind/  Static #a/ => 3 Expected",
        |given| whole_text(alloc, given),
    )
}

/// A Container at each depth from 1 to 62, and a last row at 63.
fn deep_text(alloc: Global, last: &str) -> Result<String, Fail> {
    let mut text = String::from_str(alloc, "Screen\n")?;
    let mut indent = String::from_str(alloc, "")?;
    for _ in 0..62 {
        indent.push_str("  ")?;
        text.push_str(indent.as_str())?;
        text.push_str("Grid\n")?;
    }
    indent.push_str("  ")?;
    text.push_str(indent.as_str())?;
    text.push_str(last)?;
    text.push_str("\n")?;
    text.push_str(indent.as_str())?;
    Ok(text)
}

fn deep_comes_out(alloc: Global, wanted: &str, last: &str, more: &str) -> Result<(), Fail> {
    let mut text = deep_text(alloc, last)?;
    text.push_str(more)?;
    comes_out(alloc, wanted, text.as_bytes())
}

#[test]
fn an_indent_that_is_too_far(rt: HostRuntime) -> Result<(), Fail> {
    let alloc = rt.alloc();
    let mut text = String::from_str(alloc, "Screen\n")?;
    for _ in 0..128 {
        text.push_str(" ")?;
    }
    text.push_str("Static\n")?;
    comes_out(alloc, "2 BadIndent", text.as_bytes())
}

#[test]
fn the_deepest_rows(rt: HostRuntime) -> Result<(), Fail> {
    let alloc = rt.alloc();
    deep_comes_out(alloc, "ok", "Grid", "Static\n")?;
    deep_comes_out(alloc, "ok", "Static", "  bind a focus_next\n")?;
    deep_comes_out(alloc, "65 TooDeep", "Grid", "  Static\n")?;
    deep_comes_out(alloc, "65 TooDeep", "Static #a", "  Static #a\n")?;
    deep_comes_out(alloc, "65 TooDeep", "Grid", "  static")?;
    deep_comes_out(alloc, "65 BadIndent", "Grid", "   Static\n")?;
    deep_comes_out(alloc, "65 BadIndent", "Grid", "    Static\n")?;
    deep_comes_out(alloc, "65 BadIndent", "Grid", "    bind a focus_next\n")?;
    deep_comes_out(alloc, "65 Expected", "Grid", "  bind\n")
}

#[test]
fn what_is_kept_of_a_row(rt: HostRuntime) -> Result<(), Fail> {
    let alloc = rt.alloc();
    let text =
        "Screen\n  Input \"ab\"\n  Checkbox on\n  ProgressBar total 7\n  ProgressBar\n  OptionList\n";
    let tree = read(alloc, text.as_bytes())??;
    let states = [
        Private::Plain,
        Private::Cursor(2),
        Private::On(true),
        Private::Bar { done: 0, total: 7 },
        Private::Bar {
            done: 0,
            total: 100,
        },
        Private::Chosen(0),
    ];
    let mut number = 1u32;
    for state in states {
        let row = tree.row(NodeId(number)).ok_or("no such row")?;
        expect(row.private == state, "the state")?;
        number = number.saturating_add(1);
    }
    Ok(())
}

const PARCELS: &str =
    "Screen\n  bind ctrl+d toggle_dark\n  Header \"Parcels\"\n  Footer \"^d dark  tab next\"\n  Vertical #side\n    Label .title \"Depots\"\n    OptionList #depots \"North\\nSouth\\nEast\"\n  Vertical #main\n    Input #find\n    Grid #keys\n      Button #new \"New\"\n      Button #open \"Open\"\n      Button #close \"Close\"\n      Checkbox #late \"Late only\"\n    ProgressBar #load total 40\n";

#[test]
fn an_application(rt: HostRuntime) -> Result<(), Fail> {
    let alloc = rt.alloc();
    comes_out(alloc, "ok", PARCELS.as_bytes())?;
    let tree = read(alloc, PARCELS.as_bytes())??;
    let load = tree.row(NodeId(14)).ok_or("no row 14")?;
    expect(load.id == Name::of("load"), "the id of the last row")?;
    expect(
        load.kind == Kind::ProgressBar && load.depth == 2,
        "its kind and depth",
    )?;
    expect(
        tree.root() == NodeId(1) && tree.made() == 14,
        "the first and the last number",
    )
}

#[test]
fn edits_of_a_tree_that_was_read(rt: HostRuntime) -> Result<(), Fail> {
    let alloc = rt.alloc();
    let mut tree = read(alloc, b"Screen\n  Static #a\n  Static #b\n")??;
    let mut again = NewRow::of(alloc, Kind::Static);
    again.id = Name::of("a");
    expect(
        tree.mount(NodeId(1), again) == Err(TreeFault::DuplicateId),
        "an id that was read",
    )?;
    tree.move_before(NodeId(3), NodeId(2))?;
    expect(tree.spelled(), "a spelling")?;
    let written = write_tree(alloc, &tree)?;
    expect(
        written.as_slice() == b"Screen\n  Static #b\n  Static #a\n".as_slice(),
        "the text of the edited tree",
    )
}
