//! Which fault of a tree and a sheet is reported.
use crate::{OpeningFault, read_opening};
use std::alloc::Global;
use std::test::Fail;
use tx_expect::each_line;

// Longer texts than this stand in no table.
const LONGEST: usize = 10_000;

fn told(alloc: Global, fault: OpeningFault) -> Result<String, Fail> {
    match fault {
        OpeningFault::Rows { line, kind } => Ok(format!(in alloc; "tree {line}: {kind:?}")?),
        OpeningFault::Sheet { line, column, kind } => {
            Ok(format!(in alloc; "sheet {line}:{column}: {kind:?}")?)
        }
        OpeningFault::NoMemory => Err(Fail::from("no memory")),
    }
}

fn opened(alloc: Global, tree: &str, sheet: &str) -> Result<String, Fail> {
    if tree.len() > LONGEST || sheet.len() > LONGEST {
        return Err(Fail::from("too long"));
    }
    match read_opening(alloc, tree.as_bytes(), sheet.as_bytes()) {
        Ok(opening) => Ok(format!(in alloc;
            "nodes {}, rules {}",
            opening.tree.made(),
            opening.sheet.rules().as_slice().len()
        )?),
        Err(fault) => told(alloc, fault),
    }
}

/// What is read of a tree and a sheet, between which stands `@`.
fn answer(alloc: Global, given: &str) -> Result<String, Fail> {
    let Some((tree, sheet)) = given.split_once("@") else {
        return Err(Fail::from("no sheet"));
    };
    let tree = tree.replace(alloc, "|", "\n")?;
    let sheet = sheet.replace(alloc, "|", "\n")?;
    opened(alloc, tree.as_str(), sheet.as_str())
}

#[test]
fn openings_are_read(rt: HostRuntime) -> Result<(), Fail> {
    let alloc = rt.alloc();
    each_line(
        "\
Screen|@ => nodes 1, rules 0\n\
Screen|  Static {color: red}|@A {} B {} => nodes 2, rules 2\n\
Screen {width: 1; height: 2;}|  bind a focus_next|  Button \"{\"|@$a: red; A { color: $a; } => nodes 2, rules 1",
        |given| answer(alloc, given),
    )
}

#[test]
fn faults_of_one_sort(rt: HostRuntime) -> Result<(), Fail> {
    let alloc = rt.alloc();
    each_line(
        "\
@ => tree 1: Tree(Expected)\n\
Screen@ => tree 1: Tree(Expected)\n\
Screen|Static|@ => tree 2: Tree(BadIndent)\n\
Screen|  Meter|  Gauge|@ => tree 2: NoCustom\n\
Screen|  Container|    Label|  Meter #m|@ => tree 4: NoCustom\n\
Screen|  Static {color}|  Static {width}|@ => tree 2: Inline\n\
Screen {color: $a}|@$a: red; => tree 1: Inline\n\
Screen|@A { color: red => sheet 1:15: Expected\n\
Screen|@A {}|B { color: $hot; } => sheet 2:12: UndefinedVariable",
        |given| answer(alloc, given),
    )
}

#[test]
fn the_first_of_two_faults(rt: HostRuntime) -> Result<(), Fail> {
    let alloc = rt.alloc();
    each_line(
        "\
Screen|  Static {color}|  Meter|@ => tree 3: NoCustom\n\
Screen|  Meter|  Static {color}|@ => tree 2: NoCustom\n\
Screen|  Meter {color}|@ => tree 2: NoCustom\n\
Screen|  Static {color}|  static|@ => tree 3: Tree(Expected)\n\
Screen|  Meter|Static|@ => tree 3: Tree(BadIndent)\n\
Screen|  static|  Meter {color}|@ => tree 2: Tree(Expected)\n\
Screen|  Meter|@A { => tree 2: NoCustom\n\
Screen|  Static {color}|@A { => tree 2: Inline\n\
Screen|  static|@A { => tree 2: Tree(Expected)",
        |given| answer(alloc, given),
    )
}

#[test]
fn bindings_have_lines(rt: HostRuntime) -> Result<(), Fail> {
    let alloc = rt.alloc();
    each_line(
        "\
Screen|  bind a focus_next|  Meter|    bind b focus_next|@ => tree 3: NoCustom\n\
Screen|  bind a focus_next|  bind b focus_next|  Static|    bind c focus_next|  Meter|@ => tree 6: NoCustom\n\
Screen|  bind a focus_next|  Static|    bind b focus_next|  Static {color}|@ => tree 5: Inline",
        |given| answer(alloc, given),
    )
}
