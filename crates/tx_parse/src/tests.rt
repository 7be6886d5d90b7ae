use crate::{Sheet, SheetFault, read_inline, read_sheet};
use std::alloc::Global;
use std::test::Fail;
use tx_expect::{each_line, expect};
use tx_text::Name;
use tx_value::{Ink, Value};

/// A fault as a text.
fn told(alloc: Global, fault: SheetFault) -> Result<String, Fail> {
    match fault {
        SheetFault::Text { line, column, kind } => {
            Ok(format!(in alloc; "{}:{}: {:?}", line, column, kind)?)
        }
        SheetFault::NoMemory => Ok(String::from_str(alloc, "no memory")?),
    }
}

/// What a sheet has, or its fault.
fn answer(alloc: Global, text: &[u8]) -> Result<String, Fail> {
    let short = text.split_at(text.len().min(1_000_000)).0;
    match read_sheet(alloc, short) {
        Ok(sheet) => Ok(format!(in alloc;
            "rules {}, declarations {}, variables {}",
            sheet.rules().as_slice().len(),
            sheet.declarations(),
            sheet.variables()
        )?),
        Err(fault) => told(alloc, fault),
    }
}

/// How many declarations an inline text has, or its fault.
fn inline_answer(alloc: Global, text: &str) -> Result<String, Fail> {
    if text.len() > 1000 {
        return Err(Fail::from("too long"));
    }
    match read_inline(alloc, text) {
        Ok(declarations) => Ok(format!(in alloc; "{}", declarations.len())?),
        Err(fault) => told(alloc, fault),
    }
}

/// What is read of a sheet in which `|` stands for a line feed.
fn line_answer(alloc: Global, text: &str) -> Result<String, Fail> {
    let sheet = text.replace(alloc, "|", "\n")?;
    answer(alloc, sheet.as_str().as_bytes())
}

#[test]
fn sheets_are_read(rt: HostRuntime) -> Result<(), Fail> {
    let alloc = rt.alloc();
    each_line(
        "\
A{} => rules 1, declarations 0, variables 0\n\
A { ; ; } => rules 1, declarations 0, variables 0\n\
A { width: 1; } => rules 1, declarations 1, variables 0\n\
A { width: 1 } => rules 1, declarations 1, variables 0\n\
A, B { width: 1; height: 2 } => rules 1, declarations 2, variables 0\n\
A{margin:1 2} => rules 1, declarations 1, variables 0\n\
$a: red; => rules 0, declarations 0, variables 1\n\
$a: red; $a: blue; => rules 0, declarations 0, variables 2\n\
$a: red; A { color: $a; } => rules 1, declarations 1, variables 1\n\
$a: red; $b: $a; $a: blue; A { color: $b } => rules 1, declarations 1, variables 3\n\
A { color: $text } => rules 1, declarations 1, variables 0\n\
A { width: 1 !important; } => rules 1, declarations 1, variables 0\n\
A { width: 1 ! /**/ important /**/ } => rules 1, declarations 1, variables 0\n\
A/**/{/**/width/**/:/**/1/**/;/**/}/**/ => rules 1, declarations 1, variables 0\n\
A > B C.d:hover#e {} => rules 1, declarations 0, variables 0\n\
* {} .a {} #b {} :focus {} => rules 4, declarations 0, variables 0\n\
A {} $a: 1; B {} => rules 2, declarations 0, variables 1\n\
$i: initial; A { margin: $i; } => rules 1, declarations 1, variables 1\n\
A { text-style: bold bold; } => rules 1, declarations 1, variables 0\n\
A { color: rgb(1,2,3) 50%; } => rules 1, declarations 1, variables 0\n\
A { width: initial } => rules 1, declarations 1, variables 0\n\
$text: red; A { color: $text } => rules 1, declarations 1, variables 1\n\
A { background: #FFF; } => rules 1, declarations 1, variables 0\n\
A { layers: a b a; layer: a } => rules 1, declarations 2, variables 0\n\
$ a: 1; => 1:1: BadByte",
        |text| line_answer(alloc, text),
    )
}

#[test]
fn what_may_not_stand_there_is_refused(rt: HostRuntime) -> Result<(), Fail> {
    let alloc = rt.alloc();
    each_line(
        "\
A => 1:2: Expected\n\
A { => 1:4: Expected\n\
A { width: 1; => 1:14: Expected\n\
A { width } => 1:11: Expected\n\
A { width: } => 1:12: Expected\n\
A { width: 1 height: 2 } => 1:20: Expected\n\
A { width: 1 ! } => 1:16: Expected\n\
A { width: 1 !important 2 } => 1:25: Expected\n\
A { width: 1 !importent } => 1:15: Expected\n\
} => 1:1: Expected\n\
A { }} => 1:6: Expected\n\
A,{ } => 1:3: Expected\n\
, A {} => 1:1: Expected\n\
> A {} => 1:1: Expected\n\
A > {} => 1:5: Expected\n\
A..b {} => 1:3: Expected\n\
A. b {} => 1:3: Expected\n\
A: hover {} => 1:3: Expected\n\
A/**/B {} => 1:6: Expected",
        |text| line_answer(alloc, text),
    )
}

#[test]
fn what_is_missing_is_told(rt: HostRuntime) -> Result<(), Fail> {
    let alloc = rt.alloc();
    each_line(
        "\
$a red; => 1:4: Expected\n\
$a: ; => 1:5: Expected\n\
$a: red => 1:8: Expected\n\
$a: red !important; => 1:9: Expected\n\
$a: red } => 1:9: Expected\n\
A { 1: 2; } => 1:5: Expected\n\
A { $a: 1; } => 1:5: Expected\n\
A { width; } => 1:10: Expected\n\
A { width: 1; ! } => 1:15: Expected\n\
A { width: 1 : } => 1:14: Expected\n\
A #1 {} => 1:3: Expected\n\
1 {} => 1:1: Expected\n\
A { width: red => 1:15: Expected\n\
A { width: red ! } => 1:18: Expected\n\
/* é */ } => 1:9: Expected\n\
/* é */|  } => 2:3: Expected\n\
} @ => 1:1: Expected\n\
A B { width 1 } => 1:13: Expected",
        |text| line_answer(alloc, text),
    )
}

#[test]
fn each_kind_is_told_at_its_place(rt: HostRuntime) -> Result<(), Fail> {
    let alloc = rt.alloc();
    each_line(
        "\
$a: $b; => 1:5: UndefinedVariable\n\
A { color: $a; } => 1:12: UndefinedVariable\n\
A { color: $a; } $a: red; => 1:12: UndefinedVariable\n\
$a: $a; => 1:5: UndefinedVariable\n\
A { colour: red; } => 1:5: UnknownProperty\n\
A { Width: 1 } => 1:5: UnknownProperty\n\
A { colour } => 1:5: UnknownProperty\n\
A { B {} } => 1:5: UnknownProperty\n\
A:hovered {} => 1:3: UnknownPseudo\n\
A:Hover {} => 1:3: UnknownPseudo\n\
:x {} => 1:2: UnknownPseudo\n\
A { width: red; } => 1:12: BadValue\n\
A { width: /**/ red } => 1:17: BadValue\n\
A { margin: 1 2 3; } => 1:13: BadValue\n\
A {| color: 1;|} => 2:9: BadValue\n\
A { color: initial red } => 1:12: BadValue\n\
A { width: 1, 2 } => 1:12: BadValue\n\
A { width: ( } => 1:12: BadValue\n\
A { display: none block } => 1:14: BadValue\n\
$a: 1 2 3; A { margin: $a } => 1:24: BadValue\n\
A { color: transparent 5% } => 1:12: BadValue",
        |text| line_answer(alloc, text),
    )
}

#[test]
fn the_first_fault_is_told(rt: HostRuntime) -> Result<(), Fail> {
    let alloc = rt.alloc();
    each_line(
        "\
A { width: red; colour: 1 } => 1:12: BadValue\n\
A { colour: 1; width: red } => 1:5: UnknownProperty\n\
A { width: red $b } => 1:16: UndefinedVariable\n\
A { width: $b red } => 1:12: UndefinedVariable\n\
A:x { colour: 1 } => 1:3: UnknownPseudo\n\
A { colour: 1 } B:x {} => 1:5: UnknownProperty\n\
A { color: $b; } A:x {} => 1:12: UndefinedVariable\n\
A:x {} A { color: $b; } => 1:3: UnknownPseudo\n\
A { /* } => 1:5: Unclosed\n\
/* => 1:1: Unclosed\n\
A { } @ => 1:7: BadByte\n\
A { width: 1 @ } => 1:14: BadByte\n\
A { width: 1234567890 } => 1:12: NumberTooLong\n\
A { width: 0.1234567890123456789 } => 1:12: NumberTooLong\n\
A { colour: 1 } /* => 1:5: UnknownProperty\n\
A /* { colour } => 1:3: Unclosed\n\
@ } => 1:1: BadByte\n\
A@ => 1:2: BadByte\n\
A { width: red @ => 1:16: BadByte\n\
A { width: red; @ => 1:12: BadValue\n\
A { } é => 1:7: BadByte\n\
A { width: 1234567890 @ } => 1:12: NumberTooLong\n\
A { @ 1234567890 } => 1:5: BadByte\n\
A { width: 123456789 } => rules 1, declarations 1, variables 0\n\
A { width: 0.123456789012345678 } => rules 1, declarations 1, variables 0",
        |text| line_answer(alloc, text),
    )
}

#[test]
fn inline_texts_are_read(rt: HostRuntime) -> Result<(), Fail> {
    let alloc = rt.alloc();
    each_line(
        "\
; => 0\n\
/**/   => 0\n\
width: 1 => 1\n\
width: 1; => 1\n\
margin: 1 => 4\n\
width: 1; height: 2 => 2\n\
width: 1;; height: 1 => 2\n\
color: $text => 1\n\
width: 1 !important => 1\n\
color: $a => 1:8: UndefinedVariable\n\
width: 1 } => 1:10: Expected\n\
{ width: 1 } => 1:1: Expected\n\
width => 1:6: Expected\n\
width: => 1:7: Expected\n\
width: red => 1:8: BadValue\n\
colour: red => 1:1: UnknownProperty\n\
$a: 1; => 1:1: Expected\n\
width: 1 /* => 1:10: Unclosed\n\
width: red @ => 1:12: BadByte\n\
width: red; @ => 1:8: BadValue\n\
A { } => 1:1: UnknownProperty\n\
width: 1 height: 2 => 1:16: Expected\n\
} => 1:1: Expected\n\
width: 1; } => 1:11: Expected\n\
width: 1 ! => 1:11: Expected",
        |text| inline_answer(alloc, text),
    )
}

fn reads_bytes(alloc: Global, text: &[u8], wanted: &'static str) -> Result<(), Fail> {
    let found = answer(alloc, text)?;
    expect(found.as_str() == wanted, wanted)
}

#[test]
fn bytes_are_read_up_to_the_first_fault(rt: HostRuntime) -> Result<(), Fail> {
    let alloc = rt.alloc();
    let nothing = "rules 0, declarations 0, variables 0";
    reads_bytes(alloc, b"", nothing)?;
    reads_bytes(alloc, b" /* a */ \n", nothing)?;
    expect(inline_answer(alloc, "")?.as_str() == "0", "an empty text")?;
    reads_bytes(alloc, b"A { } \xff", "1:7: BadByte")?;
    reads_bytes(alloc, b"/* \xff */", "1:4: BadByte")?;
    reads_bytes(alloc, b"/* \xff", "1:1: Unclosed")?;
    reads_bytes(alloc, b"\xe2\x82", "1:1: BadByte")?;
    reads_bytes(alloc, b"A /* \xff */ {}", "1:6: BadByte")?;
    reads_bytes(alloc, b"A./* \xff */", "1:3: Expected")?;
    reads_bytes(alloc, b"$a:/* \xff */", "1:7: BadByte")
}

/// What is read of a text, another that is repeated, how often, and a last one, with `|` between
/// them.
fn limit_answer(alloc: Global, all: &str) -> Result<String, Fail> {
    let (front, rest) = all.split_once("|").ok_or("no text")?;
    let (text, rest) = rest.split_once("|").ok_or("no times")?;
    let (times, back) = rest.split_once("|").ok_or("no end")?;
    let times: usize = times.parse().map_err(|_| "no number")?;
    let middle = text.repeat(alloc, times)?;
    let sheet = format!(in alloc; "{front}{}{back}", middle.as_str())?;
    answer(alloc, sheet.as_str().as_bytes())
}

#[test]
fn limits_are_kept(rt: HostRuntime) -> Result<(), Fail> {
    let alloc = rt.alloc();
    each_line(
        "\
A { text-style:| bold|64|} => rules 1, declarations 1, variables 0\n\
A { text-style:| bold|65|} => 1:337: ValueTooLong\n\
$a: 1| 1|63|; => rules 0, declarations 0, variables 1\n\
$a: 1| 1|64|; => 1:133: ValueTooLong\n\
$a: 1 1 1; $b:| $a|21|; => rules 0, declarations 0, variables 2\n\
$a: 1 1 1; $b:| $a|22|; => 1:79: ValueTooLong\n\
A|,A|63|{} => rules 1, declarations 0, variables 0\n\
A|,A|64|{} => 1:129: Expected\n\
A| A|15|{} => rules 1, declarations 0, variables 0\n\
A| A|16|{} => 1:33: Expected\n\
|a|64| {} => rules 1, declarations 0, variables 0\n\
|a|65| {} => 1:1: Expected\n\
$|a|64|: 1; => rules 0, declarations 0, variables 1\n\
$|a|65|: 1; => 1:1: Expected\n\
A { color: $|a|65|; } => 1:12: UndefinedVariable\n\
A { layer: |a|65|; } => 1:12: BadValue\n\
|A{}|10000| $a: 1; => rules 10000, declarations 0, variables 1\n\
|A{}|10000| .1 => 1:30002: Expected\n\
|A{}|10000| .. => 1:30002: TooManyRules\n\
|A{}|10001| => 1:30001: TooManyRules",
        |line| limit_answer(alloc, line),
    )
}

/// How much red a value has, where it is a fixed colour.
fn red_of(value: &Value) -> Option<u8> {
    match value {
        Value::Ink(Ink::Fixed(colour)) => Some(colour.rgb.r),
        _ => None,
    }
}

#[test]
fn values_and_importance_are_kept(rt: HostRuntime) -> Result<(), Fail> {
    let alloc = rt.alloc();
    let sheet = read_sheet(
        alloc,
        b"$a: red; $b: $a; $a: blue; A { color: $b !important; color: $a }",
    )?;
    let rule = sheet.rules().as_slice().first().ok_or("a rule")?;
    expect(rule.selectors().as_slice().len() == 1, "one selector")?;
    let declarations = rule.declarations().as_slice();
    let first = declarations.first().ok_or("a declaration")?;
    let second = declarations.get(1).ok_or("two declarations")?;
    expect(first.important() && !second.important(), "importance")?;
    expect(red_of(first.value()) == Some(255), "what it stood for")?;
    expect(red_of(second.value()) == Some(0), "the latest definition")?;
    expect(first.property() == second.property(), "the property")
}

#[test]
fn the_default_sheet_is_read(rt: HostRuntime) -> Result<(), Fail> {
    let sheet = read_sheet(rt.alloc(), b"")?;
    let rules = sheet.defaults().as_slice();
    expect(rules.len() == 19, "19 rules")?;
    let screen = rules.first().ok_or("the first rule")?;
    expect(screen.declarations().as_slice().len() == 5, "5 longhands")?;
    let read = answer(rt.alloc(), crate::DEFAULT_SHEET)?;
    expect(
        read.as_str() == "rules 19, declarations 52, variables 0",
        "the default sheet",
    )
}

fn has(sheet: &Sheet, text: &'static str, class: bool, pseudo: bool) -> Result<(), Fail> {
    let name = Name::of(text).ok_or("a name")?;
    expect(sheet.uses(&name) == class, text)?;
    expect(sheet.uses_pseudo(&name) == pseudo, text)
}

#[test]
fn what_selectors_have_is_found(rt: HostRuntime) -> Result<(), Fail> {
    let sheet = read_sheet(rt.alloc(), b"A.on:hover B {} #off {} C, D:dark > E.far {}")?;
    has(&sheet, "on", true, false)?;
    has(&sheet, "far", true, false)?;
    has(&sheet, "off", false, false)?;
    has(&sheet, "hover", false, true)?;
    has(&sheet, "dark", false, true)?;
    has(&sheet, "focus", false, true)?;
    has(&sheet, "A", false, false)?;
    has(&sheet, "light", false, false)
}
