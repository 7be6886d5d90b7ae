//! Lines and scripts as texts. In a table `'` stands for a quote, `|` for a line feed and `~` for a
//! byte that is no UTF-8.
mod ends;
mod faults;
mod lines;
mod scripts;

use crate::{LineFault, read_line};
use std::alloc::{AllocError, Global};
use std::test::Fail;
use tx_route::Input;
use tx_select::{Part, Selector};
use tx_tree::{Kind, NewRow};

// Longer texts than this stand in no table.
const LONGEST: usize = 10_000;

fn bytes_of(alloc: Global, given: &str) -> Result<Vec<u8>, Fail> {
    let mut bytes = Vec::new(alloc);
    for byte in given.as_bytes() {
        let meant = match *byte {
            b'\'' => b'"',
            b'|' => b'\n',
            b'~' => 0xff,
            other => other,
        };
        bytes.push(meant)?;
    }
    Ok(bytes)
}

/// The first name or mark of a selector, and how many compounds it has.
fn target(alloc: Global, selector: &Selector) -> Result<String, AllocError> {
    let compounds = selector.compounds().as_slice();
    let count = compounds.len();
    let Some(first) = compounds.first() else {
        return String::from_str(alloc, "none");
    };
    if let Some(kind) = first.kind {
        return format!(in alloc; "{count}:{}", kind.as_str());
    }
    match first.parts.as_slice().first() {
        Some(Part::Id(name)) => format!(in alloc; "{count}:#{}", name.as_str()),
        Some(Part::Class(name)) => format!(in alloc; "{count}:.{}", name.as_str()),
        _ => format!(in alloc; "{count}:*"),
    }
}

/// The kind of a row, its text in quotes and its inline text in braces.
fn row_text(alloc: Global, row: &NewRow) -> Result<String, AllocError> {
    let kind = row.kind.name();
    let text = row.text.as_str();
    let inline = row.inline.as_str();
    format!(in alloc; "{kind} '{text}' {{{inline}}}")
}

/// An input that names no row.
fn plain(alloc: Global, input: &Input) -> Result<String, AllocError> {
    match input {
        Input::Press(key) => format!(in alloc; "Press {key:?}"),
        Input::ClickAt { x, y } => format!(in alloc; "ClickAt {x} {y}"),
        Input::HoverAt { x, y } => format!(in alloc; "HoverAt {x} {y}"),
        Input::Resize(size) => format!(in alloc; "Resize {} {}", size.width, size.height),
        Input::Theme { dark } => format!(in alloc; "Theme {dark}"),
        Input::Pause => String::from_str(alloc, "Pause"),
        _ => String::from_str(alloc, "other"),
    }
}

/// An input that names a row and nothing else.
fn aimed(alloc: Global, input: &Input) -> Result<String, AllocError> {
    let (name, selector) = match input {
        Input::Click(selector) => ("Click", selector),
        Input::Hover(selector) => ("Hover", selector),
        Input::Disable(selector) => ("Disable", selector),
        Input::Enable(selector) => ("Enable", selector),
        Input::Remove(selector) => ("Remove", selector),
        _ => return plain(alloc, input),
    };
    let aim = target(alloc, selector)?;
    format!(in alloc; "{name} {aim}")
}

/// An input, with the row that it names and what else it has.
fn described(alloc: Global, input: &Input) -> Result<String, AllocError> {
    let (name, selector, more) = match input {
        Input::AddClass { target, name } => {
            ("AddClass", target, String::from_str(alloc, name.as_str())?)
        }
        Input::RemoveClass { target, name } => (
            "RemoveClass",
            target,
            String::from_str(alloc, name.as_str())?,
        ),
        Input::SetText { target, text } => {
            ("SetText", target, format!(in alloc; "[{}]", text.as_str())?)
        }
        Input::SetInline { target, text } => {
            (
                "SetInline",
                target,
                format!(in alloc; "[{}]", text.as_str())?,
            )
        }
        Input::Mount { target, row } => ("Mount", target, row_text(alloc, row)?),
        Input::Before { target, other } => ("Before", target, self::target(alloc, other)?),
        Input::Advance { target, by } => ("Advance", target, format!(in alloc; "{by}")?),
        _ => return aimed(alloc, input),
    };
    let aim = target(alloc, selector)?;
    format!(in alloc; "{name} {aim} {more}")
}

/// What comes of a line: its input, `nothing`, or the kind of its fault.
fn answer(alloc: Global, given: &str) -> Result<String, Fail> {
    let line = bytes_of(alloc, given)?;
    if line.len() > LONGEST {
        return Err(Fail::from("the line is too long"));
    }
    match read_line(alloc, &line) {
        Ok(Some(input)) => Ok(described(alloc, &input)?),
        Ok(None) => Ok(String::from_str(alloc, "nothing")?),
        Err(LineFault::Line(kind)) => Ok(format!(in alloc; "{kind:?}")?),
        Err(LineFault::NoMemory) => Err(Fail::from("no memory")),
    }
}
