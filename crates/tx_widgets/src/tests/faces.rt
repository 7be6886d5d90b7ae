//! What each kind draws.

ghost use Rattle.std.specs.Prelude.{◌≡◌, ◌<◌, ◌^◌, false, length, IfSome};
ghost use Rattle.tx_tree.specs.Kind.{is_handed};

use crate::tests::table::{CONTENTS, FIELDS, LISTS, WRAPPED};
use crate::{Face, line, lines};
use std::alloc::Global;
use std::test::Fail;
use tx_cell::{Cell, Pen, Strip};
use tx_expect::each_line;
use tx_geom::{AlignX, AlignY, Size};
use tx_tree::{Kind, Private, Text};

// The kind that a word of a table says.
pub(crate) fn kind_of(word: &str) -> Option<Kind>
    ensures { IfSome result (λ kind. is_handed kind ≡ false) }
{
    match word {
        "Static" => Some(Kind::Static),
        "Label" => Some(Kind::Label),
        "Button" => Some(Kind::Button),
        "Header" => Some(Kind::Header),
        "Footer" => Some(Kind::Footer),
        "Checkbox" => Some(Kind::Checkbox),
        "Input" => Some(Kind::Input),
        "OptionList" => Some(Kind::OptionList),
        "ProgressBar" => Some(Kind::ProgressBar),
        "Screen" => Some(Kind::Screen),
        "Container" => Some(Kind::Container),
        "Vertical" => Some(Kind::Vertical),
        "Horizontal" => Some(Kind::Horizontal),
        "Grid" => Some(Kind::Grid),
        "VerticalScroll" => Some(Kind::VerticalScroll),
        _ => None,
    }
}

pub(crate) fn number_of(digits: &str) -> Option<u32> {
    digits.parse::<u32>().ok()
}

// The private state that a word says: p, on, off, c3 at byte 3, n2 for line 2, b1/4.
pub(crate) fn private_of(word: &str) -> Option<Private> {
    match word {
        "p" => return Some(Private::Plain),
        "on" => return Some(Private::On(true)),
        "off" => return Some(Private::On(false)),
        _ => {}
    }
    if let Some(at) = word.strip_prefix('c') {
        return Some(Private::Cursor(number_of(at)?));
    }
    if let Some(at) = word.strip_prefix('n') {
        return Some(Private::Chosen(number_of(at)?));
    }
    let (done, total) = word.strip_prefix('b')?.split_once('/')?;
    Some(Private::Bar {
        done: number_of(done)?,
        total: number_of(total)?,
    })
}

fn size_of(word: &str) -> Option<Size> {
    let (width, height) = word.split_once('x')?;
    Some(Size {
        width: number_of(width)?,
        height: number_of(height)?,
    })
}

fn across(letter: u8) -> AlignX {
    match letter {
        b'L' => AlignX::Left,
        b'C' => AlignX::Center,
        _ => AlignX::Right,
    }
}

fn down(letter: u8) -> AlignY {
    match letter {
        b'T' => AlignY::Top,
        b'M' => AlignY::Middle,
        _ => AlignY::Bottom,
    }
}

// The text of a table, where a pilcrow is a line feed and a broken bar a carriage return.
pub(crate) fn text_of(alloc: Global, word: &str) -> Result<Text, Fail> {
    let mut text = String::new(alloc);
    for character in word.chars() {
        let meant = match character {
            '\u{B6}' => '\n',
            '\u{A6}' => '\r',
            other => other,
        };
        text.push(meant)?;
    }
    Ok(Text::of(alloc, text.as_str())?)
}

// Adds a cell: a blank is a point, a tail a dash, and a quote stands behind what is reversed.
fn push_cell(out: &mut String, cell: &Cell) -> Result<(), Fail> {
    let text = match cell.text() {
        " " => ".",
        "" => "-",
        other => other,
    };
    out.push_str(text)?;
    if cell.pen().style.reverse {
        out.push_str("'")?;
    }
    Ok(())
}

fn push_row(out: &mut String, row: &Strip) -> Result<(), Fail> {
    for cell in row.as_slice() {
        push_cell(out, cell)?;
    }
    out.push_str("/")?;
    Ok(())
}

// The rows that `line` gives one by one, each with a stroke behind it.
fn rows_by_line(alloc: Global, face: &Face<'_>) -> Result<String, Fail>
    requires built_in { is_handed face.now.kind ≡ false }
    requires short { length face.now.text.now < 2 ^ 32 }
{
    let mut out = String::new(alloc);
    for y in 0..face.content.height {
        push_row(&mut out, &line(alloc, face, y)?)?;
    }
    Ok(out)
}

// The rows that `lines` gives.
fn rows_at_once(alloc: Global, face: &Face<'_>) -> Result<String, Fail>
    requires built_in { is_handed face.now.kind ≡ false }
    requires short { length face.now.text.now < 2 ^ 32 }
{
    let mut out = String::new(alloc);
    for row in &lines(alloc, face)? {
        push_row(&mut out, row)?;
    }
    Ok(out)
}

// The words of a row of a table: kind, private state, focus, size and aligns, then the text.
#[derive(Clone, Copy)]
struct Words<'a> {
    kind: &'a str,
    private: &'a str,
    focus: &'a str,
    size: &'a str,
    aligns: &'a str,
    text: &'a str,
}

fn words_of(given: &str) -> Option<Words<'_>> {
    let (kind, rest) = given.split_once(' ')?;
    let (private, rest) = rest.split_once(' ')?;
    let (focus, rest) = rest.split_once(' ')?;
    let (size, rest) = rest.split_once(' ')?;
    let (aligns, text) = rest.split_once(' ')?;
    Some(Words {
        kind,
        private,
        focus,
        size,
        aligns,
        text,
    })
}

fn face_of<'a>(words: &Words<'_>, kind: Kind, text: &'a Text) -> Option<Face<'a>>
    ensures kind { IfSome result (λ face. face.kind ≡ kind) }
    ensures text { IfSome result (λ face. face.text.now ≡ text.now) }
{
    let [content, rows, lines] = words.aligns.as_bytes() else {
        return None;
    };
    Some(Face {
        kind,
        text,
        private: private_of(words.private)?,
        focused: words.focus == "f",
        content: size_of(words.size)?,
        align: (across(*content), down(*rows)),
        text_align: across(*lines),
        pen: Pen::WHITE_ON_BLACK,
    })
}

fn drawn(alloc: Global, given: &str) -> Result<String, Fail> {
    let Some(words) = words_of(given) else {
        return Err(Fail::from("no words"));
    };
    let Some(kind) = kind_of(words.kind) else {
        return Err(Fail::from("no kind"));
    };
    let text = text_of(alloc, words.text)?;
    if text.as_str().len() > 1_000 {
        return Err(Fail::from("a long text"));
    }
    let Some(face) = face_of(&words, kind, &text) else {
        return Err(Fail::from("no face"));
    };
    let found = rows_by_line(alloc, &face)?;
    if found.as_str() != rows_at_once(alloc, &face)?.as_str() {
        return Err(Fail::from("the rows at once are others"));
    }
    Ok(found)
}

#[test]
fn wrapped_texts_are_drawn(rt: HostRuntime) -> Result<(), Fail> {
    let alloc = rt.alloc();
    each_line(WRAPPED, |given| drawn(alloc, given))
}

#[test]
fn inputs_are_drawn(rt: HostRuntime) -> Result<(), Fail> {
    let alloc = rt.alloc();
    each_line(FIELDS, |given| drawn(alloc, given))
}

#[test]
fn lists_are_drawn(rt: HostRuntime) -> Result<(), Fail> {
    let alloc = rt.alloc();
    each_line(LISTS, |given| drawn(alloc, given))
}

#[test]
fn other_contents_are_drawn(rt: HostRuntime) -> Result<(), Fail> {
    let alloc = rt.alloc();
    each_line(CONTENTS, |given| drawn(alloc, given))
}
