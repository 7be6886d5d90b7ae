//! What rows show.

ghost use Rattle.std.specs.Prelude.{◌≡◌, ◌<◌, false, IfSome};
ghost use Rattle.tx_tree.specs.Kind.{is_handed};

use crate::tests::tables::{BARS, BORDERS, CONTENTS, PENS};
use crate::{Drawing, Placement, background_over, ground};
use std::alloc::Global;
use std::test::Fail;
use tx_cell::{Cell, Pen};
use tx_expect::{each_line, expect};
use tx_geom::{Rgb, Size};
use tx_lex::tokens;
use tx_tree::{Kind, Private, Text};
use tx_value::{Style, read_value};

// The kind that a word says.
fn kind_of(word: &str) -> Option<Kind>
    ensures { IfSome result (λ kind. is_handed kind ≡ false) }
{
    match word {
        "Static" => Some(Kind::Static),
        "Button" => Some(Kind::Button),
        "Checkbox" => Some(Kind::Checkbox),
        "Input" => Some(Kind::Input),
        "OptionList" => Some(Kind::OptionList),
        "ProgressBar" => Some(Kind::ProgressBar),
        "Container" => Some(Kind::Container),
        "Vertical" => Some(Kind::Vertical),
        "VerticalScroll" => Some(Kind::VerticalScroll),
        _ => None,
    }
}

fn number_of(digits: &str) -> Option<u32> {
    digits.parse::<u32>().ok()
}

// The private state that a word says: p, on, c3 at byte 3, n2 for line 2, b1/4.
fn private_of(word: &str) -> Option<Private> {
    match word {
        "p" => return Some(Private::Plain),
        "on" => return Some(Private::On(true)),
        _ => {}
    }
    if let Some(at) = word.strip_prefix('c') {
        return Some(Private::Cursor(number_of(at)?));
    }
    if let Some(at) = word.strip_prefix('n') {
        return Some(Private::Chosen(number_of(at)?));
    }
    let (done, total) = word.strip_prefix('b')?.split_once('/')?;
    Some(Private::Bar {
        done: number_of(done)?,
        total: number_of(total)?,
    })
}

fn size_of(word: &str) -> Option<Size> {
    let (width, height) = word.split_once('x')?;
    Some(Size {
        width: number_of(width)?,
        height: number_of(height)?,
    })
}

fn pair_of(word: &str) -> Option<(u32, u32)> {
    let (first, second) = word.split_once(',')?;
    Some((number_of(first)?, number_of(second)?))
}

// The placement of a region of this size: `-` stands for a viewport as large as the region.
fn placement_of(size: Size, words: &str) -> Option<Placement> {
    if words == "-" {
        return Some(Placement {
            size,
            viewport: size,
            over: Size {
                width: 0,
                height: 0,
            },
            scroll: (0, 0),
        });
    }
    let (viewport, rest) = words.split_once(' ')?;
    let (over, scroll) = rest.split_once(' ')?;
    Some(Placement {
        size,
        viewport: size_of(viewport)?,
        over: size_of(over)?,
        scroll: pair_of(scroll)?,
    })
}

fn text_of(alloc: Global, word: &str) -> Result<Text, Fail> {
    let mut text = String::new(alloc);
    for character in word.chars() {
        text.push(if character == '\u{B6}' {
            '\n'
        } else {
            character
        })?;
    }
    Ok(Text::of(alloc, text.as_str())?)
}

fn declare(alloc: Global, style: &mut Style, declaration: &str) -> Result<(), Fail> {
    let Some((name, value)) = declaration.split_once(':') else {
        return Ok(());
    };
    if value.len() > 1_000 {
        return Err(Fail::from("a long value"));
    }
    let Ok(found) = tokens(alloc, value) else {
        return Err(Fail::from("no tokens"));
    };
    let Ok(pairs) = read_value(alloc, name.trim(), value, &found) else {
        return Err(Fail::from("no value"));
    };
    for (property, value) in pairs {
        style.set(property, value);
    }
    Ok(())
}

fn style_of(alloc: Global, text: &str) -> Result<Style, Fail> {
    let mut style = Style::initial(alloc)?;
    for declaration in text.split(';') {
        declare(alloc, &mut style, declaration)?;
    }
    Ok(style)
}

// The words of a row of a table: size, style, kind with private state and focus, placement, text.
#[derive(Clone, Copy)]
struct Words<'a> {
    size: &'a str,
    style: &'a str,
    kind: &'a str,
    private: &'a str,
    focus: &'a str,
    placement: &'a str,
    text: &'a str,
}

fn words_of(given: &str) -> Option<Words<'_>> {
    let (size, rest) = given.split_once('|')?;
    let (style, rest) = rest.split_once('|')?;
    let (row, rest) = rest.split_once('|')?;
    let (placement, text) = rest.split_once('|')?;
    let (kind, rest) = row.split_once(' ')?;
    let (private, focus) = rest.split_once(' ')?;
    Some(Words {
        size,
        style,
        kind,
        private,
        focus,
        placement,
        text,
    })
}

fn drawing_of(alloc: Global, dark: bool, under: Rgb, given: &str) -> Result<Drawing, Fail> {
    let Some(words) = words_of(given) else {
        return Err(Fail::from("no words"));
    };
    let (Some(kind), Some(private)) = (kind_of(words.kind), private_of(words.private)) else {
        return Err(Fail::from("no kind"));
    };
    let Some(size) = size_of(words.size) else {
        return Err(Fail::from("no size"));
    };
    let Some(placement) = placement_of(size, words.placement) else {
        return Err(Fail::from("no placement"));
    };
    let text = text_of(alloc, words.text)?;
    if text.as_str().len() > 1_000 {
        return Err(Fail::from("a long text"));
    }
    let style = style_of(alloc, words.style)?;
    let focused = words.focus == "f";
    Ok(Drawing::of(
        alloc, &style, dark, under, kind, &text, private, focused, placement,
    )?)
}

// Adds a cell: a blank is a point, a tail `_`, and a quote stands behind what is reversed.
fn push_cell(out: &mut String, cell: &Cell) -> Result<(), Fail> {
    let text = match cell.text() {
        " " => ".",
        "" => "_",
        other => other,
    };
    out.push_str(text)?;
    if cell.pen().style.reverse {
        out.push_str("'")?;
    }
    Ok(())
}

fn picture(alloc: Global, given: &str) -> Result<String, Fail> {
    let drawing = drawing_of(alloc, true, ground(), given)?;
    let size = drawing.size();
    let mut out = String::new(alloc);
    for y in 0..size.height {
        for x in 0..size.width {
            push_cell(&mut out, &drawing.at(x, y))?;
        }
        out.push_str("/")?;
    }
    Ok(out)
}

fn channel_of(digits: &str) -> Option<u8> {
    u8::from_str_radix(digits, 16).ok()
}

// The colour of six digits.
fn colour_of(digits: &str) -> Option<Rgb> {
    let (r, rest) = digits.split_at_checked(2)?;
    let (g, b) = rest.split_at_checked(2)?;
    Some(Rgb {
        r: channel_of(r)?,
        g: channel_of(g)?,
        b: channel_of(b)?,
    })
}

fn push_colour(out: &mut String, colour: Rgb) -> Result<(), Fail> {
    write!(out, "{:02x}{:02x}{:02x}", colour.r, colour.g, colour.b)?;
    Ok(())
}

fn push_mark(out: &mut String, is_set: bool, mark: &'static str) -> Result<(), Fail> {
    if is_set {
        out.push_str(mark)?;
    }
    Ok(())
}

fn push_pen(out: &mut String, pen: Pen) -> Result<(), Fail> {
    push_colour(out, pen.fore)?;
    out.push_str(" on ")?;
    push_colour(out, pen.back)?;
    let style = pen.style;
    if style.bold || style.dim || style.italic || style.underline || style.reverse || style.strike {
        out.push_str(" ")?;
    }
    push_mark(out, style.bold, "b")?;
    push_mark(out, style.dim, "d")?;
    push_mark(out, style.italic, "i")?;
    push_mark(out, style.underline, "u")?;
    push_mark(out, style.reverse, "r")?;
    push_mark(out, style.strike, "s")
}

// The pen at a place of a row in a theme and over a background.
fn pen_in(alloc: Global, given: &str) -> Result<String, Fail> {
    let Some((theme, rest)) = given.split_once('|') else {
        return Err(Fail::from("no theme"));
    };
    let Some((under, rest)) = rest.split_once('|') else {
        return Err(Fail::from("no background"));
    };
    let Some((row, place)) = rest.rsplit_once('|') else {
        return Err(Fail::from("no place"));
    };
    let (Some(under), Some((x, y))) = (colour_of(under), pair_of(place)) else {
        return Err(Fail::from("no colour or place"));
    };
    let drawing = drawing_of(alloc, theme == "dark", under, row)?;
    let size = drawing.size();
    if x >= size.width || y >= size.height {
        return Err(Fail::from("a place outside"));
    }
    let mut out = String::new(alloc);
    push_pen(&mut out, drawing.at(x, y).pen())?;
    Ok(out)
}

#[test]
fn borders_are_drawn(rt: HostRuntime) -> Result<(), Fail> {
    let alloc = rt.alloc();
    each_line(BORDERS, |given| picture(alloc, given))
}

#[test]
fn contents_are_drawn(rt: HostRuntime) -> Result<(), Fail> {
    let alloc = rt.alloc();
    each_line(CONTENTS, |given| picture(alloc, given))
}

#[test]
fn bars_are_drawn(rt: HostRuntime) -> Result<(), Fail> {
    let alloc = rt.alloc();
    each_line(BARS, |given| picture(alloc, given))
}

#[test]
fn pens_are_blended(rt: HostRuntime) -> Result<(), Fail> {
    let alloc = rt.alloc();
    each_line(PENS, |given| pen_in(alloc, given))
}

#[test]
fn backgrounds_lie_over_each_other(rt: HostRuntime) -> Result<(), Fail> {
    let alloc = rt.alloc();
    let half = style_of(alloc, "background: #ff0000 50%")?;
    let screen = background_over(&half, true, ground());
    let child = background_over(&half, true, screen);
    expect(screen.r == 128 && child.r == 192, "the colours")
}
