//! The pen that an SGR sequence sets.
ghost use Rattle.std.specs.Prelude.{◌≡◌};
ghost use Rattle.tx_term.specs.Sequence.{with_mark, is_colour, with_colour, with_settings};

use tx_cell::Pen;
use tx_geom::Rgb;

/// The pen that one number makes of another: the default one, or one more mark.
fn with_mark(number: u32, pen: Pen) -> Option<Pen>
    ensures { result ≡ with_mark number pen }
{
    let mut pen = pen;
    match number {
        0 => return Some(Pen::WHITE_ON_BLACK),
        1 => pen.style.bold = true,
        2 => pen.style.dim = true,
        3 => pen.style.italic = true,
        4 => pen.style.underline = true,
        7 => pen.style.reverse = true,
        9 => pen.style.strike = true,
        _ => return None,
    }
    Some(pen)
}

/// Whether the number begins a colour.
fn is_colour(number: u32) -> bool
    ensures { result ≡ is_colour number }
{
    number == 38 || number == 48
}

/// The pen with a colour that is given by its three channels.
fn with_colour(number: u32, form: u32, r: u32, g: u32, b: u32, pen: Pen) -> Option<Pen>
    ensures { result ≡ with_colour number form r g b pen }
{
    if !(form == 2 && (r <= 255 && (g <= 255 && b <= 255))) {
        return None;
    }
    let colour = Rgb {
        r: r as u8,
        g: g as u8,
        b: b as u8,
    };
    if number == 38 {
        Some(Pen {
            fore: colour,
            back: pen.back,
            style: pen.style,
        })
    } else {
        Some(Pen {
            fore: pen.fore,
            back: colour,
            style: pen.style,
        })
    }
}

/// The pen that numbers make of another one, from the left, where each of them is listed.
pub fn with_settings(numbers: &[u32], pen: Pen) -> Option<Pen>
    ensures { result ≡ with_settings numbers.now pen }
{
    let [number, rest @ ..] = numbers else {
        return Some(pen);
    };
    if let [form, r, g, b, behind @ ..] = rest {
        if is_colour(*number) {
            let next = with_colour(*number, *form, *r, *g, *b, pen)?;
            return with_settings(behind, next);
        }
    }
    let next = with_mark(*number, pen)?;
    with_settings(rest, next)
}
