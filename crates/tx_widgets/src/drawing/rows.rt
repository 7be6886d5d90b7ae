//! The rows of a widget's content.

ghost use Rattle.std.specs.Prelude.{◌≡◌, ◌<◌, ◌^◌, true, false, length, map, IfOk};
ghost use Rattle.std.specs.List.{All};
ghost use Rattle.tx_widgets.specs.Drawing.{box_is_on, chosen_of, cursor_of, drawn_row, drawn_rows, first_row, lines_for, list_row, only_first, options_for, row_by};
ghost use Rattle.tx_tree.specs.Kind.{is_handed};
ghost use Rattle.tx_widgets.specs.Form.{suits};
ghost use Rattle.tx_widgets.specs.TextRows.{widest_of};
ghost use Rattle.tx_cell.specs.Lines.{text_lines};

use crate::drawing::boxes::{bar_row, box_row, done_columns};
use crate::drawing::face::Face;
use crate::drawing::field::field_row;
use crate::drawing::form::state_of;
use crate::drawing::options::{option_number, option_row, options_of};
use crate::drawing::pieces::blanks;
use crate::drawing::text_rows::{lines_row, widest_of};
use std::alloc::Global;
use tx_cell::{Strip, wrap};
use tx_text::NoMemory;
use tx_tree::{Kind, Private};

/// Row `y` of what a widget draws in its content, counted from 0. It is as wide as the content.
///
/// The kind is not one that is handed in, and the text has fewer than 2^32 bytes. A private state
/// that isn't of the kind's form or doesn't suit the text is drawn as the fresh one. A text that
/// is wrapped is wrapped anew for each row: `lines` gives all rows at once. It fails only when
/// out of memory.
#[tactic(auto, unfolding(crate::specs::Drawing::drawn_row))]
pub fn line(alloc: Global, face: &Face<'_>, y: u32) -> Result<Strip, NoMemory>
    requires built_in { is_handed face.now.kind ≡ false }
    requires inside { y < face.now.content.height }
    requires short { length face.now.text.now < 2 ^ 32 }
    ensures row { IfOk result (λ row. row ≡ drawn_row face.now y) }
    ensures width { IfOk result (λ row. length row ≡ face.now.content.width) }
{
    let private = state_of(&face.kind, face.text.as_str(), face.private);
    let wrapped = wrapped_of(alloc, face)?;
    let options = listed_of(alloc, face)?;
    row(
        alloc,
        face,
        private,
        &wrapped,
        widest_of(&wrapped),
        &options,
        y,
    )
}

/// All rows of what a widget draws in its content, from the top, as `line` gives them one by one.
pub fn lines(alloc: Global, face: &Face<'_>) -> Result<Vec<Strip>, NoMemory>
    requires built_in { is_handed face.now.kind ≡ false }
    requires short { length face.now.text.now < 2 ^ 32 }
    ensures rows { IfOk result (λ rows. rows.items ≡ drawn_rows face.now face.now.content.height) }
    ensures width { IfOk result (λ rows. All (λ row. length row ≡ face.now.content.width) rows.items) }
{
    let private = state_of(&face.kind, face.text.as_str(), face.private);
    let wrapped = wrapped_of(alloc, face)?;
    let options = listed_of(alloc, face)?;
    let widest = widest_of(&wrapped);
    let mut rows = Vec::new(alloc);
    for y in 0..face.content.height {
        rows.push(row(alloc, face, private, &wrapped, widest, &options, y)?)?;
    }
    Ok(rows)
}

// The wrapped lines of a kind that wraps its text.
fn wrapped_of(alloc: Global, face: &Face<'_>) -> Result<Vec<Strip>, NoMemory>
    requires short { length face.now.text.now < 2 ^ 32 }
    ensures { IfOk result (λ wrapped. wrapped.items ≡ lines_for face.now.kind face.now) }
{
    match face.kind {
        Kind::Static | Kind::Label | Kind::Button | Kind::Header | Kind::Footer => {
            wrap(alloc, face.text.as_str(), face.content.width, face.pen)
        }
        _ => Ok(Vec::new(alloc)),
    }
}

// The lines of an OptionList.
fn listed_of<'a>(alloc: Global, face: &Face<'a>) -> Result<Vec<&'a str>, NoMemory>
    ensures { IfOk result (λ options. map (λ line. line.now) options.items ≡ options_for face.now.kind face.now) }
{
    match face.kind {
        Kind::OptionList => options_of(alloc, face.text.as_str()),
        _ => Ok(Vec::new(alloc)),
    }
}

// Row `y`, from a private state that suits the text, the wrapped lines with their widest one, and
// the lines of a list.
fn row(
    alloc: Global,
    face: &Face<'_>,
    private: Private,
    wrapped: &[Strip],
    widest: u32,
    options: &[&str],
    y: u32,
) -> Result<Strip, NoMemory>
    requires short { length face.now.text.now < 2 ^ 32 }
    requires suits { suits face.now.text.now private ≡ true }
    requires wrapped { wrapped.now ≡ lines_for face.now.kind face.now }
    requires widest { widest ≡ widest_of wrapped.now }
    requires options { map (λ line. line.now) options.now ≡ options_for face.now.kind face.now }
    ensures row { IfOk result (λ row. row ≡ row_by face.now.kind private face.now y) }
    ensures width { IfOk result (λ row. length row ≡ face.now.content.width) }
{
    match face.kind {
        Kind::Static | Kind::Label | Kind::Button | Kind::Header | Kind::Footer => {
            lines_row(alloc, face, wrapped, widest, y)
        }
        Kind::OptionList => list_row(alloc, face, chosen_of(private), options, y),
        Kind::Checkbox | Kind::Input | Kind::ProgressBar => only_first(alloc, face, private, y),
        _ => blanks(alloc, face.content.width, face.pen),
    }
}

fn list_row(
    alloc: Global,
    face: &Face<'_>,
    chosen: u32,
    options: &[&str],
    y: u32,
) -> Result<Strip, NoMemory>
    requires short { length face.now.text.now < 2 ^ 32 }
    requires options { map (λ line. line.now) options.now ≡ text_lines face.now.text.now }
    ensures row { IfOk result (λ row. row ≡ list_row chosen face.now y) }
    ensures width { IfOk result (λ row. length row ≡ face.now.content.width) }
{
    let number = option_number(chosen, face.content.height, y);
    option_row(alloc, chosen, face.content.width, face.pen, options, number)
}

pub(crate) fn chosen_of(private: Private) -> u32
    ensures { result ≡ chosen_of private }
{
    match private {
        Private::Chosen(line) => line,
        _ => 0,
    }
}

pub(crate) fn cursor_of(private: Private) -> u32
    ensures { result ≡ cursor_of private }
{
    match private {
        Private::Cursor(at) => at,
        _ => 0,
    }
}

pub(crate) fn box_is_on(private: Private) -> bool
    ensures { result ≡ box_is_on private }
{
    match private {
        Private::On(on) => on,
        _ => false,
    }
}

// Row `y` of a kind that draws in its first row alone.
fn only_first(alloc: Global, face: &Face<'_>, private: Private, y: u32) -> Result<Strip, NoMemory>
    requires short { length face.now.text.now < 2 ^ 32 }
    requires suits { suits face.now.text.now private ≡ true }
    ensures row { IfOk result (λ row. row ≡ only_first face.now (first_row face.now.kind private face.now) y) }
    ensures width { IfOk result (λ row. length row ≡ face.now.content.width) }
{
    if y == 0 {
        first_row(alloc, face, private)
    } else {
        blanks(alloc, face.content.width, face.pen)
    }
}

fn first_row(alloc: Global, face: &Face<'_>, private: Private) -> Result<Strip, NoMemory>
    requires short { length face.now.text.now < 2 ^ 32 }
    requires suits { suits face.now.text.now private ≡ true }
    ensures row { IfOk result (λ row. row ≡ first_row face.now.kind private face.now) }
    ensures width { IfOk result (λ row. length row ≡ face.now.content.width) }
{
    let text = face.text.as_str();
    let width = face.content.width;
    match face.kind {
        Kind::Checkbox => box_row(alloc, box_is_on(private), width, face.pen, text),
        Kind::Input => field_row(
            alloc,
            text,
            cursor_of(private),
            face.focused,
            width,
            face.pen,
        ),
        Kind::ProgressBar => bar_row(alloc, done_columns(width, private, text), width, face.pen),
        _ => blanks(alloc, width, face.pen),
    }
}
