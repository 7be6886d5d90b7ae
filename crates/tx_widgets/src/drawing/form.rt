//! Private states that are in form.

ghost use Rattle.std.specs.Prelude.{◌≡◌, ◌<◌, ◌^◌, true, length};
ghost use Rattle.tx_cell.specs.Lines.{text_lines};
ghost use Rattle.tx_widgets.specs.Form.{begins_character, is_edge, is_in_form, state_of, suits};

use tx_cell::lines_of;
use tx_tree::{Kind, Private};

// The private state that a row is drawn with: its own where that is in form, else the fresh one.
pub(crate) fn state_of(kind: &Kind, text: &str, private: Private) -> Private
    requires short { length text.now < 2 ^ 32 }
    ensures state { result ≡ state_of kind.now text.now private }
    ensures suits { suits text.now result ≡ true }
{
    if is_in_form(kind, text, private) {
        private
    } else {
        Private::fresh(*kind, text.len() as u32)
    }
}

fn is_in_form(kind: &Kind, text: &str, private: Private) -> bool
    requires short { length text.now < 2 ^ 32 }
    ensures { result ≡ is_in_form kind.now text.now private }
{
    private.has_form(*kind) && suits(text, private)
}

fn suits(text: &str, private: Private) -> bool
    requires short { length text.now < 2 ^ 32 }
    ensures { result ≡ suits text.now private }
{
    match private {
        Private::Plain | Private::On(_) => true,
        Private::Cursor(at) => is_edge(text.as_bytes(), at),
        Private::Chosen(line) => line == 0 || (line as usize) < line_count(text),
        Private::Bar { done, total } => total != 0 && done <= total,
    }
}

fn is_edge(text: &[u8], at: u32) -> bool
    ensures { result ≡ is_edge text.now at }
{
    at as usize <= text.len() && begins_character(&text[at as usize..])
}

fn begins_character(bytes: &[u8]) -> bool
    ensures { result ≡ begins_character bytes.now }
{
    match bytes {
        [] => true,
        [byte, ..] => *byte < 128 || *byte >= 192,
    }
}

// How many lines a text has.
pub(crate) fn line_count(text: &str) -> usize
    requires short { length text.now < 2 ^ 32 }
    ensures { result ≡ length (text_lines text.now) }
{
    let mut count = 0;
    'counting: for _line in lines_of(text) {
        count += 1;
    }
    count
}
