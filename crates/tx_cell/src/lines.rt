//! The lines of a text.

ghost use Rattle.std.specs.Prelude.{◌≡◌};
ghost use Rattle.std.specs.Str.Lines.{strip_carriage_return};
ghost use Rattle.tx_cell.specs.Lines.{lines_left, text_lines};

/// An iterator over the lines of a text, made by `lines_of`.
#[derive(Drop)]
pub struct Lines<'a> {
    rest: &'a str,
    is_done: bool,
}

/// The lines of a text: none for a text of zero bytes, else the pieces between line feeds.
///
/// A carriage return directly before a line feed is dropped.
pub fn lines_of(text: &str) -> Lines<'_>
    ensures lines { lines_left result ≡ text_lines text.now }
{
    Lines {
        rest: text,
        is_done: text.is_empty(),
    }
}

impl<'a> Iterator for Lines<'a> {
    ghost use Rattle.std.specs.Iterator.{YieldsFirstBy, item_count};
    ghost use Rattle.tx_cell.specs.Lines.{lines_left};

    type Item = &'a str;

    ghost next_gives = { YieldsFirstBy (λ line. line.now) lines_left };

    ghost remaining = { item_count lines_left };

    fn next(&mut self) -> Option<&'a str> {
        if self.is_done {
            return None;
        }
        match self.rest.split_once('\n') {
            Some((line, rest)) => {
                self.rest = rest;
                Some(without_return(line))
            }
            None => {
                self.is_done = true;
                Some(self.rest)
            }
        }
    }
}

// A line without the carriage return at its end, if it has one.
fn without_return(line: &str) -> &str
    ensures { result.now ≡ strip_carriage_return line.now }
{
    match line.as_bytes().last() {
        Some(b'\r') => &line[..line.len() - 1],
        _ => line,
    }
}
