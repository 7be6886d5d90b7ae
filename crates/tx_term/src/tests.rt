ghost use Rattle.std.specs.Prelude.{◌<◌, None};

use crate::{Terminal, closing_bytes, present};
use std::alloc::AllocError;
use std::test::Fail;
use tx_cell::{Cell, Grid, Pen, TextStyle};
use tx_geom::{Rgb, Size};
use tx_io::{Failed, MemorySink, Sent, Sink, send_all};

/// The whole update of a blank grid, four columns wide and two rows high.
const WHOLE: &[u8; 78] =
    b"\x18\x1b[?1049h\x1b[?25l\x1b[0m\x1b[2J\x1b[1;1H\x1b[0;38;2;224;224;224;48;2;18;18;18m    \x1b[2;1H    ";

/// A pen in one grey on another.
fn pen(fore: u8, back: u8) -> Pen {
    Pen {
        fore: Rgb {
            r: fore,
            g: fore,
            b: fore,
        },
        back: Rgb {
            r: back,
            g: back,
            b: back,
        },
        style: TextStyle::default(),
    }
}

fn blank_grid(rt: &HostRuntime, width: u32, height: u32, pen: Pen) -> Result<Grid, AllocError> {
    Grid::open(rt.alloc(), Size { width, height }, Cell::blank(pen))
}

/// Puts a text of one cell where there is room for it.
fn put(grid: &mut Grid, x: u32, y: u32, text: &str, pen: Pen) -> Option<()> {
    let cell = Cell::of(text, pen)?;
    let size = grid.size();
    if y >= size.height || x as u64 + cell.width() as u64 > size.width as u64 {
        return None;
    }
    grid.put(x, y, cell);
    Some(())
}

/// Presents grids of one size.
fn presented<K: Sink>(shown: &mut Grid, next: &Grid, whole: bool, sink: &mut K) -> Option<Sent> {
    let size = next.size();
    if shown.size() == size && size.width <= 65535 && size.height <= 65535 {
        Some(present(shown, next, whole, sink))
    } else {
        None
    }
}

fn show_the_same(one: &Grid, other: &Grid) -> bool {
    let size = one.size();
    if other.size() != size {
        return false;
    }
    for y in 0..size.height {
        if one.row(y) != other.row(y) {
            return false;
        }
    }
    true
}

#[test]
fn a_whole_update_begins_anew(rt: HostRuntime) -> Result<(), Fail> {
    let next = blank_grid(&rt, 4, 2, pen(224, 18))?;
    let mut terminal = Terminal::open(
        rt.alloc(),
        Size {
            width: 4,
            height: 2,
        },
    )?;
    for shown_pen in [pen(224, 18), pen(1, 2)] {
        let mut shown = blank_grid(&rt, 4, 2, shown_pen)?;
        let mut sink = MemorySink::new(rt.alloc(), Vec::new(rt.alloc()));
        let sent = presented(&mut shown, &next, true, &mut sink);
        assert_eq!(rt;
            sent,
            Some(Sent {
                taken: 78,
                failed: false
            })
        );
        assert_eq!(rt; sink.taken(), WHOLE.as_slice());
        assert!(rt; show_the_same(&shown, &next));
        terminal.feed(sink.taken());
        assert!(rt; show_the_same(terminal.grid(), &next));
        assert!(rt; terminal.alternate() && !terminal.cursor_shown());
        send_all(&mut sink, closing_bytes());
        terminal.feed(closing_bytes());
        assert!(rt; terminal.cursor_shown() && !terminal.alternate());
        assert_eq!(rt; sink.taken().len(), 97);
        assert!(rt; sink.taken().ends_with(b"\x18\x1b[0m\x1b[?25h\x1b[?1049l"));
    }
    Ok(())
}

/// A sink that counts its puts, and the bytes that they bring.
#[derive(Drop)]
struct PutCounter {
    puts: u64,
    bytes: u64,
}

impl Sink for PutCounter {
    ghost seen = { λ s. record { told = None; faults = 0 } };

    fn put(&mut self, piece: &[u8]) -> Result<usize, Failed> {
        self.puts = self.puts.saturating_add(1);
        self.bytes = self.bytes.saturating_add(piece.len() as u64);
        Ok(piece.len())
    }
}

#[test]
fn one_changed_cell_is_one_put(rt: HostRuntime) -> Result<(), Fail> {
    let dark = pen(224, 18);
    let mut shown = blank_grid(&rt, 1024, 512, dark)?;
    let mut next = blank_grid(&rt, 1024, 512, dark)?;
    let cases: [(u32, u32, u64); 4] = [(0, 0, 42), (9, 8, 43), (998, 510, 46), (1023, 511, 47)];
    for (x, y, bytes) in cases {
        let mut sink = PutCounter { puts: 0, bytes: 0 };
        assert!(rt; put(&mut next, x, y, "a", dark).is_some());
        let sent = presented(&mut shown, &next, false, &mut sink);
        assert_eq!(rt;
            sent,
            Some(Sent {
                taken: bytes,
                failed: false
            })
        );
        assert_eq!(rt; sink.puts, 1);
        assert_eq!(rt; sink.bytes, bytes);
    }
    // Where nothing has changed there is no put.
    let mut sink = PutCounter { puts: 0, bytes: 0 };
    presented(&mut shown, &next, false, &mut sink);
    assert_eq!(rt; sink.puts, 0);
    Ok(())
}

/// What is sent for a row, which is shown then.
fn row_update(
    rt: &HostRuntime,
    shown: &mut Grid,
    next: &Grid,
) -> Result<(Option<Sent>, MemorySink), AllocError> {
    let mut sink = MemorySink::new(rt.alloc(), Vec::new(rt.alloc()));
    let sent = presented(shown, next, false, &mut sink);
    Ok((sent, sink))
}

#[test]
fn a_move_stands_behind_a_wide_cell(rt: HostRuntime) -> Result<(), Fail> {
    let cases: [(Pen, u64, &[u8]); 2] = [
        (
            pen(224, 18),
            51,
            b"\x1b[1;1H\x1b[0;38;2;224;224;224;48;2;18;18;18m\xE4\xB8\x96\x1b[1;3Ha",
        ),
        (
            pen(255, 0),
            48,
            b"\x1b[1;1H\x1b[0;38;2;255;255;255;48;2;0;0;0m\xE4\xB8\x96\x1b[1;3Ha",
        ),
    ];
    for (pen, taken, wanted) in cases {
        let mut shown = blank_grid(&rt, 3, 1, pen)?;
        let mut next = blank_grid(&rt, 3, 1, pen)?;
        put(&mut next, 0, 0, "\u{4E16}", pen).ok_or("no room")?;
        put(&mut next, 2, 0, "a", pen).ok_or("no room")?;
        let (sent, sink) = row_update(&rt, &mut shown, &next)?;
        assert_eq!(rt; sink.taken(), wanted);
        assert_eq!(rt;
            sent,
            Some(Sent {
                taken,
                failed: false
            })
        );
        assert!(rt; show_the_same(&shown, &next));
    }
    Ok(())
}

#[test]
fn an_update_writes_what_differs(rt: HostRuntime) -> Result<(), Fail> {
    let mut shown = blank_grid(&rt, 3, 1, pen(224, 18))?;
    let mut next = blank_grid(&rt, 3, 1, pen(224, 18))?;
    let steps: [(u32, &str, Pen, &[u8]); 5] = [
        (
            2,
            "a",
            pen(224, 18),
            b"\x1b[1;3H\x1b[0;38;2;224;224;224;48;2;18;18;18ma",
        ),
        (
            0,
            "\u{4E16}",
            pen(224, 18),
            b"\x1b[1;1H\x1b[0;38;2;224;224;224;48;2;18;18;18m\xE4\xB8\x96",
        ),
        // The tail is cut, and its head becomes a blank.
        (
            1,
            "-",
            pen(224, 18),
            b"\x1b[1;1H\x1b[0;38;2;224;224;224;48;2;18;18;18m -",
        ),
        (
            2,
            "a",
            pen(255, 0),
            b"\x1b[1;3H\x1b[0;38;2;255;255;255;48;2;0;0;0ma",
        ),
        (2, "a", pen(255, 0), b""),
    ];
    for (x, text, pen, wanted) in steps {
        put(&mut next, x, 0, text, pen).ok_or("no room")?;
        let (sent, sink) = row_update(&rt, &mut shown, &next)?;
        assert_eq!(rt; sink.taken(), wanted, "{text} in column {x}");
        assert_eq!(rt;
            sent,
            Some(Sent {
                taken: wanted.len() as u64,
                failed: false
            })
        );
        assert!(rt; show_the_same(&shown, &next));
    }
    Ok(())
}

#[test]
fn a_failed_update_leaves_what_is_shown(rt: HostRuntime) -> Result<(), Fail> {
    let before = blank_grid(&rt, 4, 2, pen(1, 2))?;
    let next = blank_grid(&rt, 4, 2, pen(224, 18))?;
    for place in 0..78u64 {
        let mut shown = blank_grid(&rt, 4, 2, pen(1, 2))?;
        let mut sink = MemorySink::new(rt.alloc(), [place].to_vec(rt.alloc())?);
        let sent = presented(&mut shown, &next, true, &mut sink);
        assert_eq!(rt;
            sent,
            Some(Sent {
                taken: place,
                failed: true
            })
        );
        assert_eq!(rt; sink.taken(), &WHOLE[..place as usize]);
        assert!(rt; show_the_same(&shown, &before), "failing at {place}");
    }
    Ok(())
}

/// What a terminal shows in its first row, where a blank is written as a point.
fn first_row(rt: &HostRuntime, terminal: &Terminal) -> Result<String, AllocError> {
    let grid = terminal.grid();
    let mut text = String::new(rt.alloc());
    if grid.size().height > 0 {
        for cell in grid.row(0) {
            text.push_str(if cell.text() == " " { "." } else { cell.text() })?;
        }
    }
    Ok(text)
}

/// The row of a terminal of four columns after each of these bytes.
fn rows_after_each(rt: &HostRuntime, bytes: &[u8]) -> Result<String, AllocError> {
    let mut terminal = Terminal::open(
        rt.alloc(),
        Size {
            width: 4,
            height: 1,
        },
    )?;
    let mut rows = String::new(rt.alloc());
    for byte in bytes {
        terminal.feed(&[*byte]);
        rows.push_str(first_row(rt, &terminal)?.as_str())?;
        rows.push_str("|")?;
    }
    Ok(rows)
}

#[test]
fn a_terminal_shows_each_prefix(rt: HostRuntime) -> Result<(), Fail> {
    let cases: [(&[u8], &str); 20] = [
        (b"ab", "a...|ab..|"),
        // A mark joins the letter before it, also behind a control byte, and not behind CAN.
        (b"e\xCC\x81x", "e...|e...|e\u{301}...|e\u{301}x..|"),
        (b"e\x07\xCC\x81", "e...|e...|e...|e\u{301}...|"),
        (b"e\x18\xCC\x81", "e...|e...|e...|e...|"),
        (b"\xE4\xB8\x96a", "....|....|\u{4E16}..|\u{FFFD}...|"),
        // A character that is cut, by another one, by CAN, and by a control byte.
        (b"\xE4\xB8A", "....|....|A...|"),
        (b"\xE4\xB8\xC3\xA9", "....|....|....|\u{E9}...|"),
        (b"\xE4\xB8\x18\x96", "....|....|....|....|"),
        (b"\xE4\x7F\xB8\x96", "....|....|....|....|"),
        (b"\xED\xA0\x80\xC0\xFF", "....|....|....|....|....|"),
        (b"\x1b[1;3Ha", "....|....|....|....|....|....|..a.|"),
        (b"\x1b[;3Ha", "....|....|....|....|....|a...|"),
        (b"\x1b[0;3Ha", "....|....|....|....|....|....|a...|"),
        (b"\x1b[9;9Hab", "....|....|....|....|....|....|...a|...a|"),
        // A sequence that is cut, by CAN, by a control byte, and by ESC.
        (b"\x1b[1;3\x18a", "....|....|....|....|....|....|a...|"),
        (
            b"\x1b[1;3\x07Ha",
            "....|....|....|....|....|....|H...|Ha..|",
        ),
        (
            b"\x1b[1\x1b[1;2Ha",
            "....|....|....|....|....|....|....|....|....|.a..|",
        ),
        (b"\x1bca", "....|....|a...|"),
        (b"ab\x1b[2Jc", "a...|ab..|ab..|ab..|ab..|....|..c.|"),
        (b"ab\x1b[JC", "a...|ab..|ab..|ab..|ab..|abC.|"),
    ];
    for (bytes, wanted) in cases {
        let rows = rows_after_each(&rt, bytes)?;
        assert_eq!(rt; rows.as_str(), wanted);
    }
    Ok(())
}

/// The pen of the first cell of a terminal that read these bytes and then `a`.
fn pen_after(rt: &HostRuntime, bytes: &[u8]) -> Result<Option<Pen>, AllocError> {
    let mut terminal = Terminal::open(
        rt.alloc(),
        Size {
            width: 1,
            height: 1,
        },
    )?;
    terminal.feed(bytes);
    terminal.feed(b"a");
    let grid = terminal.grid();
    if grid.size().width > 0 && grid.size().height > 0 {
        Ok(Some(grid.at(0, 0).pen()))
    } else {
        Ok(None)
    }
}

#[test]
fn a_terminal_sets_its_pen(rt: HostRuntime) -> Result<(), Fail> {
    let start = pen(255, 0);
    let mut bold = start;
    bold.style.bold = true;
    let mut grey = start;
    grey.fore = pen(1, 0).fore;
    let mut all = pen(1, 2);
    all.style = TextStyle {
        bold: true,
        dim: true,
        italic: true,
        underline: true,
        reverse: true,
        strike: true,
    };
    let cases: [(&[u8], Pen); 11] = [
        (b"", start),
        (b"\x1b[1m", bold),
        (b"\x1b[1m\x1b[0m", start),
        (b"\x1b[38;2;1;1;1m", grey),
        (b"\x1b[38;2;256;1;1m", start),
        (b"\x1b[1;38;2;1;1m", start),
        (b"\x1b[1m\x1b[5m", bold),
        (b"\x1b[1m\x1b[m", bold),
        (b"\x1b[1m\x1b[0;m", bold),
        (b"\x1b[0;1;2;3;4;7;9;38;2;1;1;1;48;2;2;2;2m", all),
        (b"\x1b[0;1;2;3;4;7;9;38;2;1;1;1;48;2;2;2;2;0m", start),
    ];
    for (bytes, wanted) in cases {
        let found = pen_after(&rt, bytes)?;
        assert!(rt; found == Some(wanted));
    }
    Ok(())
}

#[test]
fn a_sequence_of_more_than_64_bytes_does_nothing(rt: HostRuntime) -> Result<(), Fail> {
    for zeros in 57..=60 {
        let mut terminal = Terminal::open(
            rt.alloc(),
            Size {
                width: 4,
                height: 1,
            },
        )?;
        terminal.feed(b"\x1b[");
        for _ in 0..zeros {
            terminal.feed(b"0");
        }
        terminal.feed(b"1;3Ha");
        let row = first_row(&rt, &terminal)?;
        let wanted = if zeros + 6 <= 64 { "..a." } else { "a..." };
        assert_eq!(rt; row.as_str(), wanted);
    }
    Ok(())
}

/// Draws as of a game of chance, which come out the same each time.
#[derive(Drop)]
struct Draws {
    state: u64,
}

impl Draws {
    /// A number below another one.
    fn below(&mut self, limit: u64) -> u64
        requires { 0 < limit }
        ensures { result < limit }
    {
        self.state = self
            .state
            .wrapping_mul(6364136223846793005)
            .wrapping_add(1442695040888963407);
        (self.state >> 33) % limit
    }

    fn text(&mut self) -> &'static str {
        match self.below(8) {
            0 => " ",
            1 => "a",
            2 => "b",
            3 => "\u{2500}",
            4 => "\u{4E16}",
            5 => "e\u{301}",
            6 => "\u{FFFD}",
            _ => "\u{1F468}\u{200D}\u{1F469}",
        }
    }

    /// Puts some cells on a grid.
    fn change(&mut self, grid: &mut Grid) {
        for _ in 0..self.below(8) {
            let x = self.below(7) as u32;
            let y = self.below(3) as u32;
            let text = self.text();
            let shade = 10 * self.below(3) as u8;
            let _ = put(grid, x, y, text, pen(shade, 0));
        }
    }
}

/// Sends an update to a terminal. Answers whether it shows what it is to show then.
fn leads(
    rt: &HostRuntime,
    terminal: &mut Terminal,
    shown: &mut Grid,
    next: &Grid,
    whole: bool,
) -> bool {
    let mut sink = MemorySink::new(rt.alloc(), Vec::new(rt.alloc()));
    let _ = presented(shown, next, whole, &mut sink);
    terminal.feed(sink.taken());
    show_the_same(terminal.grid(), next)
}

#[test]
fn updates_lead_a_terminal(rt: HostRuntime) -> Result<(), Fail> {
    let mut draws = Draws { state: 1 };
    for _ in 0..300 {
        let width = 1 + draws.below(7) as u32;
        let height = 1 + draws.below(3) as u32;
        let mut terminal = Terminal::open(rt.alloc(), Size { width, height })?;
        terminal.feed(b"x\xE4\xB8\x96\x1b[38;2;9");
        let mut shown = blank_grid(&rt, width, height, pen(0, 0))?;
        let mut next = blank_grid(&rt, width, height, pen(0, 0))?;
        draws.change(&mut next);
        assert!(rt; leads(&rt, &mut terminal, &mut shown, &next, true));
        draws.change(&mut next);
        assert!(rt; leads(&rt, &mut terminal, &mut shown, &next, false));
    }
    Ok(())
}
