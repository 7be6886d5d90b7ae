//! Moves, pens and cells in bytes.
ghost use Rattle.std.specs.Prelude.{◌≡◌, ◌≤◌, ◌<◌, ◌+◌, ◌^◌, ◌∷◌, [], None, false, length, ◌&&◌, if◌then◌else◌, decimal};
ghost use Rattle.tx_term.specs.Drawing.{Draws, unit_marks};
ghost use Rattle.tx_term.specs.Gather.{Adds, handed};
ghost use Rattle.tx_term.specs.Update.{move_bytes, style_bytes, channel_bytes, pen_bytes, is_last_pen, is_plain_cell, Move, Write};

use crate::update::cells::is_plain_cell;
use crate::update::gather::Gather;
use itoa::Buffer;
use tx_cell::{Cell, Pen, TextStyle};
use tx_geom::Rgb;
use tx_io::Sink;

/// What writes an update: the bytes that wait, and the pen of the last unit.
#[derive(Drop)]
pub struct Writer {
    pub gather: Gather,
    pub pen: Option<Pen>,
}

fn push_number<K: Sink>(gather: &mut Gather, sink: &mut K, number: u32)
    requires counted { handed gather.old + 40 < 2 ^ 64 }
    ensures added { Adds (K.seen sink.old) (K.seen sink.new) gather.old gather.new (decimal number) }
    ensures bounded { handed gather.new ≤ handed gather.old + 40 }
{
    let mut buffer = Buffer::new();
    gather.push(sink, buffer.format(number).as_bytes());
}

fn push_move<K: Sink>(gather: &mut Gather, sink: &mut K, row: u32, column: u32)
    requires counted { handed gather.old + 84 < 2 ^ 64 }
    ensures added { Adds (K.seen sink.old) (K.seen sink.new) gather.old gather.new (move_bytes row column) }
    ensures bounded { handed gather.new ≤ handed gather.old + 84 }
{
    gather.push(sink, b"\x1b[");
    push_number(gather, sink, row);
    gather.push(sink, b";");
    push_number(gather, sink, column);
    gather.push(sink, b"H");
}

fn push_channels<K: Sink>(gather: &mut Gather, sink: &mut K, colour: Rgb)
    requires counted { handed gather.old + 122 < 2 ^ 64 }
    ensures added { Adds (K.seen sink.old) (K.seen sink.new) gather.old gather.new (channel_bytes colour) }
    ensures bounded { handed gather.new ≤ handed gather.old + 122 }
{
    push_number(gather, sink, colour.r as u32);
    gather.push(sink, b";");
    push_number(gather, sink, colour.g as u32);
    gather.push(sink, b";");
    push_number(gather, sink, colour.b as u32);
}

fn push_if<K: Sink>(gather: &mut Gather, sink: &mut K, set: bool, piece: &[u8])
    requires short { length piece.now ≤ 2 }
    requires counted { handed gather.old + 2 < 2 ^ 64 }
    ensures added { Adds (K.seen sink.old) (K.seen sink.new) gather.old gather.new (if set then piece.now else []) }
    ensures bounded { handed gather.new ≤ handed gather.old + 2 }
{
    if set {
        gather.push(sink, piece);
    }
}

fn push_style<K: Sink>(gather: &mut Gather, sink: &mut K, style: TextStyle)
    requires counted { handed gather.old + 12 < 2 ^ 64 }
    ensures added { Adds (K.seen sink.old) (K.seen sink.new) gather.old gather.new (style_bytes style) }
    ensures bounded { handed gather.new ≤ handed gather.old + 12 }
{
    push_if(gather, sink, style.bold, b";1");
    push_if(gather, sink, style.dim, b";2");
    push_if(gather, sink, style.italic, b";3");
    push_if(gather, sink, style.underline, b";4");
    push_if(gather, sink, style.reverse, b";7");
    push_if(gather, sink, style.strike, b";9");
}

fn push_pen<K: Sink>(gather: &mut Gather, sink: &mut K, pen: Pen)
    requires counted { handed gather.old + 300 < 2 ^ 64 }
    ensures added { Adds (K.seen sink.old) (K.seen sink.new) gather.old gather.new (pen_bytes pen) }
    ensures bounded { handed gather.new ≤ handed gather.old + 300 }
{
    gather.push(sink, b"\x1b[0");
    push_style(gather, sink, pen.style);
    gather.push(sink, b";38;2;");
    push_channels(gather, sink, pen.fore);
    gather.push(sink, b";48;2;");
    push_channels(gather, sink, pen.back);
    gather.push(sink, b"m");
}

/// Whether this is the pen of the last unit.
fn is_last(last: Option<Pen>, pen: Pen) -> bool
    ensures { result ≡ is_last_pen last pen }
{
    match last {
        None => false,
        Some(last) => last == pen,
    }
}

fn push_new_pen<K: Sink>(gather: &mut Gather, sink: &mut K, last: Option<Pen>, pen: Pen)
    requires counted { handed gather.old + 300 < 2 ^ 64 }
    ensures added { Adds (K.seen sink.old) (K.seen sink.new) gather.old gather.new (if is_last_pen last pen then [] else pen_bytes pen) }
    ensures bounded { handed gather.new ≤ handed gather.old + 300 }
{
    if !is_last(last, pen) {
        push_pen(gather, sink, pen);
    }
}

impl Writer {
    pub fn new() -> Writer
        ensures { result ≡ record { gather = record { waiting = []; taken = 0; failed = false }; pen = None } }
    {
        Writer {
            gather: Gather::new(),
            pen: None,
        }
    }

    /// A move to a row and a column, counted from 1.
    fn move_to<K: Sink>(&mut self, sink: &mut K, row: u32, column: u32)
        requires counted { handed self.old.gather + 512 < 2 ^ 64 }
        ensures { Draws (K.seen sink.old) (K.seen sink.new) self.old self.new (Move row column ∷ []) }
    {
        push_move(&mut self.gather, sink, row, column);
    }

    /// The move before a unit, where it isn't a plain one after a plain one.
    fn move_before<K: Sink>(
        &mut self,
        sink: &mut K,
        row: u32,
        column: u32,
        behind_plain: bool,
        plain: bool,
    )
        requires row { row < 65535 }
        requires column { column < 65535 }
        requires counted { handed self.old.gather + 512 < 2 ^ 64 }
        ensures { Draws (K.seen sink.old) (K.seen sink.new) self.old self.new (if behind_plain && plain then [] else Move (row + 1) (column + 1) ∷ []) }
    {
        if !(behind_plain && plain) {
            self.move_to(sink, row + 1, column + 1);
        }
    }

    /// A cell.
    fn write<K: Sink>(&mut self, sink: &mut K, cell: &Cell)
        requires counted { handed self.old.gather + 512 < 2 ^ 64 }
        ensures { Draws (K.seen sink.old) (K.seen sink.new) self.old self.new (Write cell.now ∷ []) }
    {
        let pen = cell.pen();
        push_new_pen(&mut self.gather, sink, self.pen, pen);
        self.gather.push(sink, cell.text().as_bytes());
        self.pen = Some(pen);
    }

    /// The unit at row and column, counted from 0, after a plain unit of its run or not. Answers
    /// whether it is plain.
    pub fn write_unit<K: Sink>(
        &mut self,
        sink: &mut K,
        row: u32,
        column: u32,
        behind_plain: bool,
        cell: &Cell,
    ) -> bool
        requires row { row < 65535 }
        requires column { column < 65535 }
        requires counted { handed self.old.gather + 1024 < 2 ^ 64 }
        ensures drawn { Draws (K.seen sink.old) (K.seen sink.new) self.old self.new (unit_marks row column behind_plain cell.now) }
        ensures plain { result ≡ is_plain_cell cell.now }
    {
        let plain = is_plain_cell(cell);
        self.move_before(sink, row, column, behind_plain, plain);
        self.write(sink, cell);
        plain
    }
}
