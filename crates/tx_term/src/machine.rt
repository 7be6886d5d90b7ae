//! A terminal that reads bytes and shows cells.
ghost use Rattle.std.specs.Prelude.{◌≡◌, ◌≤◌, ◌||◌, [], ◌∷◌, false, IfOk};
ghost use Rattle.std.specs.Str.{is_utf8};
ghost use Rattle.tx_term.specs.Canvas.{with_character};
ghost use Rattle.tx_term.specs.Machine.{Machine, opened, screen_of, run, ended, escape_byte, last_command, last_byte, sequence_byte, is_control_byte, is_cut, with_bytes, text_byte, step, fed};

mod canvas;
mod command;
mod numbers;
mod settings;
mod unfinished;

use canvas::Canvas;
use command::{Command, command_of};
use std::alloc::{AllocError, Global};
use std::marker::Model;
use std::str;
use tx_cell::Grid;
use tx_geom::Size;
use unfinished::{
    ESC, MOST, Stage, Unfinished, longer_by, one, parameters, sequence_start, stage_of,
};

const CAN: u8 = 0x18;

/// A terminal of a stated kind, which shows what a real one is to show.
///
/// It knows the sequences of ECMA-48 that an update is made of. Cells are those of
/// [`Cell::of`](tx_cell::Cell::of), and a cell that doesn't fit after the cursor is dropped, so no
/// line wraps.
#[derive(Drop)]
pub struct Terminal {
    canvas: Canvas,
    cursor_shown: bool,
    alternate: bool,
    unfinished: Unfinished,
}

impl Model for Terminal {
    ghost use Rattle.tx_term.specs.Machine.{Machine};

    ghost Value = { Machine };

    ghost view = { λ t. record { canvas = t.canvas; cursor_shown = t.cursor_shown; alternate = t.alternate; unfinished = t.unfinished.items } };
}

impl Terminal {
    /// A terminal of this size, with sides of at least 1. It shows blanks of white on black.
    pub fn open(alloc: Global, size: Size) -> Result<Terminal, AllocError>
        requires width { 1 ≤ size.width }
        requires height { 1 ≤ size.height }
        ensures opened { IfOk result (λ terminal. terminal ≡ opened size) }
    {
        let canvas = Canvas::open(alloc, size)?;
        Ok(Terminal {
            canvas,
            cursor_shown: true,
            alternate: false,
            unfinished: Unfinished::new(),
        })
    }

    /// Reads bytes. They may end anywhere, as inside a sequence or a character. No memory is taken.
    #[tactic(auto, unfolding(crate::specs::Machine::fed))]
    pub fn feed(&mut self, bytes: &[u8])
        ensures fed { self.new ≡ fed self.old bytes.now }
    {
        for byte in bytes {
            self.step(*byte);
        }
    }

    /// The cells that are seen.
    pub fn grid(&self) -> &Grid
        ensures seen { result.now ≡ screen_of self.now }
    {
        self.canvas.shown()
    }

    /// Whether the cursor is shown: private mode 25.
    pub fn cursor_shown(&self) -> bool
        ensures shown { result ≡ self.now.cursor_shown }
    {
        self.cursor_shown
    }

    /// Whether the screen is the alternate one: private mode 1049.
    pub fn alternate(&self) -> bool
        ensures alternate { result ≡ self.now.alternate }
    {
        self.alternate
    }

    /// One byte.
    #[tactic(auto, unfolding(crate::specs::Machine::step))]
    fn step(&mut self, byte: u8)
        ensures { self.new ≡ step self.old byte }
    {
        match byte {
            ESC => self.begin_sequence(),
            CAN => self.end(),
            _ => match stage_of(self.unfinished.as_slice()) {
                Stage::InText => self.text_byte(byte),
                Stage::InEscape => self.escape_byte(byte),
                Stage::InSequence => self.sequence_byte(byte),
            },
        }
    }

    /// Puts the held cell and drops what is unfinished.
    fn end(&mut self)
        ensures { self.new ≡ ended self.old }
    {
        self.canvas.put_held();
        self.unfinished.clear();
    }

    fn begin_sequence(&mut self)
        ensures { self.new ≡ record (ended self.old) { unfinished = 27 ∷ [] } }
    {
        self.canvas.put_held();
        self.unfinished = one(ESC);
    }

    /// A byte after ESC.
    fn escape_byte(&mut self, byte: u8)
        ensures { self.new ≡ escape_byte self.old byte }
    {
        self.unfinished = if byte == b'[' {
            sequence_start()
        } else {
            Unfinished::new()
        };
    }

    /// A byte after `ESC [`.
    fn sequence_byte(&mut self, byte: u8)
        ensures { self.new ≡ sequence_byte self.old byte }
    {
        match byte {
            0x20..=0x3F => self.unfinished = longer_by(&self.unfinished, byte),
            0x40..=0x7E => self.last_byte(byte),
            _ => self.unfinished.clear(),
        }
    }

    /// The last byte of a sequence.
    fn last_byte(&mut self, byte: u8)
        ensures { self.new ≡ last_byte self.old byte }
    {
        let command = self.command(byte);
        self.end();
        self.run(command);
    }

    /// What the sequence with this last byte asks for: nothing where it is too long.
    fn command(&self, byte: u8) -> Command
        ensures { result ≡ last_command self.now byte }
    {
        let bytes = self.unfinished.as_slice();
        if bytes.len() < MOST {
            command_of(byte, parameters(bytes), self.canvas.pen())
        } else {
            Command::Nothing
        }
    }

    fn run(&mut self, command: Command)
        requires nothing_held { self.old.canvas.held ≡ [] }
        ensures { self.new ≡ run command self.old }
    {
        match command {
            Command::Nothing => {}
            Command::Move(row, column) => self.canvas.move_to(row, column),
            Command::Erase => self.canvas.erase(),
            Command::SetPen(pen) => self.canvas.set_pen(pen),
            Command::ShowCursor(on) => self.cursor_shown = on,
            Command::Alternate(on) => self.alternate = on,
        }
    }

    /// A byte of text.
    fn text_byte(&mut self, byte: u8)
        ensures { self.new ≡ text_byte self.old byte }
    {
        if is_control_byte(byte) {
            self.unfinished.clear();
            return;
        }
        let longer = longer_by(&self.unfinished, byte);
        if self.take(longer) {
            return;
        }
        if self.take(one(byte)) {
            return;
        }
        self.unfinished.clear();
    }

    /// Takes the bytes of a character, or of the beginning of one. Answers whether they are that.
    #[tactic(auto, unfolding(crate::specs::Machine::with_bytes))]
    fn take(&mut self, bytes: Unfinished) -> bool
        ensures known { result ≡ is_utf8 bytes.items || is_cut bytes.items }
        ensures taken { self.new ≡ with_bytes bytes.items self.old self.old }
    {
        if let Ok(text) = str::from_utf8(bytes.as_slice()) {
            self.take_character(text);
            return true;
        }
        let cut = is_cut(bytes.as_slice());
        if cut {
            self.unfinished = bytes;
        }
        cut
    }

    fn take_character(&mut self, character: &str)
        ensures { self.new ≡ record self.old { canvas = with_character character.now self.old.canvas; unfinished = [] } }
    {
        self.canvas.take(character);
        self.unfinished.clear();
    }
}

/// Whether bytes that are no text end inside a character.
fn is_cut(bytes: &[u8]) -> bool
    ensures { is_utf8 bytes.now ≡ false → result ≡ is_cut bytes.now }
{
    match str::from_utf8(bytes) {
        Ok(_) => false,
        Err(error) => error.error_len().is_none(),
    }
}

fn is_control_byte(byte: u8) -> bool
    ensures { result ≡ is_control_byte byte }
{
    byte < 0x20 || byte == 0x7F
}
