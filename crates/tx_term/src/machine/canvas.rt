//! What characters draw.
ghost use Rattle.std.specs.Prelude.{◌≡◌, ◌≤◌, ◌<◌, ◌+◌, ◌++◌, [], not, nat_lt, length, IfOk};
ghost use Rattle.std.specs.Option.{ForSome};
ghost use Rattle.tx_cell.specs.Grid.{GridValue};
ghost use Rattle.tx_cell.specs.Cell.{cell_of, most_bytes};
ghost use Rattle.tx_term.specs.Canvas.{CanvasValue, fitting, drawn, columns_of, put_held, shown_grid, ready_for, with_character, moved, erased, opened_canvas, IsPutAt};

use arrayvec::ArrayString;
use std::alloc::{AllocError, Global};
use std::marker::Model;
use tx_cell::{Cell, Grid, Pen, begins_plain};
use tx_geom::Size;

/// The text of a cell.
type Held = ArrayString<{ Cell::MOST_BYTES }>;

/// A grid, a cursor, a pen, and the cell that is held until it is known to be whole.
#[derive(Drop)]
pub struct Canvas {
    // The cells without the held one.
    grid: Grid,
    // The cells with the held one.
    shown: Grid,
    row: u32,
    column: u32,
    pen: Pen,
    held: Held,
}

impl Model for Canvas {
    ghost use Rattle.tx_term.specs.Canvas.{CanvasValue, IsKept};

    ghost Value = { CanvasValue };

    ghost view = { λ c. record { grid = c.grid; row = c.row; column = c.column; pen = c.pen; held = c.held.bytes } };

    ghost invariant = { λ c. IsKept c.shown (record { grid = c.grid; row = c.row; column = c.column; pen = c.pen; held = c.held.bytes }) };
}

impl Canvas {
    pub fn open(alloc: Global, size: Size) -> Result<Canvas, AllocError>
        requires height { 1 ≤ size.height }
        ensures { IfOk result (λ canvas. canvas ≡ opened_canvas size) }
    {
        let pen = Pen::WHITE_ON_BLACK;
        let grid = Grid::open(alloc, size, Cell::blank(pen))?;
        let shown = Grid::open(alloc, size, Cell::blank(pen))?;
        Ok(Canvas {
            grid,
            shown,
            row: 0,
            column: 0,
            pen,
            held: Held::new(),
        })
    }

    /// The cells with the held one.
    pub fn shown(&self) -> &Grid
        ensures { result.now ≡ shown_grid self.now }
    {
        &self.shown
    }

    pub fn pen(&self) -> Pen
        ensures { result ≡ self.now.pen }
    {
        self.pen
    }

    /// Puts the held cell, where there is one.
    #[tactic(auto, unfolding(crate::specs::Canvas::put_held))]
    pub fn put_held(&mut self)
        ensures { self.new ≡ put_held self.old }
    {
        let width = self.grid.size().width;
        let cell = fitting_cell(self.held.as_str(), self.pen, self.column, width);
        self.column += draw(&mut self.grid, self.column, self.row, cell);
        self.held.clear();
    }

    /// A character that joins what is held.
    fn join(&mut self, character: &str)
        requires room { length self.old.held + length character.now ≤ most_bytes }
        ensures { self.new ≡ record self.old { held = self.old.held ++ character.now } }
    {
        let width = self.grid.size().width;
        let before = fitting_cell(self.held.as_str(), self.pen, self.column, width);
        take_back(&mut self.shown, &self.grid, self.column, self.row, before);
        self.held.push_str(character);
        let cell = fitting_cell(self.held.as_str(), self.pen, self.column, width);
        draw(&mut self.shown, self.column, self.row, cell);
    }

    fn has_room_for(&self, character: &str) -> bool
        ensures { result ≡ not (nat_lt most_bytes (length self.now.held + length character.now)) }
    {
        character.len() <= self.held.remaining_capacity()
    }

    /// Puts what is held where the character begins another cell.
    fn make_ready_for(&mut self, character: &str)
        ensures { self.new ≡ ready_for character.now self.old }
    {
        if begins_plain(self.held.as_str()) && begins_plain(character) {
            self.put_held();
        }
    }

    /// A character comes: it joins the held cell, or begins another one.
    #[tactic(auto, unfolding(crate::specs::Canvas::with_character))]
    pub fn take(&mut self, character: &str)
        ensures { self.new ≡ with_character character.now self.old }
    {
        self.make_ready_for(character);
        if self.has_room_for(character) {
            self.join(character);
        }
    }

    /// Moves the cursor to a row and a column that are counted from 1, or into the last ones.
    pub fn move_to(&mut self, row: u32, column: u32)
        requires nothing_held { self.old.held ≡ [] }
        ensures { self.new ≡ moved row column self.old }
    {
        let size = self.grid.size();
        self.row = row.min(size.height).saturating_sub(1);
        self.column = column.min(size.width).saturating_sub(1);
    }

    pub fn set_pen(&mut self, pen: Pen)
        requires nothing_held { self.old.held ≡ [] }
        ensures { self.new ≡ record self.old { pen = pen } }
    {
        self.pen = pen;
    }

    /// Makes all cells blanks of the pen.
    pub fn erase(&mut self)
        requires nothing_held { self.old.held ≡ [] }
        ensures { self.new ≡ erased self.old }
    {
        let blank = Cell::blank(self.pen);
        self.grid.fill(blank);
        self.shown.fill(blank);
    }
}

/// The cell of a text, where its columns lie in a row of such a width.
fn fitting_cell(text: &str, pen: Pen, column: u32, width: u32) -> Option<Cell>
    ensures cell { result ≡ fitting column width (cell_of text.now pen) }
    ensures inside { (grid : GridValue) → grid.size.width ≡ width → ForSome result (IsPutAt grid column) }
{
    let cell = Cell::of(text, pen)?;
    if column as u64 + cell.width() as u64 <= width as u64 {
        Some(cell)
    } else {
        None
    }
}

/// Puts a cell, if there is one. Answers the columns that it takes.
fn draw(grid: &mut Grid, column: u32, row: u32, cell: Option<Cell>) -> u32
    requires row { row < grid.old.size.height }
    requires cell { ForSome cell (IsPutAt grid.old column) }
    ensures drawn { grid.new ≡ drawn grid.old column row cell }
    ensures columns { result ≡ columns_of cell }
{
    match cell {
        None => 0,
        Some(cell) => {
            grid.put(column, row, cell);
            cell.width()
        }
    }
}

/// Takes a cell back, if there is one: its row is that of the grid before it again.
fn take_back(grid: &mut Grid, before: &Grid, column: u32, row: u32, cell: Option<Cell>)
    requires row { row < before.now.size.height }
    requires drawn { grid.old ≡ drawn before.now column row cell }
    ensures { grid.new ≡ before.now }
{
    if cell.is_some() {
        grid.take_row(before, row);
    }
}
