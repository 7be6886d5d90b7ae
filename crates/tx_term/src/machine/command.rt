//! What a sequence asks for.
ghost use Rattle.std.specs.Prelude.{◌≡◌, ◌<◌, length};
ghost use Rattle.tx_term.specs.Numbers.{numbers_in};
ghost use Rattle.tx_term.specs.Sequence.{move_command, erase_command, pen_command, mode_command, command_of};

use crate::machine::numbers::{Numbers, numbers_of, private_numbers_of};
use crate::machine::settings::with_settings;
use tx_cell::Pen;

/// What a sequence does.
#[derive(Clone, Copy)]
pub enum Command {
    Nothing,
    /// The cursor goes to a row and a column that are counted from 1.
    Move(u32, u32),
    /// All cells become blanks of the present pen.
    Erase,
    SetPen(Pen),
    ShowCursor(bool),
    Alternate(bool),
}

fn move_command(numbers: Option<Numbers>) -> Command
    ensures { result ≡ move_command (numbers_in numbers) }
{
    let Some(numbers) = numbers else {
        return Command::Nothing;
    };
    match numbers.as_slice() {
        [row, column] if *row > 0 && *column > 0 => Command::Move(*row, *column),
        _ => Command::Nothing,
    }
}

fn erase_command(numbers: Option<Numbers>) -> Command
    ensures { result ≡ erase_command (numbers_in numbers) }
{
    let Some(numbers) = numbers else {
        return Command::Nothing;
    };
    match numbers.as_slice() {
        [2] => Command::Erase,
        _ => Command::Nothing,
    }
}

fn pen_command(numbers: Option<Numbers>, pen: Pen) -> Command
    ensures { result ≡ pen_command (numbers_in numbers) pen }
{
    let Some(numbers) = numbers else {
        return Command::Nothing;
    };
    match with_settings(numbers.as_slice(), pen) {
        Some(pen) => Command::SetPen(pen),
        None => Command::Nothing,
    }
}

fn mode_command(on: bool, numbers: Option<Numbers>) -> Command
    ensures { result ≡ mode_command on (numbers_in numbers) }
{
    let Some(numbers) = numbers else {
        return Command::Nothing;
    };
    match numbers.as_slice() {
        [25] => Command::ShowCursor(on),
        [1049] => Command::Alternate(on),
        _ => Command::Nothing,
    }
}

/// What the sequence with this last byte asks for in the present pen.
#[tactic(auto, unfolding(crate::specs::Sequence::command_of))]
pub fn command_of(last: u8, parameters: &[u8], pen: Pen) -> Command
    requires short { length parameters.now < 64 }
    ensures { result ≡ command_of last parameters.now pen }
{
    match last {
        b'H' => move_command(numbers_of(parameters)),
        b'J' => erase_command(numbers_of(parameters)),
        b'm' => pen_command(numbers_of(parameters), pen),
        b'h' => mode_command(true, private_numbers_of(parameters)),
        b'l' => mode_command(false, private_numbers_of(parameters)),
        _ => Command::Nothing,
    }
}
