//! What keywords say. A keyword that a property doesn't take says what the initial one says.
ghost use Rattle.std.specs.Prelude.{◌≡◌};
ghost use Rattle.tx_value.specs.WordMeanings.{layout_of, dock_of, sizing_of, overflow_of, across_of, down_of};

use crate::value::Word;
use tx_geom::{AlignX, AlignY, BoxSizing, Edge, LayoutKind, Overflow};

pub fn layout_of(word: Word) -> LayoutKind
    ensures { result ≡ layout_of word }
{
    match word {
        Word::Horizontal => LayoutKind::Horizontal,
        Word::Grid => LayoutKind::Grid,
        _ => LayoutKind::Vertical,
    }
}

pub fn dock_of(word: Word) -> Option<Edge>
    ensures { result ≡ dock_of word }
{
    match word {
        Word::Top => Some(Edge::Top),
        Word::Right => Some(Edge::Right),
        Word::Bottom => Some(Edge::Bottom),
        Word::Left => Some(Edge::Left),
        _ => None,
    }
}

pub fn sizing_of(word: Word) -> BoxSizing
    ensures { result ≡ sizing_of word }
{
    match word {
        Word::ContentBox => BoxSizing::ContentBox,
        _ => BoxSizing::BorderBox,
    }
}

pub fn overflow_of(word: Word) -> Overflow
    ensures { result ≡ overflow_of word }
{
    match word {
        Word::Auto => Overflow::Auto,
        Word::Scroll => Overflow::Scroll,
        _ => Overflow::Hidden,
    }
}

pub fn across_of(word: Word) -> AlignX
    ensures { result ≡ across_of word }
{
    match word {
        Word::Center => AlignX::Center,
        Word::Right => AlignX::Right,
        _ => AlignX::Left,
    }
}

pub fn down_of(word: Word) -> AlignY
    ensures { result ≡ down_of word }
{
    match word {
        Word::Middle => AlignY::Middle,
        Word::Bottom => AlignY::Bottom,
        _ => AlignY::Top,
    }
}
