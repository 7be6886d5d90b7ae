//! Initial values.
ghost use Rattle.std.specs.Prelude.{◌≡◌};
ghost use Rattle.tx_value.specs.Initial.{initial, whole_size};

use crate::colours::clear;
use crate::property::Property;
use crate::theme::ThemeName;
use crate::value::{Ink, Sizes, Value, Word};
use std::alloc::Global;
use tx_frac::{Frac, Scalar, Unit};
use tx_geom::TextStyle;

/// 100 percent.
pub fn whole_size() -> Scalar
    ensures { result ≡ whole_size }
{
    Scalar {
        value: Frac::whole(100),
        unit: Unit::Percent,
    }
}

/// The initial value of a property. It takes no memory; a list is still empty.
///
/// A row has it where no declaration and no ancestor gives it another.
#[tactic(auto, unfolding(crate::specs::Initial::initial))]
pub fn initial(alloc: Global, property: Property) -> Value
    ensures { result ≡ initial property }
{
    match property {
        Property::Display => Value::Word(Word::Block),
        Property::Visibility => Value::Word(Word::Visible),
        Property::Layout => Value::Word(Word::Vertical),
        Property::Width | Property::Height => Value::Size(whole_size()),
        Property::BoxSizing => Value::Word(Word::BorderBox),
        Property::MarginTop
        | Property::MarginRight
        | Property::MarginBottom
        | Property::MarginLeft
        | Property::PaddingTop
        | Property::PaddingRight
        | Property::PaddingBottom
        | Property::PaddingLeft => Value::Whole(0),
        Property::Background => Value::Ink(clear()),
        Property::Color => Value::Ink(Ink::Theme {
            name: ThemeName::Foreground,
            alpha: 100,
        }),
        Property::TextStyle => Value::Marks(TextStyle::PLAIN),
        Property::GridSize => Value::GridSize {
            columns: 1,
            rows: None,
        },
        Property::GridColumns | Property::GridRows => Value::Sizes(Sizes::of(Vec::new(alloc))),
        Property::GridGutter | Property::Offset => Value::Pair(0, 0),
        Property::ColumnSpan | Property::RowSpan => Value::Whole(1),
        Property::OverflowX | Property::OverflowY => Value::Word(Word::Hidden),
        Property::AlignHorizontal | Property::ContentAlignHorizontal | Property::TextAlign => {
            Value::Word(Word::Left)
        }
        Property::AlignVertical | Property::ContentAlignVertical => Value::Word(Word::Top),
        Property::Dock
        | Property::MinWidth
        | Property::MaxWidth
        | Property::MinHeight
        | Property::MaxHeight
        | Property::BorderTop
        | Property::BorderRight
        | Property::BorderBottom
        | Property::BorderLeft
        | Property::Layers
        | Property::Layer => Value::Word(Word::Nothing),
    }
}
