//! A row's style, by its parent's.
ghost use Rattle.std.specs.Prelude.{◌≡◌, IfOk, option_copied, unwrap_or};
ghost use Rattle.tx_value.specs.ValueReads.{marks_in};
ghost use Rattle.std.specs.List.{fold};
ghost use Rattle.tx_value.specs.Style.{with_value};
ghost use Rattle.tx_cascade.specs.Cascade.{marks_of, value_below, style_below};

use crate::reaching::Reached;
use crate::winning::declared;
use std::alloc::Global;
use tx_geom::TextStyle;
use tx_text::NoMemory;
use tx_value::{Inheritance, Property, Style, Value, all_properties, inheritance_of, initial};

fn marks_in(value: &Value) -> TextStyle
    ensures { result ≡ marks_in value.now }
{
    match value {
        Value::Marks(marks) => *marks,
        _ => TextStyle::PLAIN,
    }
}

/// The marks that are declared, if any.
fn marks_of(value: Option<&Value>) -> TextStyle
    ensures { result ≡ marks_of (option_copied value.entry) }
{
    match value {
        Some(value) => marks_in(value),
        None => TextStyle::PLAIN,
    }
}

/// A copy of a value that is declared, or of the one that stands in for it.
fn declared_or(value: Option<&Value>, other: &Value) -> Result<Value, NoMemory>
    ensures { IfOk result (λ v. v ≡ unwrap_or (option_copied value.entry) other.now) }
{
    match value {
        Some(value) => value.copy(),
        None => other.copy(),
    }
}

/// A row's value of a property, by its parent's style.
fn value_below(
    alloc: Global,
    above: &Style,
    all: &[Reached],
    property: Property,
) -> Result<Value, NoMemory>
    ensures { IfOk result (λ v. v ≡ value_below above.now all.now property) }
{
    let value = declared(property, all);
    match inheritance_of(property) {
        Inheritance::NotInherited => declared_or(value, &initial(alloc, property)),
        Inheritance::Inherited => declared_or(value, above.get(property)),
        Inheritance::Added => {
            let marks = marks_of(value).with(marks_in(above.get(property)));
            Ok(Value::Marks(marks))
        }
    }
}

/// A row's style, by its parent's and by the declarations that reach it.
pub fn style_below(alloc: Global, above: &Style, all: &[Reached]) -> Result<Style, NoMemory>
    ensures { IfOk result (λ style. style ≡ style_below above.now all.now) }
{
    let mut style = Style::initial(alloc)?;
    for property in all_properties() {
        let value = value_below(alloc, above, all, *property)?;
        style.set(*property, value);
    }
    Ok(style)
}
