//! Styles.
ghost use Rattle.std.specs.Prelude.{◌≡◌, ◌<◌, IfOk, map};
ghost use Rattle.tx_value.specs.Initial.{initial};
ghost use Rattle.tx_value.specs.Style.{number, style_value, with_value, initial_style};
ghost use Rattle.tx_value.specs.declared.property.Property.{Property};

use crate::initials::initial;
use crate::property::{EVERY_PROPERTY, Property};
use crate::value::Value;
use std::alloc::{AllocError, Global};
use std::marker::Model;
use tx_text::NoMemory;

/// A value for each property, in one block of memory. It is seen as the list of these, in the order
/// of [`Property`].
#[derive(Debug, Drop)]
pub struct Style {
    values: Vec<Value>,
}

impl Model for Style {
    ghost use Rattle.tx_value.specs.Initial.{initial};
    ghost use Rattle.tx_value.specs.Style.{Values, IsStyle};

    ghost Value = { Values };

    ghost view = { λ s. s.values.items };

    ghost invariant = { λ s. IsStyle s.values.items };
}

impl Style {
    /// The initial value of each property.
    pub fn initial(alloc: Global) -> Result<Style, NoMemory>
        ensures exact { IfOk result (λ s. s ≡ initial_style) }
        ensures each { IfOk result (λ s. (property : Property) → style_value s property ≡ initial property) }
    {
        let values = initial_values(alloc, &EVERY_PROPERTY)?;
        Ok(Style { values })
    }

    /// The value of a property. It takes no memory, and its time doesn't depend on the property.
    pub fn get(&self, property: Property) -> &Value
        ensures { result.now ≡ style_value self.now property }
    {
        &self.values[number(property)]
    }

    /// Another value for a property. All others stay. It takes no memory.
    pub fn set(&mut self, property: Property, value: Value)
        ensures exact { self.new ≡ with_value self.old property value }
        ensures same { style_value self.new property ≡ value }
        ensures others { (other : Property) → (other ≡ property → ⊥) → style_value self.new other ≡ style_value self.old other }
    {
        self.values[number(property)] = value;
    }

    /// A second style that equals this one.
    pub fn copy(&self) -> Result<Style, NoMemory>
        ensures { IfOk result (λ s. s ≡ self.now) }
    {
        let values = copies(*self.values.allocator(), self.values.as_slice())?;
        Ok(Style { values })
    }
}

/// The place of a property's value.
#[tactic(auto, unfolding(crate::specs::Style::number))]
fn number(property: Property) -> usize
    ensures number { result ≡ number property }
    ensures within { result < 42 }
{
    property as usize
}

/// The initial values of some properties.
fn initial_values(alloc: Global, properties: &[Property]) -> Result<Vec<Value>, NoMemory>
    ensures { IfOk result (λ values. values.items ≡ map initial properties.now) }
{
    let mut values = Vec::with_capacity(alloc, properties.len())?;
    for property in properties {
        values.push(initial(alloc, *property))?;
    }
    Ok(values)
}

/// The same values once more.
fn copies(alloc: Global, values: &[Value]) -> Result<Vec<Value>, NoMemory>
    ensures { IfOk result (λ copies. copies.items ≡ values.now) }
{
    let Ok(mut copies) = Vec::with_capacity(alloc, values.len()) else {
        return Err(AllocError);
    };
    for value in values {
        let Ok(copy) = value.copy() else {
            return Err(AllocError);
        };
        let Ok(()) = copies.push(copy) else {
            return Err(AllocError);
        };
    }
    Ok(copies)
}
