//! What a row has of its parent.
ghost use Rattle.std.specs.Prelude.{◌≡◌};
ghost use Rattle.tx_value.specs.Inheritance.{inheritance_of};

use crate::property::Property;

/// What a row's value of a property has to do with its parent's.
#[derive(Clone, Copy, Debug, PartialEq, Eq)]
pub enum Inheritance {
    /// Nothing: without a declaration the row has the initial value.
    NotInherited,
    /// Without a declaration the row has its parent's value.
    Inherited,
    /// The marks of the parent are added to the row's own.
    Added,
}

/// Whether a property is inherited: `color` and `visibility` are the parent's where no declaration
/// gives them, the marks of the parent's `text-style` are always added, and nothing else is inherited.
pub fn inheritance_of(property: Property) -> Inheritance
    ensures { result ≡ inheritance_of property }
{
    match property {
        Property::Visibility | Property::Color => Inheritance::Inherited,
        Property::TextStyle => Inheritance::Added,
        _ => Inheritance::NotInherited,
    }
}
