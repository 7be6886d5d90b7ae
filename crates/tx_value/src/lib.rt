//! The properties of TCSS, the stylesheets of Textual
//! (<https://textual.textualize.io/guide/CSS/>): their names, their values and styles.
//!
//! [`values_of`] reads the values of a declaration, and a [`Style`] has one value for each property.
#![tactic(auto)]

mod colours;
mod declaration;
mod fault;
mod inheritance;
mod initials;
pub mod laws;
mod names;
mod numbers;
mod parts;
mod property;
mod reads;
mod style;
mod tables;
#[cfg(test)]
mod tests;
mod theme;
mod value;
mod values;

pub use declaration::{read_value, values_of};
pub use fault::ValueFault;
pub use inheritance::{Inheritance, inheritance_of};
pub use initials::initial;
pub use names::knows;
pub use property::{Property, all_properties};
pub use reads::values::Border;
pub use style::Style;
pub use theme::{ThemeName, theme_colour, theme_name_of};
pub use value::{Ink, Sizes, Value, Word};
