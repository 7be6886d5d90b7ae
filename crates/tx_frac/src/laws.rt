//! Facts on fractions over a denominator that isn't their own, as contracts of functions that do
//! nothing. They hold of the whole definitions, and not only of what one call gives.

ghost use Rattle.tx_frac.specs.Laws.{DefinedInRange, OneForm, ProductsOverTwo, SumsOverOne};

/// A fraction has one numerator over a denominator, and is one fraction.
pub fn one_form()
    ensures { OneForm }
{}

/// Sums, differences and the order of fractions over one denominator are those of the numerators.
pub fn sums_over_one()
    ensures { SumsOverOne }
{}

/// Products and quotients go by numerators and denominators.
pub fn products_over_two()
    ensures { ProductsOverTwo }
{}

/// Operations are defined where a common denominator and the numerators over it are in range.
pub fn defined_in_range()
    ensures { DefinedInRange }
{}
