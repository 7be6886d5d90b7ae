//! What holds of the definitions.
ghost use Rattle.std.specs.Prelude.{List};
ghost use Rattle.tx_value.specs.Laws.{InitialIsTheInitialValue, ReadsAreWithin};
ghost use Rattle.tx_value.specs.declared.value.Value.{Value};
ghost use Rattle.tx_value.specs.Style.{StylesAreTheirValues, ValuesMakeStyles};

/// A style is nothing but a value for each property: its values make it, and any values make one.
pub fn styles_are_values()
    ensures alone { StylesAreTheirValues }
    ensures any { ValuesMakeStyles }
{}

/// A style that has `initial` for a property says of it what the initial value says.
pub fn initial_is_the_initial_value()
    ensures { InitialIsTheInitialValue }
{}

/// What styles say lies in the bounds of the table of properties, whatever values they have.
pub fn reads_are_within()
    ensures { (values : List Value) → ReadsAreWithin values }
{}
