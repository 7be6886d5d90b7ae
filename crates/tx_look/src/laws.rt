//! What holds of boxes and grids.

ghost use Rattle.tx_look.specs.Ordinary.{FewDecimalsAreOrdinary, OrdinaryLooks};

/// A style whose sizes have at most 9 whole digits and 3 decimals gives a box and a grid of such
/// sizes.
pub fn ordinary_looks()
    ensures { OrdinaryLooks }
{
    tx_frac::laws::one_form();
    tx_value::laws::reads_are_within();
}

/// Of a value that the table of properties gives, whose sizes have at most 9 whole digits by that
/// table, nothing more is needed than that they have at most 3 decimals.
pub fn few_decimals_are_ordinary()
    ensures { FewDecimalsAreOrdinary }
{}
