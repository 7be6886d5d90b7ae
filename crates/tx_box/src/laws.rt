//! What authors expect of an axis and of a box, as contracts of functions that do nothing. They hold
//! of the definitions that [`crate::resolve_axis`] and [`crate::box_of`] give the answers of.

ghost use Rattle.tx_box.specs.Laws.{FillsTotal, OneUnit, SpansFollow};
ghost use Rattle.tx_box.specs.Ordinary.{OrdinaryAxis, OrdinaryBox, OrdinaryCells, OrdinarySpans};

/// Each item with a share in `fr` gets its share of one unit, which is the same for all of them,
/// or its least size, its greatest size or 65,535.
pub fn one_unit()
    ensures { OneUnit }
{
    tx_frac::laws::one_form();
    tx_frac::laws::products_over_two();
}

/// Where some item with a share in `fr` isn't settled in the last round, its share is greater than
/// 0 and what is left isn't below 0, the last end and the last gap come to the whole area.
pub fn fills_total()
    ensures { FillsTotal }
{
    tx_frac::laws::one_form();
    tx_frac::laws::sums_over_one();
    tx_frac::laws::products_over_two();
}

/// Each span begins where the one before it ends, with the gap between them, and none ends before
/// it begins.
pub fn spans_follow()
    ensures { SpansFollow }
{
    tx_frac::laws::one_form();
    tx_frac::laws::sums_over_one();
    tx_frac::laws::products_over_two();
}

/// The spans are always defined for numbers as stylesheets write them: of at most 9 whole digits
/// and 3 decimals, for at most 100,000 items, in areas, bases and screens of at most 2^23 cells,
/// with any padding, border, content and gaps.
pub fn ordinary_axis()
    ensures { OrdinaryAxis }
{
    tx_frac::laws::one_form();
    tx_frac::laws::sums_over_one();
    tx_frac::laws::products_over_two();
    tx_frac::laws::defined_in_range();
}

/// The size of one box is always defined for such numbers.
pub fn ordinary_box()
    ensures { OrdinaryBox }
{
    tx_frac::laws::one_form();
    tx_frac::laws::sums_over_one();
    tx_frac::laws::products_over_two();
    tx_frac::laws::defined_in_range();
}

/// Each span of such numbers has at most 65,535 cells.
pub fn ordinary_spans()
    ensures { OrdinarySpans }
{
    tx_frac::laws::one_form();
    tx_frac::laws::sums_over_one();
    tx_frac::laws::products_over_two();
    tx_frac::laws::defined_in_range();
}

/// So does one box of such numbers.
pub fn ordinary_cells()
    ensures { OrdinaryCells }
{
    tx_frac::laws::one_form();
    tx_frac::laws::sums_over_one();
    tx_frac::laws::products_over_two();
    tx_frac::laws::defined_in_range();
}
