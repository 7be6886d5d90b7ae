//! The order of declarations.
ghost use Rattle.std.specs.Prelude.{◌≡◌, ◌==◌, nat_lt, if◌then◌else◌};
ghost use Rattle.tx_cascade.specs.Key.{rank, importance, weight_parts, key_parts, exceeds};

/// Where a declaration stands.
#[derive(Clone, Copy, Debug)]
pub enum Origin {
    /// In the default sheet.
    Default,
    /// In the author's sheet.
    Sheet,
    /// In the row's own inline text.
    Inline,
}

/// How specific a selector is.
#[derive(Clone, Copy, Debug)]
pub struct Weight {
    pub ids: u32,
    pub classes: u32,
    pub types: u32,
}

/// What the order of two declarations goes by.
#[derive(Clone, Copy, Debug)]
pub struct Key {
    pub important: bool,
    pub origin: Origin,
    /// That of the rule at the row.
    pub weight: Weight,
    /// The number of the rule in its sheet, from 0.
    pub rule: usize,
    /// The number of the declaration in its rule, from 0.
    pub place: usize,
}

impl Weight {
    /// The weight of no selector.
    pub const NONE: Weight = Weight {
        ids: 0,
        classes: 0,
        types: 0,
    };
}

fn rank(origin: Origin) -> u64
    ensures { result ≡ rank origin }
{
    match origin {
        Origin::Default => 0,
        Origin::Sheet => 1,
        Origin::Inline => 2,
    }
}

fn importance(important: bool) -> u64
    ensures { result ≡ importance important }
{
    if important { 1 } else { 0 }
}

/// Whether the first of two lists of numbers exceeds the second, by their first numbers and by
/// whether the rest of it does.
fn by_first(first: u64, second: u64, rest: bool) -> bool
    ensures { result ≡ (if first == second then rest else nat_lt second first) }
{
    if first == second {
        return rest;
    }
    second < first
}

/// Whether a selector is more specific than another, where `rest` decides between equal ones.
fn weighs_more(first: Weight, second: Weight, rest: bool) -> bool
    ensures { result ≡ (if first.ids == second.ids
        then (if first.classes == second.classes then (if first.types == second.types then rest else nat_lt second.types first.types)
        else nat_lt second.classes first.classes)
        else nat_lt second.ids first.ids) }
{
    let types = by_first(u64::from(first.types), u64::from(second.types), rest);
    let classes = by_first(u64::from(first.classes), u64::from(second.classes), types);
    by_first(u64::from(first.ids), u64::from(second.ids), classes)
}

/// Whether a selector is more specific than another.
pub fn outweighs(first: Weight, second: Weight) -> bool
    ensures { result ≡ exceeds (weight_parts first) (weight_parts second) }
{
    weighs_more(first, second, false)
}

/// Whether a declaration wins over another.
pub fn beats(first: &Key, second: &Key) -> bool
    ensures { result ≡ exceeds (key_parts first.now) (key_parts second.now) }
{
    let place = by_first(first.place as u64, second.place as u64, false);
    let rule = by_first(first.rule as u64, second.rule as u64, place);
    let weight = weighs_more(first.weight, second.weight, rule);
    let origin = by_first(rank(first.origin), rank(second.origin), weight);
    by_first(
        importance(first.important),
        importance(second.important),
        origin,
    )
}
