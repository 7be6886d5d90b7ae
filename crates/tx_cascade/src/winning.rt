//! Which declaration of a property wins.
ghost use Rattle.std.specs.Prelude.{◌≡◌, option_copied};
ghost use Rattle.tx_value.specs.Style as style;
ghost use Rattle.tx_cascade.specs.Cascade.{is_default, is_of, counts, winner, is_initial, given, declared};
ghost use Rattle.tx_cascade.specs.Key.{key_parts, greater};

use crate::key::{Origin, beats};
use crate::reaching::Reached;
use tx_value::{Property, Value};

fn is_default(origin: Origin) -> bool
    ensures { result ≡ is_default origin }
{
    matches!(origin, Origin::Default)
}

/// The place of a property in the table of properties.
#[tactic(auto, unfolding(tx_value::specs::Style::number))]
fn number(property: Property) -> usize
    ensures { result ≡ style.number property }
{
    property as usize
}

/// Whether a declaration is one of this property, and where it is asked for, of the default sheet.
fn counts(property: Property, only_default: bool, one: &Reached) -> bool
    ensures { result ≡ counts property only_default one.now }
{
    let is_of = number(one.property) == number(property);
    if only_default {
        return is_default(one.key.origin) && is_of;
    }
    is_of
}

/// The one that wins of a winner so far, if there is one, and one declaration more.
fn greater<'a>(best: Option<&'a Reached>, one: &'a Reached) -> Option<&'a Reached>
    ensures { option_copied result ≡ greater (λ one. key_parts one.key) (option_copied best.entry) one.now }
{
    match best {
        None => Some(one),
        Some(held) => {
            if beats(&one.key, &held.key) {
                Some(one)
            } else {
                Some(held)
            }
        }
    }
}

/// Of all declarations of a property the one that wins, or of all those of the default sheet.
fn winner(property: Property, only_default: bool, all: &[Reached]) -> Option<&Reached>
    ensures { option_copied result ≡ winner property only_default all.now }
{
    let mut best = None;
    for one in all {
        if counts(property, only_default, one) {
            best = greater(best, one);
        }
    }
    best
}

fn is_initial(value: &Value) -> bool
    ensures { result ≡ is_initial value.now }
{
    matches!(value, Value::Initial)
}

/// What a winner gives, where it isn't `initial`.
fn given(winner: Option<&Reached>) -> Option<&Value>
    ensures { option_copied result ≡ given (option_copied winner.entry) }
{
    let one = winner?;
    if is_initial(&one.value) {
        return None;
    }
    Some(&one.value)
}

/// The value that is declared for a property, if there is one.
pub fn declared(property: Property, all: &[Reached]) -> Option<&Value>
    ensures { option_copied result ≡ declared property all.now }
{
    let first = winner(property, false, all);
    if first.is_none() {
        return None;
    }
    match given(first) {
        Some(value) => Some(value),
        None => given(winner(property, true, all)),
    }
}
