//! Which classes and pseudo-classes selectors have.
ghost use Rattle.std.specs.Prelude.{◌≡◌};
ghost use Rattle.std.specs.List.{list_any};
ghost use Rattle.tx_parse.specs.Uses.{is_sought, in_compound, in_selector, in_rule};

use crate::sheet::{Rule, Rules};
use tx_select::{Compound, Part, Selector};
use tx_text::Name;

/// What is looked for in selectors.
#[derive(Clone, Copy, Debug)]
pub enum Sought {
    /// A class of a name.
    OfClass,
    /// The pseudo-class of a name.
    OfPseudo,
}

/// Whether a part is what is looked for, of this name.
fn is_sought(sought: Sought, name: &Name, part: &Part) -> bool
    ensures { result ≡ is_sought sought name.now part.now }
{
    match part {
        Part::Id(_) => false,
        Part::Class(class) => match sought {
            Sought::OfClass => class.as_bytes() == name.as_bytes(),
            Sought::OfPseudo => false,
        },
        Part::Pseudo(pseudo) => match sought {
            Sought::OfClass => false,
            Sought::OfPseudo => pseudo.name().as_bytes() == name.as_bytes(),
        },
    }
}

/// Whether a compound has it.
fn in_compound(sought: Sought, name: &Name, compound: &Compound) -> bool
    ensures { result ≡ in_compound (is_sought sought name.now) compound.now }
{
    compound
        .parts
        .as_slice()
        .iter()
        .any(|part| is_sought(sought, name, part))
}

/// Whether a compound of a selector has it.
fn in_selector(sought: Sought, name: &Name, selector: &Selector) -> bool
    ensures { result ≡ in_selector (is_sought sought name.now) selector.now }
{
    selector
        .compounds()
        .as_slice()
        .iter()
        .any(|compound| in_compound(sought, name, compound))
}

/// Whether a selector of a rule has it.
fn in_rule(sought: Sought, name: &Name, rule: &Rule) -> bool
    ensures { result ≡ in_rule (is_sought sought name.now) rule.now }
{
    rule.selectors()
        .as_slice()
        .iter()
        .any(|selector| in_selector(sought, name, selector))
}

/// Whether a selector of some rules has it.
pub fn in_rules(sought: Sought, name: &Name, rules: &Rules) -> bool
    ensures { result ≡ list_any (in_rule (is_sought sought name.now)) rules.now }
{
    rules
        .as_slice()
        .iter()
        .any(|rule| in_rule(sought, name, rule))
}
