//! Sheets as values.
ghost use Rattle.std.specs.Prelude.{◌≡◌, ◌≤◌, length};
ghost use Rattle.tx_value.specs.Holds.{HoldsOf};
ghost use Rattle.tx_parse.specs.DefaultRules.{default_rules};
ghost use Rattle.tx_parse.specs.Uses.{is_class, is_pseudo, in_sheet};

use crate::uses::{Sought, in_rules};
use std::marker::Model;
use tx_select::Selector;
use tx_text::{Items, Name};
use tx_value::{Property, Value};

/// A declaration: a property and its value, with `!important` or without.
#[derive(Debug, Drop)]
pub struct Declaration {
    property: Property,
    value: Value,
    important: bool,
}

impl Model for Declaration {
    ghost use Rattle.tx_value.specs.Holds.{HoldsOf};
    ghost use Rattle.tx_parse.specs.Values.{DeclarationValue};

    ghost Value = { DeclarationValue };

    ghost view = { λ d. record { property = d.property; value = d.value; important = d.important } };

    ghost invariant = { λ d. HoldsOf d.property d.value };
}

impl Declaration {
    /// A declaration of a value that the property has.
    pub(crate) fn of(property: Property, value: Value, important: bool) -> Declaration
        requires { HoldsOf property value }
        ensures { result ≡ record { property = property; value = value; important = important } }
    {
        Declaration {
            property,
            value,
            important,
        }
    }

    /// The property.
    pub fn property(&self) -> Property
        ensures { result ≡ self.now.property }
    {
        self.property
    }

    /// The value, which is `Initial` or one that the property has.
    pub fn value(&self) -> &Value
        ensures value { result.now ≡ self.now.value }
        ensures held { HoldsOf self.now.property self.now.value }
    {
        &self.value
    }

    /// Whether `!important` stands after the values.
    pub fn important(&self) -> bool
        ensures { result ≡ self.now.important }
    {
        self.important
    }
}

/// Declarations in their order.
pub type Declarations = Items<Declaration>;

/// Selectors in their order.
pub type Selectors = Items<Selector>;

/// A rule: declarations for all rows that one of its selectors selects.
#[derive(Debug, Drop)]
pub struct Rule {
    selectors: Selectors,
    declarations: Declarations,
}

impl Model for Rule {
    ghost use Rattle.std.specs.Prelude.{◌≤◌, length};
    ghost use Rattle.tx_parse.specs.Values.{RuleValue};

    ghost Value = { RuleValue };

    ghost view = { λ r. record { selectors = r.selectors; declarations = r.declarations } };

    ghost invariant = { λ r. length r.selectors ≤ 64 };
}

impl Rule {
    pub(crate) fn of(selectors: Selectors, declarations: Declarations) -> Rule
        requires { length selectors ≤ 64 }
        ensures { result ≡ record { selectors = selectors; declarations = declarations } }
    {
        Rule {
            selectors,
            declarations,
        }
    }

    /// The selectors, at most 64.
    pub fn selectors(&self) -> &Selectors
        ensures selectors { result.now ≡ self.now.selectors }
        ensures few { length self.now.selectors ≤ 64 }
    {
        &self.selectors
    }

    /// The declarations. One that was written for several properties stands here for each of them.
    pub fn declarations(&self) -> &Declarations
        ensures { result.now ≡ self.now.declarations }
    {
        &self.declarations
    }
}

/// Rules in their order.
pub type Rules = Items<Rule>;

/// A stylesheet that was read, with the rules of the default sheet beside its own.
#[derive(Debug, Drop)]
pub struct Sheet {
    rules: Rules,
    variables: u32,
    declarations: u32,
    defaults: Rules,
}

impl Model for Sheet {
    ghost use Rattle.std.specs.Prelude.{◌≡◌, ◌≤◌, length};
    ghost use Rattle.tx_parse.specs.DefaultRules.{default_rules};
    ghost use Rattle.tx_parse.specs.Values.{SheetValue};

    ghost Value = { SheetValue };

    ghost view = { λ s. record { rules = s.rules; variables = s.variables; declarations = s.declarations; defaults = s.defaults } };

    ghost invariant = { λ s. (s.defaults ≡ default_rules) × (length s.rules ≤ 10000) };
}

impl Sheet {
    pub(crate) fn of(rules: Rules, variables: u32, declarations: u32, defaults: Rules) -> Sheet
        requires known { defaults ≡ default_rules }
        requires few { length rules ≤ 10000 }
        ensures { result ≡
            record { rules = rules; variables = variables; declarations = declarations; defaults = defaults } }
    {
        Sheet {
            rules,
            variables,
            declarations,
            defaults,
        }
    }

    /// The rules, at most 10,000.
    pub fn rules(&self) -> &Rules
        ensures rules { result.now ≡ self.now.rules }
        ensures few { length self.now.rules ≤ 10000 }
    {
        &self.rules
    }

    /// How many variables were defined, each definition counted.
    pub fn variables(&self) -> u32
        ensures { result ≡ self.now.variables }
    {
        self.variables
    }

    /// How many declarations were written.
    pub fn declarations(&self) -> u32
        ensures { result ≡ self.now.declarations }
    {
        self.declarations
    }

    /// The rules of the default sheet.
    pub fn defaults(&self) -> &Rules
        ensures rules { result.now ≡ self.now.defaults }
        ensures known { self.now.defaults ≡ default_rules }
    {
        &self.defaults
    }

    /// Whether a selector of this sheet or of the default sheet has this class.
    pub fn uses(&self, name: &Name) -> bool
        ensures { result ≡ in_sheet (is_class name.now) self.now }
    {
        in_rules(Sought::OfClass, name, &self.rules)
            || in_rules(Sought::OfClass, name, &self.defaults)
    }

    /// Whether a selector of this sheet or of the default sheet has the pseudo-class of this name.
    pub fn uses_pseudo(&self, name: &Name) -> bool
        ensures { result ≡ in_sheet (is_pseudo name.now) self.now }
    {
        in_rules(Sought::OfPseudo, name, &self.rules)
            || in_rules(Sought::OfPseudo, name, &self.defaults)
    }
}
