//! Selectors as values.
ghost use Rattle.std.specs.Prelude.{◌≡◌, IfOk};

use std::alloc::Global;
use std::marker::Model;
use tx_text::{Items, Name, NoMemory};
use tx_tree::NodeId;

/// A pseudo-class.
#[derive(Clone, Copy, Debug, PartialEq, Eq)]
pub enum PseudoName {
    Hover,
    Focus,
    FocusWithin,
    Blur,
    Enabled,
    Disabled,
    Dark,
    Light,
    FirstChild,
    LastChild,
}

impl PseudoName {
    ghost use Rattle.tx_select.specs.Pseudo.{pseudo_name};

    /// The name, as it stands after the `:`.
    pub fn name(self) -> &'static str
        ensures { result.now ≡ pseudo_name self }
    {
        match self {
            PseudoName::Hover => "hover",
            PseudoName::Focus => "focus",
            PseudoName::FocusWithin => "focus-within",
            PseudoName::Blur => "blur",
            PseudoName::Enabled => "enabled",
            PseudoName::Disabled => "disabled",
            PseudoName::Dark => "dark",
            PseudoName::Light => "light",
            PseudoName::FirstChild => "first-child",
            PseudoName::LastChild => "last-child",
        }
    }
}

/// What a row must have beside its kind.
#[derive(Clone, Copy, Debug)]
pub enum Part {
    Id(Name),
    Class(Name),
    Pseudo(PseudoName),
}

/// Parts in their order, seen as a list.
pub type Parts = Items<Part>;

/// What one row must be.
#[derive(Debug, Drop)]
pub struct Compound {
    /// Whether `>` joins it to the compound before, so that its row is a child of that one's. Else
    /// its row is any descendant. It is false in the first compound.
    pub child: bool,
    /// The name of the kind. `*` leaves none.
    pub kind: Option<Name>,
    pub parts: Parts,
}

impl Compound {
    /// A second compound that equals this one.
    pub fn copy(&self) -> Result<Compound, NoMemory>
        ensures { IfOk result (λ c. c ≡ self.now) }
    {
        Ok(Compound {
            child: self.child,
            kind: self.kind,
            parts: self.parts.copy()?,
        })
    }
}

/// Compounds in their order, seen as a list.
pub type Compounds = Items<Compound>;

/// The same compounds once more.
fn copy_of(alloc: Global, compounds: &[Compound]) -> Result<Compounds, NoMemory>
    ensures { IfOk result (λ copy. copy ≡ compounds.now) }
{
    let mut copies = Vec::new(alloc);
    for compound in compounds {
        copies.push(compound.copy()?)?;
    }
    Ok(Compounds::of(copies))
}

/// A selector: at most 16 compounds, with fewer than 2^32 parts in all. It selects the rows that
/// the last compound fits, below rows that the compounds before it fit. It is made by reading alone.
#[derive(Debug, Drop)]
pub struct Selector {
    compounds: Compounds,
}

impl Model for Selector {
    ghost use Rattle.tx_select.specs.SelectorValue.{SelectorValue, IsSmall};

    ghost Value = { SelectorValue };

    ghost view = { λ s. record { compounds = s.compounds } };

    ghost invariant = { λ s. IsSmall s.compounds };
}

impl Selector {
    ghost use Rattle.tx_select.specs.SelectorValue.{IsSmall};

    /// The selector of these compounds.
    pub(crate) fn of(compounds: Compounds) -> Selector
        requires { IsSmall compounds }
        ensures { result ≡ record { compounds = compounds } }
    {
        Selector { compounds }
    }

    /// The compounds in their order.
    pub fn compounds(&self) -> &Compounds
        ensures compounds { result.now ≡ self.now.compounds }
        ensures small { IsSmall self.now.compounds }
    {
        &self.compounds
    }

    /// A second selector that equals this one.
    pub fn copy(&self) -> Result<Selector, NoMemory>
        ensures { IfOk result (λ s. s ≡ self.now) }
    {
        let compounds = copy_of(self.compounds.allocator(), self.compounds.as_slice())?;
        Ok(Selector { compounds })
    }
}

/// What pseudo-classes are judged by.
#[derive(Clone, Copy, Debug, PartialEq, Eq)]
pub struct Pseudo {
    /// The row that has the focus.
    pub focused: Option<NodeId>,
    /// The row that the pointer is on.
    pub pointed: Option<NodeId>,
    /// Whether the theme is dark.
    pub dark: bool,
}
