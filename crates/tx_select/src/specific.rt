//! How specific a selector is.
ghost use Rattle.std.specs.Prelude.{◌≡◌, ◌<◌, ◌^◌};
ghost use Rattle.std.specs.List.{count_by};
ghost use Rattle.tx_select.specs.Specificity.{is_id, is_class, has_kind, ids, classes, types};

use crate::value::{Compound, Part, Selector};

fn is_id(part: Part) -> bool
    ensures { result ≡ is_id part }
{
    matches!(part, Part::Id(_))
}

/// Whether this is a class or a pseudo-class.
fn is_class(part: Part) -> bool
    ensures { result ≡ is_class part }
{
    matches!(part, Part::Class(_) | Part::Pseudo(_))
}

/// Whether a compound names a kind.
fn has_kind(compound: &Compound) -> bool
    ensures { result ≡ has_kind compound.now }
{
    compound.kind.is_some()
}

fn ids_of(compound: &Compound) -> usize
    ensures { result ≡ count_by is_id compound.now.parts }
{
    compound
        .parts
        .as_slice()
        .iter()
        .filter(|part| is_id(**part))
        .count()
}

fn classes_of(compound: &Compound) -> usize
    ensures { result ≡ count_by is_class compound.now.parts }
{
    compound
        .parts
        .as_slice()
        .iter()
        .filter(|part| is_class(**part))
        .count()
}

fn ids(compounds: &[Compound]) -> u32
    requires { ids compounds.now < 2 ^ 32 }
    ensures { result ≡ ids compounds.now }
{
    let count: usize = compounds.iter().map(ids_of).sum();
    count as u32
}

fn classes(compounds: &[Compound]) -> u32
    requires { classes compounds.now < 2 ^ 32 }
    ensures { result ≡ classes compounds.now }
{
    let count: usize = compounds.iter().map(classes_of).sum();
    count as u32
}

fn types(compounds: &[Compound]) -> u32
    requires { types compounds.now < 2 ^ 32 }
    ensures { result ≡ types compounds.now }
{
    let count = compounds
        .iter()
        .filter(|compound| has_kind(compound))
        .count();
    count as u32
}

/// How many ids, how many classes and pseudo-classes, and how many names of kinds a selector has.
/// It takes no memory.
pub fn specificity(selector: &Selector) -> (u32, u32, u32)
    ensures ids { result.0 ≡ ids selector.now.compounds }
    ensures classes { result.1 ≡ classes selector.now.compounds }
    ensures types { result.2 ≡ types selector.now.compounds }
{
    let compounds = selector.compounds().as_slice();
    (ids(compounds), classes(compounds), types(compounds))
}
