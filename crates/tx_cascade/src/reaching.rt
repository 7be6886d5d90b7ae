//! The declarations that reach a row.
ghost use Rattle.std.specs.Prelude.{◌≡◌, ◌++◌, true, length, is_some, IfOk, OnOk};
ghost use Rattle.tx_tree.specs.Rows.{row_at};
ghost use Rattle.tx_cascade.specs.Key.{weight_parts, greater};
ghost use Rattle.tx_cascade.specs.Reaching.{weight, weight_at, no_weight, all_reached, of_rule, of_rules, inline_declarations, reaching, selectors_of, selectors_in};
ghost use Rattle.tx_cascade.specs.Tested.{TestedAtMost};
ghost use Rattle.tx_cascade.specs.Matchers.{matchers_of};
ghost use Rattle.tx_cascade.specs.declared.key.Origin.TheVariants.{Inline};

use crate::key::{Key, Origin, Weight, outweighs};
use std::alloc::{AllocError, Global};
use tx_io::{Ledger, Steps};
use tx_parse::{Declaration, Rule, Sheet, SheetFault, read_inline};
use tx_select::{Pseudo, Selector, matches, specificity};
use tx_text::NoMemory;
use tx_tree::{NodeId, Row, Tree};
use tx_value::{Property, Value};

/// A declaration that reaches a row.
#[derive(Debug, Drop)]
pub struct Reached {
    pub property: Property,
    pub value: Value,
    pub key: Key,
}

// The texts that can be read are shorter than this.
const MOST_BYTES: usize = 4_294_967_296;

fn weight(selector: &Selector) -> Weight
    ensures { result ≡ weight selector.now }
{
    let (ids, classes, types) = specificity(selector);
    Weight {
        ids,
        classes,
        types,
    }
}

/// The greater of two weights, if there are any.
fn heavier(best: Option<Weight>, weight: Weight) -> Option<Weight>
    ensures { result ≡ greater weight_parts best weight }
{
    match best {
        None => Some(weight),
        Some(held) => {
            if outweighs(weight, held) {
                Some(weight)
            } else {
                Some(held)
            }
        }
    }
}

/// Whether a selector matches the row of a node, which is there.
fn is_match<L: Ledger>(
    tree: &Tree,
    pseudo: &Pseudo,
    node: NodeId,
    selector: &Selector,
    steps: &mut Steps<L>,
) -> bool
    requires { is_some (row_at node.0 tree.now.rows) ≡ true }
    ensures exact { result ≡ matchers_of pseudo.now tree.now.rows node.0 selector.now.compounds }
    ensures ticks { TestedAtMost L.ticked 1 steps.old.ledger steps.new.ledger }
{
    let _root = tree.root();
    matches(tree, pseudo, node, selector, steps)
}

/// How specific a rule is at the row of a node, which is there: None where none of its selectors
/// matches.
fn weight_at<L: Ledger>(
    tree: &Tree,
    pseudo: &Pseudo,
    node: NodeId,
    selectors: &[Selector],
    steps: &mut Steps<L>,
) -> Option<Weight>
    requires { is_some (row_at node.0 tree.now.rows) ≡ true }
    ensures exact { result ≡ weight_at (matchers_of pseudo.now tree.now.rows node.0) selectors.now }
    ensures ticks { TestedAtMost L.ticked (length selectors.now) steps.old.ledger steps.new.ledger }
{
    let mut best = None;
    for selector in selectors {
        if is_match(tree, pseudo, node, selector, steps) {
            best = heavier(best, weight(selector));
        }
    }
    best
}

/// Adds declarations with their keys, of a rule that is so specific and has this number.
fn push_declarations(
    all: &mut Vec<Reached>,
    origin: Origin,
    weight: Weight,
    rule: usize,
    declarations: &[Declaration],
) -> Result<(), NoMemory>
    ensures { OnOk result (all.new.items ≡ all.old.items ++ all_reached origin weight rule declarations.now) }
{
    for (place, declaration) in declarations.iter().enumerate() {
        let value = declaration.value().copy()?;
        let key = Key {
            important: declaration.important(),
            origin,
            weight,
            rule,
            place,
        };
        let reached = Reached {
            property: declaration.property(),
            value,
            key,
        };
        let Ok(()) = all.push(reached) else {
            return Err(AllocError);
        };
    }
    Ok(())
}

/// Adds the declarations of a rule with its number, where it reaches the row of a node, which is there.
fn push_rule<L: Ledger>(
    all: &mut Vec<Reached>,
    tree: &Tree,
    pseudo: &Pseudo,
    node: NodeId,
    origin: Origin,
    number: usize,
    rule: &Rule,
    steps: &mut Steps<L>,
) -> Result<(), NoMemory>
    requires { is_some (row_at node.0 tree.now.rows) ≡ true }
    ensures exact { OnOk result (all.new.items ≡ all.old.items ++ of_rule (matchers_of pseudo.now tree.now.rows node.0) origin (number, rule.now)) }
    ensures ticks { TestedAtMost L.ticked (length rule.now.selectors) steps.old.ledger steps.new.ledger }
{
    let selectors = rule.selectors().as_slice();
    match weight_at(tree, pseudo, node, selectors, steps) {
        Some(weight) => {
            let declarations = rule.declarations().as_slice();
            push_declarations(all, origin, weight, number, declarations)
        }
        None => Ok(()),
    }
}

/// Adds the declarations of the rules that reach the row of a node, which is there.
fn push_rules<L: Ledger>(
    all: &mut Vec<Reached>,
    tree: &Tree,
    pseudo: &Pseudo,
    node: NodeId,
    origin: Origin,
    rules: &[Rule],
    steps: &mut Steps<L>,
) -> Result<(), NoMemory>
    requires { is_some (row_at node.0 tree.now.rows) ≡ true }
    ensures exact { OnOk result (all.new.items ≡ all.old.items ++ of_rules (matchers_of pseudo.now tree.now.rows node.0) origin rules.now) }
    ensures ticks { TestedAtMost L.ticked (selectors_of rules.now) steps.old.ledger steps.new.ledger }
{
    for (number, rule) in rules.iter().enumerate() {
        push_rule(all, tree, pseudo, node, origin, number, rule, steps)?;
    }
    Ok(())
}

/// The declarations of an inline text.
fn inline_declarations(alloc: Global, text: &str) -> Result<Vec<Declaration>, NoMemory>
    ensures { IfOk result (λ declarations. declarations.items ≡ inline_declarations text.now) }
{
    if text.len() >= MOST_BYTES {
        return Ok(Vec::new(alloc));
    }
    match read_inline(alloc, text) {
        Ok(declarations) => Ok(declarations),
        Err(SheetFault::Text { .. }) => Ok(Vec::new(alloc)),
        Err(SheetFault::NoMemory) => Err(AllocError),
    }
}

/// Adds the declarations of a row's own.
fn push_inline(alloc: Global, all: &mut Vec<Reached>, text: &str) -> Result<(), NoMemory>
    ensures { OnOk result (all.new.items ≡ all.old.items ++ all_reached Inline no_weight 0 (inline_declarations text.now)) }
{
    let declarations = inline_declarations(alloc, text)?;
    push_declarations(
        all,
        Origin::Inline,
        Weight::NONE,
        0,
        declarations.as_slice(),
    )
}

/// All declarations that reach the row of a node, which is there with this inline text.
pub fn reaching<L: Ledger>(
    alloc: Global,
    sheet: &Sheet,
    tree: &Tree,
    pseudo: &Pseudo,
    row: &Row,
    steps: &mut Steps<L>,
) -> Result<Vec<Reached>, NoMemory>
    requires { is_some (row_at row.now.node.0 tree.now.rows) ≡ true }
    ensures exact { IfOk result (λ all. all.items ≡ reaching (matchers_of pseudo.now tree.now.rows row.now.node.0) sheet.now row.now.inline) }
    ensures ticks { TestedAtMost L.ticked (selectors_in sheet.now) steps.old.ledger steps.new.ledger }
{
    let mut all = Vec::new(alloc);
    let defaults = sheet.defaults().as_slice();
    push_rules(
        &mut all,
        tree,
        pseudo,
        row.node,
        Origin::Default,
        defaults,
        steps,
    )?;
    let rules = sheet.rules().as_slice();
    push_rules(
        &mut all,
        tree,
        pseudo,
        row.node,
        Origin::Sheet,
        rules,
        steps,
    )?;
    push_inline(alloc, &mut all, row.inline.as_str())?;
    Ok(all)
}
