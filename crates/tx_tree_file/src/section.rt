//! The lines from one row line to the next.
ghost use Rattle.std.specs.Prelude.{◌≡◌, ◌≤◌, ◌<◌, ◌+◌, ◌^◌, ◌++◌, ◌∷◌, [], true, length, IfOk, OnOk, IfSome};
ghost use Rattle.tx_tree_file.specs.Sections.{Leads, IsMet};

use crate::line::{Item, fault, item_of};
use std::alloc::{AllocError, Global};
use tx_read::split_once;
use tx_tree::{Bind, NewRow, TreeFault, TreeKind};

/// A row line that was met.
#[derive(Debug, Drop)]
pub struct Met<'a> {
    pub depth: u32,
    pub row: NewRow,
    /// The number of the line.
    pub line: u32,
    /// The bytes after it.
    pub rest: &'a [u8],
}

/// The bindings of a row, and the next row line.
#[derive(Debug, Drop)]
pub struct Section<'a> {
    pub binds: Vec<Bind>,
    pub met: Option<Met<'a>>,
}

/// Adds an item at the end.
pub fn add<T: Drop>(items: &mut Vec<T>, item: T) -> Result<(), AllocError>
    ensures { OnOk result (items.new.items ≡ items.old.items ++ item ∷ []) }
{
    items.push(item)?;
    Ok(())
}

/// Reads the lines after a row of this depth up to the next row, where so many lines are done.
pub fn read_section(
    alloc: Global,
    depth: u32,
    rest: &[u8],
    done: u32,
) -> Result<Section<'_>, TreeFault>
    requires deep { depth ≤ 63 }
    requires size { done + length rest.now < 2 ^ 32 }
    ensures leads { Leads depth rest.now done result }
    ensures met { IfOk result (λ section. IfSome section.met (IsMet depth done (done + length rest.now))) }
{
    let mut binds = Vec::new(alloc);
    let mut left = rest;
    let mut line = done;
    while let Some((text, behind)) = split_once(left, b'\n') {
        line += 1;
        let item = match item_of(alloc, depth, text, true, line) {
            Ok(item) => item,
            Err(refusal) => return Err(refusal),
        };
        match item {
            Item::Binding(bind) => add(&mut binds, bind)?,
            Item::Widget(depth, row) => {
                let met = Met {
                    depth,
                    row,
                    line,
                    rest: behind,
                };
                return Ok(Section {
                    binds,
                    met: Some(met),
                });
            }
        }
        left = behind;
    }
    if left.is_empty() {
        return Ok(Section { binds, met: None });
    }
    match item_of(alloc, depth, left, false, line + 1) {
        Err(refusal) => Err(refusal),
        Ok(_) => Err(fault(line + 1, TreeKind::Expected)),
    }
}
