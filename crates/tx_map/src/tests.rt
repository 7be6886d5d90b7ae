mod application;
mod chains;
mod trees;

use crate::{ComposeFault, Entry, LayoutMap, Present, Scrolls};
use std::alloc::Global;
use std::rt::HostRuntime;
use std::test::Fail;
use tx_cascade::Styles;
use tx_expect::expect;
use tx_geom::{Region, Size};
use tx_io::{Counted, Steps};
use tx_parse::Sheet;
use tx_select::Pseudo;
use tx_tree::{NodeId, Tree};

const STILL: Pseudo = Pseudo {
    focused: None,
    pointed: None,
    dark: true,
};

// The map of a tree under a sheet.
fn map_of(
    alloc: Global,
    sheet: &Sheet,
    tree: &Tree,
    scrolls: &Scrolls,
    size: Size,
) -> Result<Result<LayoutMap, ComposeFault>, Fail> {
    let mut steps = Steps {
        ledger: Counted::default(),
    };
    let styles = Styles::open(alloc, sheet, tree, &STILL, &mut steps)?;
    let present = Present {
        tree,
        pseudo: &STILL,
        scrolls,
        size,
    };
    Ok(LayoutMap::of(alloc, &present, &styles, &mut steps))
}

// A region as `X Y WIDTH HEIGHT`.
fn region_text(alloc: Global, region: Region) -> Result<String, Fail> {
    Ok(format!(in alloc;
        "{} {} {} {}",
        region.x, region.y, region.width, region.height
    )?)
}

// Two numbers behind a word, where one of them isn't 0.
fn pair_text(alloc: Global, word: &str, first: u32, second: u32) -> Result<String, Fail> {
    if first == 0 && second == 0 {
        return Ok(String::new(alloc));
    }
    Ok(format!(in alloc; " {word} {first} {second}")?)
}

// The numbers of a key with points between them.
fn key_text(alloc: Global, key: &[u32]) -> Result<String, Fail> {
    let mut text = String::new(alloc);
    for number in key {
        let part = format!(in alloc; ".{number}")?;
        text.push_str(part.as_str())?;
    }
    Ok(text)
}

fn bars_text(across: bool, down: bool) -> &'static str {
    match (across, down) {
        (false, false) => "",
        (true, false) => " across",
        (false, true) => " down",
        (true, true) => " across down",
    }
}

// How a row scrolls, where it has bars, goes over or is scrolled.
fn scrolling_text(alloc: Global, entry: &Entry) -> Result<String, Fail> {
    let bars = bars_text(entry.across, entry.down);
    let over = pair_text(alloc, "over", entry.over.width, entry.over.height)?;
    let scroll = pair_text(alloc, "scroll", entry.scroll.0, entry.scroll.1)?;
    Ok(format!(in alloc; "{bars}{over}{scroll}")?)
}

// The whole of an entry: `NODE KEY REGION in CLIP view WIDTH HEIGHT` and how it scrolls.
fn entry_text(alloc: Global, entry: &Entry) -> Result<String, Fail> {
    let key = key_text(alloc, entry.key.as_slice())?;
    let region = region_text(alloc, entry.region)?;
    let clip = region_text(alloc, entry.clip)?;
    let scrolling = scrolling_text(alloc, entry)?;
    let node = entry.node.0;
    let wide = entry.viewport.width;
    let tall = entry.viewport.height;
    Ok(format!(in alloc; "{node}{key} {region} in {clip} view {wide} {tall}{scrolling}")?)
}

// The whole of a map, or the container that is undefined.
fn map_text(alloc: Global, map: &Result<LayoutMap, ComposeFault>) -> Result<String, Fail> {
    match map {
        Ok(map) => entries_text(alloc, map.entries()),
        Err(ComposeFault::Fraction { node, axis }) => {
            let node = node.0;
            Ok(format!(in alloc; "{node} {axis:?}")?)
        }
        Err(ComposeFault::NoMemory) => Err(Fail::from("no memory")),
    }
}

fn entries_text(alloc: Global, entries: &[Entry]) -> Result<String, Fail> {
    let mut text = String::new(alloc);
    for entry in entries {
        if !text.is_empty() {
            text.push_str("; ")?;
        }
        text.push_str(entry_text(alloc, entry)?.as_str())?;
    }
    Ok(text)
}

#[test]
fn scrolls_are_kept_by_node(rt: HostRuntime) -> Result<(), Fail> {
    let mut scrolls = Scrolls::new(rt.alloc());
    expect(scrolls.get(NodeId(2)).is_none(), "nothing is said")?;
    scrolls.insert(NodeId(2), (3, 4))?;
    scrolls.insert(NodeId(5), (0, 7))?;
    expect(scrolls.get(NodeId(2)).copied() == Some((3, 4)), "the first")?;
    if let Some(scroll) = scrolls.get_mut(NodeId(5)) {
        scroll.0 = 9;
    }
    expect(
        scrolls.get(NodeId(5)).copied() == Some((9, 7)),
        "a changed one",
    )
}

#[test]
fn scrolls_are_replaced_and_removed(rt: HostRuntime) -> Result<(), Fail> {
    let mut scrolls = Scrolls::new(rt.alloc());
    scrolls.insert(NodeId(2), (3, 4))?;
    scrolls.insert(NodeId(2), (1, 1))?;
    expect(
        scrolls.get(NodeId(2)).copied() == Some((1, 1)),
        "another one",
    )?;
    expect(scrolls.remove(NodeId(2)) == Some((1, 1)), "taken away")?;
    expect(scrolls.get(NodeId(2)).is_none(), "it is gone")?;
    expect(scrolls.remove(NodeId(2)).is_none(), "nothing is left")
}
