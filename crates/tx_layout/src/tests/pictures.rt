//! The pictures of the guide to layouts: each cell has the letter of the last child that covers it.

ghost use Rattle.std.specs.Prelude.{⊤};

use crate::tests::{SCREEN, align_of, children_of, content_of, grid_of, kind_of, size_of, word_at};
use crate::{Arrangement, Ask, LayoutFault, arrange};
use std::alloc::Global;
use std::test::Fail;
use tx_expect::each_line;
use tx_geom::{Region, Size};
use tx_io::{Counted, Steps};

const LETTERS: &str = "abcdefgh";

fn is_within(at: i64, from: i64, size: u32) -> bool {
    from <= at && at < from.saturating_add(size as i64)
}

fn covers(region: Option<Region>, x: u32, y: u32) -> bool {
    match region {
        None => false,
        Some(at) => is_within(x as i64, at.x, at.width) && is_within(y as i64, at.y, at.height),
    }
}

fn letter_of(index: usize) -> char {
    match LETTERS.chars().nth(index) {
        Some(letter) => letter,
        None => '?',
    }
}

fn letter_at(regions: &[Option<Region>], x: u32, y: u32) -> char {
    let mut letter = '.';
    for (index, region) in regions.iter().enumerate() {
        if covers(*region, x, y) {
            letter = letter_of(index);
        }
    }
    letter
}

// A row of cells, and a `/` behind it.
fn push_row(text: &mut String, regions: &[Option<Region>], width: u32, y: u32) -> Result<(), Fail> {
    for x in 0..width {
        text.push(letter_at(regions, x, y))?;
    }
    text.push('/')?;
    Ok(())
}

fn picture(alloc: Global, arrangement: &Arrangement, area: Size) -> Result<String, Fail> {
    let mut text = String::new(alloc);
    for y in 0..area.height {
        push_row(&mut text, arrangement.placed.as_slice(), area.width, y)?;
    }
    Ok(text)
}

fn drawn(alloc: Global, given: &str) -> Result<String, Fail> {
    let Some((head, words)) = given.split_once(" |") else {
        return Err(Fail::from("a row without |"));
    };
    let children = children_of(alloc, words)?;
    let grid = grid_of(alloc, word_at(head, 3))?;
    let measure = |ask: Ask| -> Result<u32, LayoutFault>
        requires { ⊤ }
        ensures { ⊤ }
    { content_of(ask) };
    let area = size_of(word_at(head, 1));
    let kind = kind_of(word_at(head, 0));
    let align = align_of(word_at(head, 2));
    let mut steps = Steps {
        ledger: Counted::default(),
    };
    let arranged = arrange(
        alloc, kind, &grid, align, &children, area, SCREEN, &measure, &mut steps,
    )?;
    picture(alloc, &arranged, area)
}

// Each row has a container as in the tables, and after the arrow its rows of cells, each with a `/` behind it.
#[test]
fn pictures_are_drawn_as_in_the_guide(rt: HostRuntime) -> Result<(), Fail> {
    let alloc = rt.alloc();
    each_line(
        "vertical 20,5 left,top | w=1fr/h=1/m=0,0,2,0 w=1fr/h=1/m=1,0,0,0 => aaaaaaaaaaaaaaaaaaaa/..................../..................../bbbbbbbbbbbbbbbbbbbb/..................../\n\
         vertical 20,8 left,top | w=1fr/h=1/m=1,2,0,3 w=10/h=2/m=3,0,2,1 => ..................../...aaaaaaaaaaaaaaa../..................../..................../..................../.bbbbbbbbbb........./.bbbbbbbbbb........./..................../\n\
         vertical 12,6 left,top | h=1fr/max-h=1 h=1fr h=2 => aaaaaaaaaaaa/bbbbbbbbbbbb/bbbbbbbbbbbb/bbbbbbbbbbbb/cccccccccccc/cccccccccccc/\n\
         horizontal 20,4 left,top | w=1fr/h=50% w=1fr/h=50% w=1fr/h=50% => aaaaaabbbbbbbccccccc/aaaaaabbbbbbbccccccc/..................../..................../\n\
         horizontal 20,5 left,top | w=1fr/h=1 w=2fr/h=2 w=3/h=3/m=1,1,1,1 => aaaaabbbbbbbbbb...../.....bbbbbbbbbb.ccc./................ccc./................ccc./..................../\n\
         vertical 20,6 left,top | w=3/h=2/dock=left w=5/h=4/dock=left h=2/dock=bottom h=1fr => bbbbbddddddddddddddd/bbbbbddddddddddddddd/bbbbbddddddddddddddd/bbbbbddddddddddddddd/cccccccccccccccccccc/cccccccccccccccccccc/\n\
         vertical 20,6 left,top | h=1/dock=top w=2/dock=right/m=1,1,0,1 w=1fr => aaaaaaaaaaaaaaaaaaaa/cccccccccccccccc.bb./cccccccccccccccc.bb./cccccccccccccccc.bb./cccccccccccccccc.bb./cccccccccccccccc.bb./\n\
         vertical 20,6 center,middle | h=1/dock=top w=5/h=2 => aaaaaaaaaaaaaaaaaaaa/..................../.......bbbbb......../.......bbbbb......../..................../..................../\n\
         vertical 20,6 right,bottom | w=5/h=2 w=3/h=1 => ..................../..................../..................../...............aaaaa/...............aaaaa/...............bbb../\n\
         vertical 20,6 center,middle | w=8/h=4/layer=1 w=4/h=2/layer=2 => ..................../......aaaaaaaa....../......aabbbbaa....../......aabbbbaa....../......aaaaaaaa....../..................../\n\
         grid 12,4 left,top c=3 | span=2,1 span=2,1 span=1,1 => aaaaaaaacccc/aaaaaaaacccc/bbbbbbbb..../bbbbbbbb..../\n\
         grid 12,6 left,top c=3/h=1/v=1 | span=1,1 span=1,1 span=1,1 span=1,1 => aaa.bbb.cccc/aaa.bbb.cccc/............/ddd........./ddd........./ddd........./\n\
         grid 12,6 left,top c=3 | span=2,2 span=1,1 span=3,1 span=1,1 => aaaaaaaabbbb/aaaaaaaabbbb/aaaaaaaadddd/aaaaaaaadddd/cccccccccccc/cccccccccccc/\n\
         grid 12,4 left,top c=2 | w=50%/h=50% m=1,1,1,1 => aaa........./aaa....bbbb./.......bbbb./............/",
        |given| drawn(alloc, given),
    )
}
