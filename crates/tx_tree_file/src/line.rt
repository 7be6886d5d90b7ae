//! What a line of a tree file is.
ghost use Rattle.std.specs.Prelude.{◌≡◌, ◌≤◌, ◌<◌, ◌^◌, true, IfOk, length};
ghost use Rattle.tx_tree_file.specs.Indent.{blanks, past_blanks, starts_bind, may_stand};
ghost use Rattle.tx_tree_file.specs.TreeFile.{kept};
ghost use Rattle.tx_tree.specs.declared.fault.TreeFault.TheVariants.{Grammar};
ghost use Rattle.tx_tree_file.specs.TreeReading.{row_of, bind_item, row_item, item_of, first_item, GivesAt};

use crate::bind_parts::bind_of;
use crate::row_parts::{classes_of, id_of, inline_of, kind_of, private_of, text_of};
use crate::words::{as_text, flag, split_word};
use std::alloc::{AllocError, Global};
use tx_read::strip_prefix;
use tx_tree::{Bind, Binds, Kind, Names, NewRow, Private, Text, TreeFault, TreeKind};

// The blanks before a row that is one step deeper than rows may be.
const TOO_MANY_BLANKS: usize = 128;

/// A line after a row.
#[derive(Debug, Drop)]
pub enum Item {
    /// A binding of that row.
    Binding(Bind),
    /// A row at a depth, whose bindings are still to come.
    Widget(u32, NewRow),
}

/// A fault of a line.
pub fn fault(line: u32, kind: TreeKind) -> TreeFault
    ensures { result ≡ Grammar line kind }
{
    TreeFault::Grammar { line, kind }
}

// The state that a row is read with: that of its kind, but for what its line says.
fn kept(kind: &Kind, text: &Text, state: &Private) -> Private
    requires { length text.now < 2 ^ 32 }
    ensures { result ≡ kept kind.now (length text.now) state.now }
{
    match state {
        Private::On(on) => Private::On(*on),
        Private::Bar { total, .. } => Private::Bar {
            done: 0,
            total: *total,
        },
        _ => Private::fresh(*kind, text.as_str().len() as u32),
    }
}

/// The row that a line spells after its indent, without its bindings. None where it spells none.
/// The row has the private state of its kind, but for `on` and the total of a bar.
pub fn row_of(alloc: Global, bytes: &[u8]) -> Result<Option<NewRow>, AllocError>
    requires { length bytes.now < 2 ^ 32 }
    ensures { IfOk result (λ r. r ≡ row_of bytes.now) }
{
    let (word, rest) = split_word(bytes);
    let Some(kind) = kind_of(word) else {
        return Ok(None);
    };
    let Some((id, rest)) = id_of(rest) else {
        return Ok(None);
    };
    let Some((classes, rest)) = classes_of(alloc, rest)? else {
        return Ok(None);
    };
    let (disabled, rest) = flag(rest, b" disabled");
    let Some((state, rest)) = private_of(kind, rest) else {
        return Ok(None);
    };
    let Some((text, rest)) = text_of(alloc, rest)? else {
        return Ok(None);
    };
    let Some(inline) = inline_of(alloc, rest)? else {
        return Ok(None);
    };
    let private = kept(&kind, &text, &state);
    Ok(Some(NewRow {
        kind,
        id,
        classes: Names::of(classes),
        disabled,
        text,
        inline,
        binds: Binds::of(Vec::new(alloc)),
        private,
    }))
}

// How many blanks stand at the start.
fn blanks(line: &[u8]) -> usize
    ensures value { result ≡ blanks line.now }
    ensures within { result ≤ length line.now }
{
    for (i, byte) in line.iter().enumerate() {
        if *byte != b' ' {
            return i;
        }
    }
    line.len()
}

// Whether the first word is `bind`.
fn starts_bind(text: &[u8]) -> bool
    ensures { result ≡ starts_bind text.now }
{
    match strip_prefix(text, b"bind") {
        Some([]) => true,
        Some([byte, ..]) => *byte == b' ',
        None => false,
    }
}

// Whether so many blanks may stand before a line after a row of this depth.
fn may_stand(depth: u32, bind: bool, count: usize) -> bool
    requires { depth ≤ 63 }
    ensures { result ≡ may_stand depth bind count }
{
    let most = 2 * (depth as usize + 1);
    if bind {
        count == most
    } else {
        count % 2 == 0 && (2 <= count && count <= most)
    }
}

fn bind_item(text: &[u8], ended: bool, number: u32) -> Result<Item, TreeFault>
    ensures { GivesAt number (bind_item text.now ended) result }
{
    if !ended {
        return Err(fault(number, TreeKind::Expected));
    }
    match bind_of(text) {
        Some(bind) => Ok(Item::Binding(bind)),
        None => Err(fault(number, TreeKind::Expected)),
    }
}

fn row_item(
    alloc: Global,
    count: usize,
    text: &[u8],
    ended: bool,
    number: u32,
) -> Result<Item, TreeFault>
    requires few { count ≤ 128 }
    requires size { length text.now < 2 ^ 32 }
    ensures gives { GivesAt number (row_item count text.now ended) result }
{
    if count == TOO_MANY_BLANKS {
        return Err(fault(number, TreeKind::TooDeep));
    }
    if !ended {
        return Err(fault(number, TreeKind::Expected));
    }
    let Some(row) = row_of(alloc, text)? else {
        return Err(fault(number, TreeKind::Expected));
    };
    if row.kind.is_screen() {
        return Err(fault(number, TreeKind::Expected));
    }
    Ok(Item::Widget((count / 2) as u32, row))
}

/// What a line after a row of this depth is: a binding, or another row. `ended` says that a line
/// feed stands after it.
pub fn item_of(
    alloc: Global,
    depth: u32,
    line: &[u8],
    ended: bool,
    number: u32,
) -> Result<Item, TreeFault>
    requires deep { depth ≤ 63 }
    requires size { length line.now < 2 ^ 32 }
    ensures gives { GivesAt number (item_of depth line.now ended) result }
{
    let Some(_) = as_text(line) else {
        return Err(fault(number, TreeKind::BadByte));
    };
    let count = blanks(line);
    let (_, text) = line.split_at(count);
    let bind = starts_bind(text);
    if !may_stand(depth, bind, count) {
        return Err(fault(number, TreeKind::BadIndent));
    }
    if bind {
        bind_item(text, ended, number)
    } else {
        row_item(alloc, count, text, ended, number)
    }
}

/// The row of the first line, which is the Screen.
pub fn first_item(alloc: Global, line: &[u8], ended: bool) -> Result<NewRow, TreeFault>
    requires size { length line.now < 2 ^ 32 }
    ensures gives { GivesAt 1 (first_item line.now ended) result }
{
    let Some(_) = as_text(line) else {
        return Err(fault(1, TreeKind::BadByte));
    };
    let count = blanks(line);
    let (_, text) = line.split_at(count);
    if starts_bind(text) {
        return Err(fault(1, TreeKind::Expected));
    }
    if count != 0 {
        return Err(fault(1, TreeKind::BadIndent));
    }
    if !ended {
        return Err(fault(1, TreeKind::Expected));
    }
    let Some(row) = row_of(alloc, line)? else {
        return Err(fault(1, TreeKind::Expected));
    };
    if !row.kind.is_screen() {
        return Err(fault(1, TreeKind::Expected));
    }
    Ok(row)
}
