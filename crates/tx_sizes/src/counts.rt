//! How many rows stand below each row.

ghost use Rattle.std.specs.Prelude.{◌≡◌, ◌≤◌, length, IfOk};
ghost use Rattle.std.specs.List.{prefix_len};
ghost use Rattle.tx_sizes.specs.Counts.{counts, is_deeper};

use crate::rows::StyledRow;
use std::alloc::Global;
use tx_text::NoMemory;

/// How many of the first rows are deeper than a depth.
pub fn count_deeper(rows: &[StyledRow<'_>], below: &[u32], depth: u32) -> u32
    requires below { below.now ≡ counts rows.now }
    requires few { length rows.now ≤ 65536 }
    ensures { result ≡ prefix_len (is_deeper depth) rows.now }
{
    let mut count: usize = 0;
    while count < rows.len() {
        if rows[count].depth() <= depth {
            return count as u32;
        }
        count += 1 + below[count] as usize;
    }
    count as u32
}

/// How many of the rows directly after each row are below it, in preorder.
pub fn counts_below(alloc: Global, rows: &[StyledRow<'_>]) -> Result<Vec<u32>, NoMemory>
    requires { length rows.now ≤ 65536 }
    ensures { IfOk result (λ below. below.items ≡ counts rows.now) }
{
    let mut below = Vec::from_elem(alloc, 0u32, rows.len())?;
    let mut at = rows.len();
    while at > 0 {
        at -= 1;
        let count = count_deeper(&rows[at + 1..], &below[at + 1..], rows[at].depth());
        below[at] = count;
    }
    Ok(below)
}
