//! Tables of words.
ghost use Rattle.std.specs.Prelude.{◌≡◌, map};
ghost use Rattle.tx_read.specs.Words.{entry};

/// What a table has at a word. Of several rows of one word the first counts.
pub fn entry<T: Copy>(table: &[(&[u8], T)], word: &[u8]) -> Option<T>
    ensures { result ≡ entry (map (λ row. (row.0.now, row.1)) table.now) word.now }
{
    for row in table {
        if row.0 == word {
            return Some(row.1);
        }
    }
    None
}
