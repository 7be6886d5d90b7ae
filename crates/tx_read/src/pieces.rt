ghost use Rattle.std.specs.Prelude.{◌≡◌, ◌<◌, [], ◌∷◌, length, MatchOption, IfSome, option_map};
ghost use Rattle.tx_read.specs.Pieces.{pieces, behind};

/// The bytes before the first mark and those after it. None where there is no mark.
pub fn split_once(bytes: &[u8], mark: u8) -> Option<(&[u8], &[u8])>
    ensures pieces { MatchOption result (pieces mark bytes.now ≡ bytes.now ∷ []) (λ split. pieces mark bytes.now ≡ split.0.now ∷ pieces mark split.1.now) }
    ensures shorter { IfSome result (λ split. length split.1.now < length bytes.now) }
{
    for (i, byte) in bytes.iter().enumerate() {
        if *byte == mark {
            let (piece, rest) = bytes.split_at(i);
            let (_, rest) = rest.split_at(1);
            return Some((piece, rest));
        }
    }
    None
}

/// What stands after a prefix. None where the bytes don't begin with it.
pub fn strip_prefix<'a>(bytes: &'a [u8], prefix: &[u8]) -> Option<&'a [u8]>
    ensures { option_map (λ rest. rest.now) result ≡ behind prefix.now bytes.now }
{
    bytes.strip_prefix(prefix)
}
