//! Layers by their numbers.

ghost use Rattle.std.specs.Prelude.{◌≡◌, ◌+◌, ◌≤◌, length};
ghost use Rattle.tx_look.specs.Layers.{place_from, layer_number};

use tx_text::Name;
use tx_value::Style;

// The place of a name among names, the first of which has this number.
fn place_from(first: u32, names: &[Name], name: &Name) -> u32
    requires few { first + length names.now ≤ 33 }
    ensures { result ≡ place_from first names.now name.now }
{
    match names.split_first() {
        Some((other, others)) => {
            if name == other {
                first
            } else {
                place_from(first + 1, others, name)
            }
        }
        None => 0,
    }
}

/// The number of a row's layer in its container: the place of its `layer` in the container's
/// `layers`, the first one at 1. It is 0 where no `layer` is given, or one that isn't there. A name
/// that comes again counts by its first place. It takes no memory.
pub fn layer_number(container: &Style, own: &Style) -> u32
    ensures { result ≡ layer_number container.now own.now }
{
    match own.layer() {
        Some(name) => place_from(1, container.layers(), name),
        None => 0,
    }
}
