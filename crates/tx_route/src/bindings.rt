//! Which binding counts.

ghost use Rattle.std.specs.Prelude.{◌≡◌};
ghost use Rattle.tx_route.specs.Bindings.{is_on, action_on};

use tx_tree::{Action, Bind, Key};

/// Whether a binding is on a key, and has priority or not.
fn is_on(bind: &Bind, key: Key, priority: bool) -> bool
    ensures { result ≡ is_on key priority bind.now }
{
    bind.key == key && bind.priority == priority
}

/// The action of the first of these bindings that is on a key, and that has priority or not, as
/// asked. None is for a key that none of these is on. It takes no memory.
#[tactic(auto, unfolding(crate::specs::Bindings::action_on))]
pub fn action_on(binds: &[Bind], key: Key, priority: bool) -> Option<Action>
    ensures { result ≡ action_on key priority binds.now }
{
    for bind in binds {
        if is_on(bind, key, priority) {
            return Some(bind.action);
        }
    }
    None
}
