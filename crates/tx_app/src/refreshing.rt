//! The refresh of what is shown first.

ghost use Rattle.std.specs.Prelude.{◌≡◌, ◌*◌, [], ◌∷◌, false, length};
ghost use Rattle.tx_cascade.specs.Reaching.{selectors_in};
ghost use Rattle.tx_compose.specs.Presented.{IsScreen, composed};
ghost use Rattle.tx_compose.specs.Ticks.{RefreshTicks};
ghost use Rattle.tx_map.specs.Faults.{told};
ghost use Rattle.tx_picture.specs.Given.{AreBuiltIn};
ghost use Rattle.tx_read.specs.Answer.{Gives};
ghost use Rattle.tx_app.specs.Course.{Updates};
ghost use Rattle.tx_app.specs.FirstShown.{at_first, first_shown};
ghost use Rattle.tx_app.specs.Journal.{act_entries};
ghost use Rattle.tx_app.specs.Refreshing.{Refreshes};
ghost use Rattle.tx_app.specs.Ticks.{EntryTicks};

use crate::journal::{Entry, Refreshed};
use std::alloc::Global;
use tx_cell::Grid;
use tx_compose::{ComposeFault, Present, Screen, Scrolls};
use tx_geom::Size;
use tx_io::{Ledger, Sent, Sink, Steps};
use tx_opening::opening_state;
use tx_term::present;
use tx_tree::Tree;

fn entry_of(sent: Sent) -> Entry
    ensures { result ∷ [] ≡ act_entries (Updates [] sent) }
{
    if sent.failed {
        Entry::Refresh {
            result: Refreshed::SinkFault,
            sent: sent.taken,
            faults: 1,
        }
    } else {
        Entry::Refresh {
            result: Refreshed::Accepted,
            sent: sent.taken,
            faults: 0,
        }
    }
}

// Makes the picture of a tree in the state of opening, on a screen that nothing was shown on.
fn compose<L: Ledger>(
    alloc: Global,
    screen: &mut Screen,
    tree: &Tree,
    size: Size,
    steps: &mut Steps<L>,
) -> Result<(), ComposeFault>
    requires limits { IsScreen size }
    requires built_in { AreBuiltIn tree.now.rows }
    requires fresh { screen.old.goes_on ≡ false }
    ensures exact { Gives (λ _. screen.new.grid) told result (composed (first_shown tree.now.rows screen.old.sheet size)) }
    ensures ticks { RefreshTicks L.ticked (selectors_in screen.old.sheet * length tree.now.rows) (4 * length tree.now.rows) size result steps.old.ledger steps.new.ledger }
{
    let pseudo = opening_state(tree);
    let scrolls = Scrolls::new(alloc);
    let shown = Present {
        tree,
        pseudo: &pseudo,
        scrolls: &scrolls,
        size,
    };
    screen.refresh(&shown, &[], steps)
}

/// Makes the picture of a tree in the state of opening, and sends its update, which is whole.
pub fn refresh<K: Sink, L: Ledger>(
    alloc: Global,
    screen: &mut Screen,
    tree: &Tree,
    shown: &mut Grid,
    out: &mut K,
    steps: &mut Steps<L>,
) -> Entry
    requires limits { IsScreen shown.old.size }
    requires built_in { AreBuiltIn tree.now.rows }
    requires fresh { screen.old.goes_on ≡ false }
    requires blank { shown.old ≡ at_first shown.old.size }
    ensures refreshes { Refreshes (K.seen out.old) (K.seen out.new) (first_shown tree.now.rows screen.old.sheet shown.old.size) result }
    ensures ticks { EntryTicks L.ticked (first_shown tree.now.rows screen.old.sheet shown.old.size) result steps.old.ledger steps.new.ledger }
{
    match compose(alloc, screen, tree, shown.size(), steps) {
        Ok(()) => {
            let next = screen.next();
            let _size = next.size();
            entry_of(present(shown, next, true, out))
        }
        Err(ComposeFault::Fraction { node, axis }) => Entry::Refresh {
            result: Refreshed::Fraction { node, axis },
            sent: 0,
            faults: 0,
        },
        Err(ComposeFault::NoMemory) => Entry::Refresh {
            result: Refreshed::NoMemory,
            sent: 0,
            faults: 0,
        },
    }
}
