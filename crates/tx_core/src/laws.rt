//! What holds of every history, as contracts of functions that do nothing.

ghost use Rattle.tx_core.specs.Laws.{ArrivalsAreNumbered, EventsFollow, PacedGoesOn};

/// Events that follow others go on from the state that those leave.
pub fn events_follow()
    ensures { EventsFollow }
{}

/// The inputs of each sender from outside are numbered 1, 2, 3 and so on.
pub fn arrivals_are_numbered()
    ensures { ArrivalsAreNumbered }
{}

/// Events that keep pace and aren't none keep it with one event more that isn't a refresh, and then,
/// exactly where all mailboxes are empty, a refresh.
pub fn paced_goes_on()
    ensures { PacedGoesOn }
{}
