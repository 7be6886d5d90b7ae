//! Laws about the definitions, each the contract of a function that does nothing.
ghost use Rattle.tx_term.specs.Laws.{BytesFollow, NoBytesChangeNothing, BytesKeepTheSize, UpdatesLead, WholeUpdatesLead, UpdatesWithoutMarksAreEmpty, EqualGridsSendNothing, WholeUpdatesTake, UpdatesKeepTheModes, ClosingGivesBack};

/// Bytes may be read in parts: those of the first part and then those of the second one do what
/// all of them do.
pub fn bytes_follow()
    ensures law { BytesFollow }
{}

/// A terminal that reads no bytes stays as it is.
pub fn no_bytes_change_nothing()
    ensures law { NoBytesChangeNothing }
{}

/// Whatever a terminal reads, its size stays.
pub fn bytes_keep_the_size()
    ensures law { BytesKeepTheSize }
{}

/// An update leads a terminal from the grid on which it rests to the next one, on which it rests
/// then.
///
/// The grids are well formed and of one size, with sides of at most 65,535. The terminal is in any
/// state in which it rests on the first grid: nothing is unfinished, and its grid with the held
/// cell put is that one.
pub fn updates_lead()
    ensures law { UpdatesLead }
{}

/// A whole update leads a terminal to the next grid from any state whatever.
///
/// The grids are well formed and of one size, with sides of at most 65,535, and the terminal has
/// that size.
pub fn whole_updates_lead()
    ensures law { WholeUpdatesLead }
{}

/// An update that isn't whole has no bytes exactly where it has no marks: no cell to write.
pub fn updates_without_marks_are_empty()
    ensures law { UpdatesWithoutMarksAreEmpty }
{}

/// Where a terminal shows the next grid already, an update that isn't whole has no bytes.
pub fn equal_grids_send_nothing()
    ensures law { EqualGridsSendNothing }
{}

/// After a whole update the cursor is hidden and the screen is the alternate one, whatever the
/// state was before.
pub fn whole_updates_take()
    ensures law { WholeUpdatesTake }
{}

/// An update that isn't whole leaves both modes as they are.
pub fn updates_keep_the_modes()
    ensures law { UpdatesKeepTheModes }
{}

/// After the closing bytes nothing is unfinished or held, the pen is the default one, the cursor is
/// shown and the screen is the main one, whatever the state was before.
pub fn closing_gives_back()
    ensures law { ClosingGivesBack }
{}
