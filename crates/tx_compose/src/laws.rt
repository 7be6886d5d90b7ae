//! What holds of frames, and of the edits between them.

ghost use Rattle.tx_compose.specs.EditLaws.{EditsLeadOn, ResizedLeads, ScrolledLeads, TreeEditsLead};
ghost use Rattle.tx_compose.specs.FrameLaws.{FramesAreLawful, SightTellsAll};

use tx_map::laws::{nodes_have_one_entry, screen_fills};
use tx_owner::laws::{each_cell_is_owned, owners_are_of_cells, topmost_is_that};

/// Edits that lead from one tree and pseudo state to another lead where nothing else changed, the edit
/// of a row that is scrolled where nothing but its scroll changed, and the edit of a resize where
/// nothing but the size changed. Edits that lead from what a screen showed, followed by edits that
/// name all that changes afterwards, lead all the way, where no row comes back that went.
pub fn edits_lead()
    ensures tree { TreeEditsLead }
    ensures scrolled { ScrolledLeads }
    ensures resized { ResizedLeads }
    ensures on { EditsLeadOn }
{
    tx_cascade::laws::edits_lead();
}

/// The frame of every picture of a tree that is defined keeps the law of frames: an owner's region
/// holds the cell that it owns, and a row owns its spot.
pub fn frames_are_lawful()
    ensures { FramesAreLawful }
{
    topmost_is_that();
    owners_are_of_cells();
    each_cell_is_owned();
    screen_fills();
    nodes_have_one_entry();
}

/// What [`crate::Screen`] reports as a `Sight` is what its own calls report: a frame that keeps the
/// law of frames is reported whole.
pub fn sight_tells_all()
    ensures { SightTellsAll }
{}
