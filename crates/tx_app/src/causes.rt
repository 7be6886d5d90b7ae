//! Why a run didn't end with status 0.
ghost use Rattle.std.specs.Prelude.{◌≡◌};
ghost use Rattle.tx_app.specs.Causes.{sink_cause, status_of};
ghost use Rattle.tx_app.specs.Openings.{ComesTo, Stops};
ghost use Rattle.tx_app.specs.declared.causes.Cause.TheVariants.{Refused};

use std::alloc::Global;
use tx_geom::Axis;
use tx_parse::SheetKind;
use tx_text::Text;
use tx_tree::{NodeId, TreeKind};

/// Why a run didn't end with status 0.
#[derive(Debug, Drop)]
pub enum Cause {
    /// The words ask for nothing that there is.
    Usage,
    /// A file is at fault. The line counts from 1, and 0 with column 0 is the whole file.
    Refused {
        file: Text,
        line: u32,
        column: u32,
        kind: Refusal,
    },
    /// A load failed.
    ReadFault {
        /// How many calls on the files failed.
        rose: u64,
    },
    /// The picture is undefined: the arrangement of this container would need a fraction of more
    /// than 128 bits, in this direction.
    Fraction {
        node: NodeId,
        axis: Axis,
    },
    /// A put failed.
    SinkFault {
        /// How many puts of the last refresh and of the closing bytes failed, or of the printed line.
        rose: u64,
    },
    NoMemory,
}

/// Why a file is refused.
#[derive(Clone, Copy, Debug, PartialEq, Eq)]
pub enum Refusal {
    /// The line is the first one of the tree file that breaks a rule of its grammar.
    Tree(TreeKind),
    /// The place is that of the sheet's first fault.
    Sheet(SheetKind),
    /// The inline text of the row in this line is outside the grammar.
    Inline,
    /// The row in this line is of a kind that was to be handed in.
    NoCustom,
    /// The file is longer than 4 MiB.
    TooLong,
}

/// A file that is refused, at a line.
pub fn refused(alloc: Global, file: &str, line: u32, column: u32, kind: Refusal) -> Cause
    ensures { ComesTo (Stops (Refused file.now line column kind)) (Stops result) }
{
    match Text::of(alloc, file) {
        Ok(file) => Cause::Refused {
            file,
            line,
            column,
            kind,
        },
        Err(_) => Cause::NoMemory,
    }
}

/// The cause of a run that so many puts of the last bytes failed in.
pub fn sink_cause(rose: u64) -> Option<Cause>
    ensures { result ≡ sink_cause rose }
{
    if rose == 0 {
        None
    } else {
        Some(Cause::SinkFault { rose })
    }
}

pub fn status_of(cause: &Option<Cause>) -> u8
    ensures { result ≡ status_of cause.now }
{
    match cause {
        None => 0,
        Some(Cause::Usage) => 1,
        Some(Cause::Refused { .. }) => 2,
        Some(Cause::ReadFault { .. }) => 3,
        Some(Cause::Fraction { .. }) => 4,
        Some(Cause::SinkFault { .. }) => 5,
        Some(Cause::NoMemory) => 6,
    }
}
