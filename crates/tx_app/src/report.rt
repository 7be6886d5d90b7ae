//! The report: the error line is sent.
ghost use Rattle.std.specs.Prelude.{false, decimal};
ghost use Rattle.tx_app.specs.Report.{Says, IsReported};
ghost use Rattle.tx_app.specs.ErrorLine.{error_bytes, error_line, fraction_line, refused_line};

use crate::causes::{Cause, Refusal};
use crate::error_line::{axis_bytes, kind_bytes};
use itoa::Buffer;
use tx_geom::Axis;
use tx_io::{Sink, send_all};
use tx_tree::NodeId;

/// Sends a piece after others, unless a put of those failed. Answers whether one has failed.
fn say<E: Sink>(err: &mut E, failed: bool, piece: &[u8]) -> bool
    ensures { Says (E.seen err.old) (E.seen err.new) failed result piece.now }
{
    if failed {
        return true;
    }
    send_all(err, piece).failed
}

fn say_number<E: Sink>(err: &mut E, failed: bool, number: u32) -> bool
    ensures { Says (E.seen err.old) (E.seen err.new) failed result (decimal number) }
{
    let mut buffer = Buffer::new();
    say(err, failed, buffer.format(number).as_bytes())
}

fn say_refused<E: Sink>(err: &mut E, file: &str, line: u32, column: u32, kind: Refusal) -> bool
    ensures { Says (E.seen err.old) (E.seen err.new) false result (refused_line file.now line column kind) }
{
    let failed = say(err, false, b"tx: ");
    let failed = say(err, failed, file.as_bytes());
    let failed = say(err, failed, b":");
    let failed = say_number(err, failed, line);
    let failed = say(err, failed, b":");
    let failed = say_number(err, failed, column);
    let failed = say(err, failed, b": ");
    let failed = say(err, failed, kind_bytes(kind));
    say(err, failed, b"\n")
}

fn say_fraction<E: Sink>(err: &mut E, node: NodeId, axis: Axis) -> bool
    ensures { Says (E.seen err.old) (E.seen err.new) false result (fraction_line node axis) }
{
    let failed = say(err, false, b"tx: fraction at node ");
    let failed = say_number(err, failed, node.0);
    let failed = say(err, failed, b" ");
    let failed = say(err, failed, axis_bytes(axis));
    say(err, failed, b"\n")
}

fn say_cause<E: Sink>(err: &mut E, cause: &Cause) -> bool
    ensures { Says (E.seen err.old) (E.seen err.new) false result (error_line cause.now) }
{
    match cause {
        Cause::Usage => say(err, false, b"tx: usage\n"),
        Cause::Refused {
            file,
            line,
            column,
            kind,
        } => say_refused(err, file.as_str(), *line, *column, *kind),
        Cause::ReadFault { .. } => say(err, false, b"tx: read fault\n"),
        Cause::Fraction { node, axis } => say_fraction(err, *node, *axis),
        Cause::SinkFault { .. } => say(err, false, b"tx: sink fault\n"),
        Cause::NoMemory => say(err, false, b"tx: no memory\n"),
    }
}

/// Sends the line that says the cause, or nothing. What the sink takes of it changes nothing else.
pub fn report<E: Sink>(err: &mut E, cause: &Option<Cause>)
    ensures { IsReported (E.seen err.old) (E.seen err.new) (error_bytes cause.now) }
{
    match cause {
        Some(cause) => {
            let _failed = say_cause(err, cause);
        }
        None => {}
    }
}
