//! The update, gathered and sent.
ghost use Rattle.std.specs.Prelude.{◌≡◌, ◌≤◌, ◌<◌, ◌+◌, ◌^◌, true, false};
ghost use Rattle.tx_io.specs.Sending.{Sends};
ghost use Rattle.tx_term.specs.Gather.{Adds, handed};
ghost use Rattle.tx_term.specs.Update.{beginning, closing, update};

mod cells;
mod gather;
mod rows;
mod writer;

use gather::Gather;
use rows::write_rows;
use tx_cell::Grid;
use tx_io::{Sent, Sink};
use writer::Writer;

/// The bytes of [`closing_bytes`].
const CLOSING: &[u8; 19] = b"\x18\x1b[0m\x1b[?25h\x1b[?1049l";

/// CAN, the default pen, the cursor and the main screen: what is sent at the end, to give the
/// terminal back. These are 19 bytes.
pub fn closing_bytes() -> &'static [u8; 19]
    ensures bytes { result.now ≡ closing }
{
    CLOSING
}

/// Sends the update that leads the terminal from the cells of `shown` to those of `next`.
///
/// The grids have one size, with sides of at most 65,535. Where all bytes are taken `shown`
/// becomes `next`, and where a put fails it stays. A whole update begins with CAN and clears the
/// screen, so it shows `next` whatever stood there before. No memory is taken.
pub fn present<K: Sink>(shown: &mut Grid, next: &Grid, whole: bool, sink: &mut K) -> Sent
    requires same_size { shown.old.size ≡ next.now.size }
    requires width { next.now.size.width ≤ 65535 }
    requires height { next.now.size.height ≤ 65535 }

    ensures sent { Sends (K.seen sink.old) (K.seen sink.new) (update shown.old next.now whole) result }
    ensures shown { result.failed ≡ false → shown.new ≡ next.now }
    ensures kept { result.failed ≡ true → shown.new ≡ shown.old }
{
    let sent = send_update(shown, next, whole, sink);
    if !sent.failed {
        shown.take_over(next);
    }
    sent
}

fn send_update<K: Sink>(shown: &Grid, next: &Grid, whole: bool, sink: &mut K) -> Sent
    requires same_size { shown.now.size ≡ next.now.size }
    requires width { next.now.size.width ≤ 65535 }
    requires height { next.now.size.height ≤ 65535 }
    ensures { Sends (K.seen sink.old) (K.seen sink.new) (update shown.now next.now whole) result }
{
    let mut writer = Writer::new();
    push_opening(&mut writer.gather, sink, whole);
    write_rows(&mut writer, sink, whole, shown, next);
    writer.gather.flush(sink);
    writer.gather.sent()
}

fn push_opening<K: Sink>(gather: &mut Gather, sink: &mut K, whole: bool)
    requires counted { handed gather.old + 64 < 2 ^ 64 }
    ensures added { Adds (K.seen sink.old) (K.seen sink.new) gather.old gather.new (beginning whole) }
    ensures bounded { handed gather.new ≤ handed gather.old + 64 }
{
    if whole {
        gather.push(sink, b"\x18\x1b[?1049h\x1b[?25l\x1b[0m\x1b[2J");
    }
}
