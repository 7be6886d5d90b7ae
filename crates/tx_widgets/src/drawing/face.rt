//! What a widget is drawn from.

use tx_cell::Pen;
use tx_geom::{AlignX, AlignY, Size};
use tx_tree::{Kind, Private, Text};

/// What a widget is drawn from: its kind, its text of fewer than 2^32 bytes, its private state,
/// whether it has the focus, the size of its content, how its content and its text are aligned,
/// and its pen.
#[derive(Clone, Copy)]
pub struct Face<'a> {
    pub kind: Kind,
    pub text: &'a Text,
    pub private: Private,
    pub focused: bool,
    pub content: Size,
    pub align: (AlignX, AlignY),
    pub text_align: AlignX,
    pub pen: Pen,
}
