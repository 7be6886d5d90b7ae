//! The words of an error line.
ghost use Rattle.std.specs.Prelude.{◌≡◌};
ghost use Rattle.tx_app.specs.ErrorLine.{axis_bytes, kind_bytes, tree_kind_bytes, sheet_kind_bytes};

use crate::causes::Refusal;
use tx_geom::Axis;
use tx_parse::SheetKind;
use tx_tree::TreeKind;

fn tree_kind_bytes(kind: TreeKind) -> &'static [u8]
    ensures { result.now ≡ tree_kind_bytes kind }
{
    match kind {
        TreeKind::BadByte => b"BadByte",
        TreeKind::Expected => b"Expected",
        TreeKind::BadIndent => b"BadIndent",
        TreeKind::DuplicateId => b"DuplicateId",
        TreeKind::TooMany => b"TooMany",
        TreeKind::TooDeep => b"TooDeep",
        TreeKind::Leaf => b"Leaf",
    }
}

fn sheet_kind_bytes(kind: SheetKind) -> &'static [u8]
    ensures { result.now ≡ sheet_kind_bytes kind }
{
    match kind {
        SheetKind::Unclosed => b"Unclosed",
        SheetKind::BadByte => b"BadByte",
        SheetKind::NumberTooLong => b"NumberTooLong",
        SheetKind::Expected => b"Expected",
        SheetKind::UndefinedVariable => b"UndefinedVariable",
        SheetKind::ValueTooLong => b"ValueTooLong",
        SheetKind::UnknownProperty => b"UnknownProperty",
        SheetKind::UnknownPseudo => b"UnknownPseudo",
        SheetKind::BadValue => b"BadValue",
        SheetKind::TooManyRules => b"TooManyRules",
    }
}

/// The name of what is wrong with a file.
pub fn kind_bytes(kind: Refusal) -> &'static [u8]
    ensures { result.now ≡ kind_bytes kind }
{
    match kind {
        Refusal::Tree(kind) => tree_kind_bytes(kind),
        Refusal::Sheet(kind) => sheet_kind_bytes(kind),
        Refusal::Inline => b"Inline",
        Refusal::NoCustom => b"NoCustom",
        Refusal::TooLong => b"TooLong",
    }
}

pub fn axis_bytes(axis: Axis) -> &'static [u8]
    ensures { result.now ≡ axis_bytes axis }
{
    match axis {
        Axis::Width => b"width",
        Axis::Height => b"height",
    }
}
