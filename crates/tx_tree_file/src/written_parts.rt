//! The parts of a line, each added at the end of what was written.
ghost use Rattle.std.specs.List.{list_all};
ghost use Rattle.std.specs.Str.{is_utf8, all_scalars};
ghost use Rattle.tx_tree.specs.Kind.{kind_name};
ghost use Rattle.tx_text.specs.Name.{is_name};
ghost use Rattle.tx_tree_file.specs.TreeFile.{id_is_typed, kind_is_typed, key_is_typed, action_is_typed};
ghost use Rattle.std.specs.Prelude.{◌≡◌, ◌+◌, ◌++◌, ◌∷◌, [], true, OnOk, codes, encode_utf8, flat_map};
ghost use Rattle.tx_tree.specs.declared.bind.Action.TheVariants.{ToggleClass};
ghost use Rattle.tx_tree_file.specs.Spelling.{indent, id_part, class_parts, disabled_part, private_part, escaped, text_part, inline_part, key_name, jump_name, action_name, priority_part};

use std::alloc::AllocError;
use tx_read::push_number;
use tx_tree::{Action, Jump, Key, Kind, Name, Private};

/// Two blanks for each depth.
pub fn push_indent(out: &mut Vec<u8>, depth: u32) -> Result<(), AllocError>
    ensures { OnOk result (out.new.items ≡ out.old.items ++ indent depth) }
{
    for _ in 0..depth {
        out.extend_from_slice(b"  ")?;
    }
    Ok(())
}

/// The blanks before a binding of a row of this depth: those of the next depth.
pub fn push_bind_indent(out: &mut Vec<u8>, depth: u32) -> Result<(), AllocError>
    ensures { OnOk result (out.new.items ≡ out.old.items ++ indent (depth + 1)) }
{
    push_indent(out, depth)?;
    out.extend_from_slice(b"  ")
}

/// The name of the kind.
pub fn push_kind(out: &mut Vec<u8>, kind: &Kind) -> Result<(), AllocError>
    ensures text { OnOk result (out.new.items ≡ out.old.items ++ kind_name kind.now) }
    ensures typed { OnOk result (kind_is_typed kind.now ≡ true) }
{
    match kind {
        Kind::Handed(name) => out.extend_from_slice(name.as_bytes()),
        _ => out.extend_from_slice(kind.name().as_bytes()),
    }
}

pub fn push_id(out: &mut Vec<u8>, id: &Option<Name>) -> Result<(), AllocError>
    ensures text { OnOk result (out.new.items ≡ out.old.items ++ id_part id.now) }
    ensures typed { OnOk result (id_is_typed id.now ≡ true) }
{
    match id {
        Some(id) => {
            out.extend_from_slice(b" #")?;
            out.extend_from_slice(id.as_bytes())
        }
        None => Ok(()),
    }
}

pub fn push_classes(out: &mut Vec<u8>, classes: &[Name]) -> Result<(), AllocError>
    ensures text { OnOk result (out.new.items ≡ out.old.items ++ class_parts classes.now) }
    ensures typed { OnOk result (list_all is_name classes.now ≡ true) }
{
    for class in classes {
        out.extend_from_slice(b" .")?;
        out.extend_from_slice(class.as_bytes())?;
    }
    Ok(())
}

pub fn push_disabled(out: &mut Vec<u8>, disabled: bool) -> Result<(), AllocError>
    ensures { OnOk result (out.new.items ≡ out.old.items ++ disabled_part disabled) }
{
    if disabled {
        out.extend_from_slice(b" disabled")
    } else {
        Ok(())
    }
}

/// What a tree file says of a private state.
pub fn push_private(out: &mut Vec<u8>, private: Private) -> Result<(), AllocError>
    ensures { OnOk result (out.new.items ≡ out.old.items ++ private_part private) }
{
    match private {
        Private::On(true) => out.extend_from_slice(b" on"),
        Private::Bar { total, .. } if total != 100 => {
            out.extend_from_slice(b" total ")?;
            push_number(out, total as u64)
        }
        _ => Ok(()),
    }
}

fn push_escaped(out: &mut Vec<u8>, byte: u8) -> Result<(), AllocError>
    ensures { OnOk result (out.new.items ≡ out.old.items ++ escaped byte) }
{
    match byte {
        b'"' => out.extend_from_slice(b"\\\""),
        b'\\' => out.extend_from_slice(b"\\\\"),
        b'\n' => out.extend_from_slice(b"\\n"),
        _ => {
            out.push(byte)?;
            Ok(())
        }
    }
}

fn push_all_escaped(out: &mut Vec<u8>, text: &[u8]) -> Result<(), AllocError>
    ensures { OnOk result (out.new.items ≡ out.old.items ++ flat_map escaped text.now) }
{
    for byte in text {
        push_escaped(out, *byte)?;
    }
    Ok(())
}

/// The text in quotes, where there is one.
#[tactic(auto, using(crate::proofs::Utf8Lemmas::text_utf8))]
pub fn push_text(out: &mut Vec<u8>, text: &str) -> Result<(), AllocError>
    ensures text { OnOk result (out.new.items ≡ out.old.items ++ text_part text.now) }
    ensures utf8 { is_utf8 text.now ≡ true }
{
    if text.is_empty() {
        return Ok(());
    }
    out.extend_from_slice(b" \"")?;
    push_all_escaped(out, text.as_bytes())?;
    out.extend_from_slice(b"\"")
}

/// The inline text in braces, where there is one.
#[tactic(auto, using(crate::proofs::Utf8Lemmas::text_utf8))]
pub fn push_inline(out: &mut Vec<u8>, inline: &str) -> Result<(), AllocError>
    ensures text { OnOk result (out.new.items ≡ out.old.items ++ inline_part inline.now) }
    ensures utf8 { is_utf8 inline.now ≡ true }
{
    if inline.is_empty() {
        return Ok(());
    }
    out.extend_from_slice(b" {")?;
    out.extend_from_slice(inline.as_bytes())?;
    out.extend_from_slice(b"}")
}

fn push_character(out: &mut Vec<u8>, character: char) -> Result<(), AllocError>
    ensures text { OnOk result (out.new.items ≡ out.old.items ++ encode_utf8 character) }
    ensures typed { all_scalars (character ∷ []) ≡ true }
{
    let mut buffer = [0u8; 4];
    out.extend_from_slice(character.encode_utf8(&mut buffer).as_bytes())
}

/// A key as it is written: a printable character itself, or a name.
pub fn push_key(out: &mut Vec<u8>, key: Key) -> Result<(), AllocError>
    ensures text { OnOk result (out.new.items ≡ out.old.items ++ key_name key) }
    ensures typed { OnOk result (key_is_typed key ≡ true) }
{
    match key {
        Key::Char(' ') => out.extend_from_slice(b"space"),
        Key::Char(character) => push_character(out, character),
        Key::Enter => out.extend_from_slice(b"enter"),
        Key::Escape => out.extend_from_slice(b"escape"),
        Key::Tab => out.extend_from_slice(b"tab"),
        Key::ShiftTab => out.extend_from_slice(b"shift+tab"),
        Key::Backspace => out.extend_from_slice(b"backspace"),
        Key::Delete => out.extend_from_slice(b"delete"),
        Key::Up => out.extend_from_slice(b"up"),
        Key::Down => out.extend_from_slice(b"down"),
        Key::Left => out.extend_from_slice(b"left"),
        Key::Right => out.extend_from_slice(b"right"),
        Key::Home => out.extend_from_slice(b"home"),
        Key::End => out.extend_from_slice(b"end"),
        Key::PageUp => out.extend_from_slice(b"pageup"),
        Key::PageDown => out.extend_from_slice(b"pagedown"),
        Key::Function(number) => {
            out.extend_from_slice(b"f")?;
            push_number(out, number as u64)
        }
        Key::Ctrl(letter) => {
            out.extend_from_slice(b"ctrl+")?;
            out.extend_from_slice(&[letter])
        }
    }
}

fn push_jump(out: &mut Vec<u8>, jump: Jump) -> Result<(), AllocError>
    ensures { OnOk result (out.new.items ≡ out.old.items ++ jump_name jump) }
{
    match jump {
        Jump::Up => out.extend_from_slice(b"scroll_up"),
        Jump::Down => out.extend_from_slice(b"scroll_down"),
        Jump::Home => out.extend_from_slice(b"scroll_home"),
        Jump::End => out.extend_from_slice(b"scroll_end"),
        Jump::PageUp => out.extend_from_slice(b"page_up"),
        Jump::PageDown => out.extend_from_slice(b"page_down"),
    }
}

fn push_toggle(out: &mut Vec<u8>, class: &Name) -> Result<(), AllocError>
    ensures text { OnOk result (out.new.items ≡ out.old.items ++ action_name (ToggleClass class.now)) }
    ensures typed { OnOk result (is_name class.now ≡ true) }
{
    out.extend_from_slice(b"toggle_class ")?;
    out.extend_from_slice(class.as_bytes())
}

/// An action as it is written.
pub fn push_action(out: &mut Vec<u8>, action: Action) -> Result<(), AllocError>
    ensures text { OnOk result (out.new.items ≡ out.old.items ++ action_name action) }
    ensures typed { OnOk result (action_is_typed action ≡ true) }
{
    match action {
        Action::FocusNext => out.extend_from_slice(b"focus_next"),
        Action::FocusPrevious => out.extend_from_slice(b"focus_previous"),
        Action::ToggleDark => out.extend_from_slice(b"toggle_dark"),
        Action::ToggleClass(name) => push_toggle(out, &name),
        Action::Scroll(jump) => push_jump(out, jump),
    }
}

pub fn push_priority(out: &mut Vec<u8>, priority: bool) -> Result<(), AllocError>
    ensures { OnOk result (out.new.items ≡ out.old.items ++ priority_part priority) }
{
    if priority {
        out.extend_from_slice(b"priority ")
    } else {
        Ok(())
    }
}
