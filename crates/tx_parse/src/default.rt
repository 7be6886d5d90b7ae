//! The default sheet.

/// The text of the default sheet, which stands below every other.
pub const DEFAULT_SHEET: &[u8] = b"\
Screen { layout: vertical; overflow: auto; background: $background; color: $foreground; }
Container { width: 1fr; height: 1fr; }
Vertical { width: 1fr; height: 1fr; }
Horizontal { width: 1fr; height: 1fr; layout: horizontal; }
Grid { width: 1fr; height: 1fr; layout: grid; }
VerticalScroll { width: 1fr; height: 1fr; overflow: hidden auto; }
Static { width: 1fr; height: auto; }
Label { width: auto; }
Button { width: auto; min-width: 16; height: 3; background: $surface; color: $text; content-align: center middle; }
Button:focus { text-style: reverse; }
Checkbox { width: auto; height: 1; }
Checkbox:focus { text-style: reverse; }
Input { width: 1fr; height: 3; border: solid $panel; }
Input:focus { border: solid $primary; }
OptionList { width: 1fr; height: auto; max-height: 100%; }
ProgressBar { width: 32; height: 1; }
Header { dock: top; width: 1fr; height: 1; background: $primary; color: $text; content-align: center middle; }
Footer { dock: bottom; width: 1fr; height: 1; background: $panel; color: $text; }
Custom { width: auto; height: auto; }
";
