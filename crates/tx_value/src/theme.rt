//! The colours that a theme gives.
ghost use Rattle.std.specs.Prelude.{◌≡◌};
ghost use Rattle.tx_value.specs.ColourTables.{tones_of};
ghost use Rattle.tx_value.specs.Theme.{theme_name_of, theme_colour};

use crate::tables::rgb;
use tx_geom::Rgb;
use tx_read::entry;

/// A variable that is defined before the first line of a stylesheet.
#[derive(Clone, Copy, Debug, PartialEq, Eq)]
pub enum ThemeName {
    Background,
    Surface,
    Panel,
    Primary,
    Secondary,
    Foreground,
    Text,
    Error,
    Success,
    Warning,
}

// The names of the variables, without the `$`.
pub const THEME_NAMES: [(&[u8], ThemeName); 10] = [
    (b"background", ThemeName::Background),
    (b"surface", ThemeName::Surface),
    (b"panel", ThemeName::Panel),
    (b"primary", ThemeName::Primary),
    (b"secondary", ThemeName::Secondary),
    (b"foreground", ThemeName::Foreground),
    (b"text", ThemeName::Text),
    (b"error", ThemeName::Error),
    (b"success", ThemeName::Success),
    (b"warning", ThemeName::Warning),
];

// A colour in the dark theme and in the light one.
#[derive(Clone, Copy, Debug, PartialEq, Eq)]
pub struct Tones {
    pub dark: Rgb,
    pub light: Rgb,
}

pub const BACKGROUND: Tones = Tones {
    dark: rgb!(0x12, 0x12, 0x12),
    light: rgb!(0xe0, 0xe0, 0xe0),
};

pub const SURFACE: Tones = Tones {
    dark: rgb!(0x1e, 0x1e, 0x1e),
    light: rgb!(0xd8, 0xd8, 0xd8),
};

pub const PANEL: Tones = Tones {
    dark: rgb!(0x24, 0x2f, 0x38),
    light: rgb!(0xd0, 0xd0, 0xd0),
};

pub const PRIMARY: Tones = Tones {
    dark: rgb!(0x01, 0x78, 0xd4),
    light: rgb!(0x00, 0x45, 0x78),
};

pub const SECONDARY: Tones = Tones {
    dark: rgb!(0x00, 0x45, 0x78),
    light: rgb!(0x01, 0x78, 0xd4),
};

pub const FOREGROUND: Tones = Tones {
    dark: rgb!(0xe0, 0xe0, 0xe0),
    light: rgb!(0x1f, 0x1f, 0x1f),
};

pub const TEXT: Tones = Tones {
    dark: rgb!(0xff, 0xff, 0xff),
    light: rgb!(0x00, 0x00, 0x00),
};

pub const ERROR: Tones = Tones {
    dark: rgb!(0xba, 0x3c, 0x5b),
    light: rgb!(0xba, 0x3c, 0x5b),
};

pub const SUCCESS: Tones = Tones {
    dark: rgb!(0x4e, 0xbf, 0x71),
    light: rgb!(0x2e, 0x7f, 0x41),
};

pub const WARNING: Tones = Tones {
    dark: rgb!(0xff, 0xa6, 0x2b),
    light: rgb!(0x9f, 0x60, 0x00),
};

/// The predefined variable of this name, which is written without the `$`. None exactly where no
/// variable of this name is predefined.
#[tactic(auto, unfolding(crate::specs::Theme::theme_name_of))]
pub fn theme_name_of(name: &[u8]) -> Option<ThemeName>
    ensures { result ≡ theme_name_of name.now }
{
    entry(&THEME_NAMES, name)
}

/// The colour of a predefined variable in the dark theme, or in the light one.
pub fn theme_colour(name: ThemeName, dark: bool) -> Rgb
    ensures { result ≡ theme_colour name dark }
{
    let tones = tones_of(name);
    if dark { tones.dark } else { tones.light }
}

fn tones_of(name: ThemeName) -> Tones
    ensures { result ≡ tones_of name }
{
    match name {
        ThemeName::Background => BACKGROUND,
        ThemeName::Surface => SURFACE,
        ThemeName::Panel => PANEL,
        ThemeName::Primary => PRIMARY,
        ThemeName::Secondary => SECONDARY,
        ThemeName::Foreground => FOREGROUND,
        ThemeName::Text => TEXT,
        ThemeName::Error => ERROR,
        ThemeName::Success => SUCCESS,
        ThemeName::Warning => WARNING,
    }
}
