//! Colours, and how one is laid over another.

ghost use Rattle.std.specs.Prelude.{◌≡◌, ◌≤◌};

use std::marker::Model;

/// A colour by its red, green and blue channels, each from 0 to 255.
#[derive(Clone, Copy, Debug, Default, PartialEq, Eq, Hash)]
pub struct Rgb {
    pub r: u8,
    pub g: u8,
    pub b: u8,
}

/// A colour that may let what lies under it shine through.
///
/// `alpha` is the percentage, from 0 to 100, in which it covers what lies under it.
#[derive(Clone, Copy, Debug, PartialEq, Eq, Hash)]
pub struct Colour {
    pub rgb: Rgb,
    pub alpha: u8,
}

impl Model for Colour {
    ghost use Rattle.std.specs.Prelude.{◌≤◌};
    ghost use Rattle.tx_geom.specs.Colour.{Tint};

    ghost Value = { Tint };

    ghost view = { λ c. record { rgb = c.rgb; alpha = c.alpha } };

    ghost invariant = { λ c. c.alpha ≤ 100 };

    ghost inverse = { λ t. record { rgb = t.rgb; alpha = t.alpha } };
}

ghost use Rattle.tx_geom.specs.Colour.{blended, blended_channel};

/// The colour that shows where `over` lies over `under`.
///
/// In each channel it is `(over * alpha + under * (100 - alpha) + 50) / 100`, rounded down.
pub fn blend(over: Colour, under: Rgb) -> Rgb
    ensures { result ≡ blended over under }
{
    Rgb {
        r: blend_channel(over.alpha, over.rgb.r, under.r),
        g: blend_channel(over.alpha, over.rgb.g, under.g),
        b: blend_channel(over.alpha, over.rgb.b, under.b),
    }
}

fn blend_channel(alpha: u8, over: u8, under: u8) -> u8
    requires { alpha ≤ 100 }
    ensures { result ≡ blended_channel alpha over under }
{
    let (alpha, over, under) = (alpha as u32, over as u32, under as u32);
    ((over * alpha + under * (100 - alpha) + 50) / 100) as u8
}
