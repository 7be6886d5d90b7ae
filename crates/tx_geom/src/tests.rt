ghost use Rattle.tx_geom.specs.Region.{IsNearPlace, corner};

use crate::{Axis, Colour, Offset, Region, Rgb, Size, Spacing, TextStyle, blend};

fn near_region(x: i8, y: i8, width: u8, height: u8) -> Region
    ensures { IsNearPlace (corner result) }
{
    Region {
        x: x as i64,
        y: y as i64,
        width: width as u32,
        height: height as u32,
    }
}

fn region((x, y, width, height): (i8, i8, u8, u8)) -> Region {
    near_region(x, y, width, height)
}

fn near_offset(x: i8, y: i8) -> Offset
    ensures { IsNearPlace result }
{
    Offset {
        x: x as i64,
        y: y as i64,
    }
}

#[test]
fn intersects(rt: HostRuntime) {
    for ((ax, ay, aw, ah), (bx, by, bw, bh), want) in [
        ((0, 0, 4, 4), (2, 1, 4, 4), (2, 1, 2, 3)),
        ((-3, -3, 5, 5), (0, 0, 9, 9), (0, 0, 2, 2)),
        ((0, 0, 10, 10), (3, 3, 2, 2), (3, 3, 2, 2)),
        ((3, 4, 2, 2), (9, 9, 1, 1), (3, 4, 0, 0)),
        ((0, 0, 2, 2), (2, 0, 2, 2), (0, 0, 0, 0)),
        ((1, 2, 0, 5), (0, 0, 9, 9), (1, 2, 0, 0)),
        ((5, 5, 2, 2), (0, 6, 9, 9), (5, 6, 2, 1)),
    ] {
        let both = near_region(ax, ay, aw, ah).intersect(near_region(bx, by, bw, bh));
        assert_eq!(rt; both, region(want));
    }
}

#[test]
fn shrinks(rt: HostRuntime) {
    for ((x, y, width, height), (top, right, bottom, left), want) in [
        ((0, 0, 10, 6), (1, 2, 3, 4), (4, 1, 4, 2)),
        ((-5, 0, 3, 3), (0, 2, 0, 2), (-3, 0, 0, 3)),
        ((0, 0, 4, 4), (2, 2, 2, 2), (2, 2, 0, 0)),
        ((7, 7, 1, 1), (0, 0, 0, 0), (7, 7, 1, 1)),
    ] {
        let by = Spacing {
            top,
            right,
            bottom,
            left,
        };
        assert_eq!(rt; near_region(x, y, width, height).shrink(by), region(want));
    }
}

#[test]
fn contains_its_cells(rt: HostRuntime) {
    let square = near_region(2, -1, 3, 2);
    for (x, y, want) in [
        (2, -1, true),
        (4, 0, true),
        (5, 0, false),
        (4, 1, false),
        (1, 0, false),
        (2, -2, false),
    ] {
        let at = Offset { x, y };
        assert_eq!(rt; square.contains(at), want, "at {x} {y}");
    }
}

#[test]
fn translates(rt: HostRuntime) {
    let moved = near_region(2, 3, 4, 5).translate(near_offset(-3, 10));
    assert_eq!(rt; moved, region((-1, 13, 4, 5)));
}

#[test]
fn blends(rt: HostRuntime) {
    let grey = |n: u8| Rgb { r: n, g: n, b: n };
    let half = Colour {
        rgb: grey(255),
        alpha: 50,
    };
    assert_eq!(rt; blend(half, grey(0)), grey(128));
    let blue = Colour {
        rgb: Rgb {
            r: 0x01,
            g: 0x78,
            b: 0xd4,
        },
        alpha: 60,
    };
    let want = Rgb {
        r: 0x08,
        g: 0x4f,
        b: 0x86,
    };
    assert_eq!(rt; blend(blue, grey(0x12)), want);
    let clear = Colour { alpha: 0, ..blue };
    assert_eq!(rt; blend(clear, grey(9)), grey(9));
    let solid = Colour { alpha: 100, ..blue };
    assert_eq!(rt; blend(solid, grey(9)), blue.rgb);
}

#[test]
fn sizes_and_spacings_have_two_directions(rt: HostRuntime) {
    let size = Size {
        width: 10,
        height: 3,
    };
    let by = Spacing {
        top: 1,
        right: 2,
        bottom: 4,
        left: 8,
    };
    for (axis, side, before, behind) in [(Axis::Width, 10, 8, 2), (Axis::Height, 3, 1, 4)] {
        assert_eq!(rt; size.along(axis), side);
        assert_eq!(rt; by.before(axis), before);
        assert_eq!(rt; by.behind(axis), behind);
        assert_eq!(rt; by.along(axis), before as u32 + behind as u32);
    }
    let inside = Size {
        width: 0,
        height: 0,
    };
    assert_eq!(rt; size.less(by), inside);
    let whole = Region::of(Offset { x: -1, y: 7 }, size);
    assert_eq!(rt; whole, region((-1, 7, 10, 3)));
    assert_eq!(rt; whole.size(), size);
}

#[test]
fn marks_are_joined(rt: HostRuntime) {
    let bold = TextStyle {
        bold: true,
        ..TextStyle::PLAIN
    };
    let struck = TextStyle {
        strike: true,
        ..bold
    };
    assert_eq!(rt; bold.with(struck), struck);
    assert_eq!(rt; TextStyle::PLAIN.with(TextStyle::PLAIN), TextStyle::PLAIN);
}
