ghost use Rattle.std.specs.Prelude.{◌≡◌, ◌+◌, ◌<◌, ◌≤◌, ◌≤ℤ◌, pos, length, All, IfOk, IfSome};
ghost use Rattle.tx_box.specs.Item.{IsSized, IsLimit, NotNegative};

use crate::{Basis, Item, LayoutFault, Span, box_of, resolve_axis};
use std::alloc::Global;
use std::test::Fail;
use tx_frac::{Frac, Scalar, Unit};
use tx_geom::{Axis, BoxSizing, Size};

const AREA: Basis = Basis {
    area: Size {
        width: 10,
        height: 7,
    },
    screen: Size {
        width: 80,
        height: 24,
    },
};

fn fraction(num: i128, den: i128) -> Option<Frac>
    requires { pos 0 ≤ℤ num }
    ensures { IfSome result NotNegative }
{
    Frac::new(num, den)
}

fn scalar(n: u32, unit: Unit) -> Scalar
    ensures unit { result.unit ≡ unit }
    ensures value { NotNegative result.value }
{
    Scalar {
        value: Frac::whole(n as i64),
        unit,
    }
}

fn cells(n: u32) -> Scalar
    ensures { IsLimit result }
{
    scalar(n, Unit::Cells)
}

fn item(size: Scalar) -> Item
    requires { NotNegative size.value }
    ensures { IsSized result }
{
    Item {
        size,
        least: None,
        most: None,
        gutter: 0,
        sizing: BoxSizing::BorderBox,
        margin: 0,
        auto: 0,
    }
}

fn share(n: u32) -> Item
    ensures { IsSized result }
{
    item(scalar(n, Unit::Fr))
}

fn limited(n: u32, unit: Unit, least: Option<u32>, most: Option<u32>) -> Item
    ensures { IsSized result }
{
    let mut limited = item(scalar(n, unit));
    if let Some(least) = least {
        limited.least = Some(cells(least));
    }
    if let Some(most) = most {
        limited.most = Some(cells(most));
    }
    limited
}

const OWN: Size = Size {
    width: 10,
    height: 4,
};

// The spans of items without gaps over a width, as pairs of their ends.
fn spans(alloc: Global, width: u32, items: &[Item]) -> Result<Vec<(i64, i64)>, Fail>
    requires sized { All IsSized items.now }
    requires count { length items.now ≤ 100 }
{
    let gaps = vec![in alloc; 0u32; items.len() + 1]?;
    let own = vec![in alloc; OWN; items.len()]?;
    ends(alloc, width, items, &gaps, &own)
}

fn ends(
    alloc: Global,
    width: u32,
    items: &[Item],
    gaps: &[u32],
    own: &[Size],
) -> Result<Vec<(i64, i64)>, Fail>
    requires sized { All IsSized items.now }
    requires count { length items.now ≤ 100000 }
    requires gaps { length gaps.now ≡ length items.now + 1 }
    requires own { length own.now ≡ length items.now }
{
    let basis = Basis {
        area: Size { width, ..AREA.area },
        ..AREA
    };
    let spans = resolve_axis(alloc, items, gaps, Axis::Width, basis, own)?;
    let mut ends = Vec::with_capacity(alloc, spans.len())?;
    for span in &spans {
        ends.push((span.from, span.to))?;
    }
    Ok(ends)
}

#[test]
fn shares_the_room(rt: HostRuntime) -> Result<(), Fail> {
    let alloc = rt.alloc();
    let three = spans(alloc, 10, &[share(1), share(1), share(1)])?;
    assert_eq!(rt; three.as_slice(), [(0, 3), (3, 6), (6, 10)].as_slice());

    let least = spans(
        alloc,
        10,
        &[limited(1, Unit::Fr, Some(6), None), share(1), share(1)],
    )?;
    assert_eq!(rt; least.as_slice(), [(0, 6), (6, 8), (8, 10)].as_slice());

    // The unit 10/3 settles two at 6 and 1, and the third gets the 3 that are left.
    let both = spans(
        alloc,
        10,
        &[
            limited(1, Unit::Fr, Some(6), None),
            limited(1, Unit::Fr, None, Some(1)),
            share(1),
        ],
    )?;
    assert_eq!(rt; both.as_slice(), [(0, 6), (6, 7), (7, 10)].as_slice());

    let weighted = spans(alloc, 10, &[share(1), item(cells(3)), share(2)])?;
    assert_eq!(rt; weighted.as_slice(), [(0, 2), (2, 5), (5, 10)].as_slice());

    let none = spans(alloc, 10, &[])?;
    assert!(rt; none.is_empty());
    Ok(())
}

#[test]
fn shares_nothing(rt: HostRuntime) -> Result<(), Fail> {
    let alloc = rt.alloc();
    let zero = spans(alloc, 10, &[share(0), limited(0, Unit::Fr, Some(2), None)])?;
    assert_eq!(rt; zero.as_slice(), [(0, 0), (0, 2)].as_slice());

    let too_wide = spans(alloc, 5, &[item(cells(8)), share(1)])?;
    assert_eq!(rt; too_wide.as_slice(), [(0, 8), (8, 8)].as_slice());

    // The maximum 3 gives way to the minimum 4, and 65,535 is the greatest size.
    let limits = spans(
        alloc,
        10,
        &[
            limited(5, Unit::Cells, Some(4), Some(3)),
            item(cells(70_000)),
        ],
    )?;
    assert_eq!(rt; limits.as_slice(), [(0, 4), (4, 65_539)].as_slice());

    let wide = spans(alloc, 70_000, &[share(1)])?;
    assert_eq!(rt; wide.as_slice(), [(0, 65_535)].as_slice());
    Ok(())
}

#[test]
fn takes_percentages(rt: HostRuntime) -> Result<(), Fail> {
    let alloc = rt.alloc();
    let third = Scalar {
        value: fraction(333, 10).ok_or("no fraction")?,
        unit: Unit::Percent,
    };
    let two = [item(third), item(third)];
    let two = spans(alloc, 10, &two)?;
    assert_eq!(rt; two.as_slice(), [(0, 3), (3, 6)].as_slice());

    // Of a base of 10 by 4 and a screen of 80 by 24.
    let sides = spans(
        alloc,
        10,
        &[
            item(scalar(50, Unit::W)),
            item(scalar(50, Unit::H)),
            item(scalar(50, Unit::Vw)),
            item(scalar(50, Unit::Vh)),
        ],
    )?;
    assert_eq!(rt;
        sides.as_slice(),
        [(0, 5), (5, 7), (7, 47), (47, 59)].as_slice()
    );

    // Three times 2.5 cells.
    let half = Scalar {
        value: fraction(5, 2).ok_or("no fraction")?,
        unit: Unit::Cells,
    };
    let halves = spans(alloc, 10, &[item(half), item(half), item(half)])?;
    assert_eq!(rt; halves.as_slice(), [(0, 2), (2, 5), (5, 7)].as_slice());
    Ok(())
}

#[test]
fn stands_behind_gaps(rt: HostRuntime) -> Result<(), Fail> {
    let alloc = rt.alloc();
    let fixed = ends(
        alloc,
        20,
        &[item(cells(3)), item(cells(3))],
        &[1, 2, 4],
        &[OWN, OWN],
    )?;
    assert_eq!(rt; fixed.as_slice(), [(1, 4), (6, 9)].as_slice());

    // 20 less the gaps 1, 2 and 4 leave 13 for the two.
    let grown = ends(alloc, 20, &[share(1), share(1)], &[1, 2, 4], &[OWN, OWN])?;
    assert_eq!(rt; grown.as_slice(), [(1, 7), (9, 16)].as_slice());
    Ok(())
}

// The greatest number of 9 whole digits and 3 decimals, less so many thousandths.
fn ordinary(less: u32, unit: Unit) -> Option<Scalar>
    ensures unit { IfSome result (λ s. s.unit ≡ unit) }
    ensures value { IfSome result (λ s. NotNegative s.value) }
{
    let value = fraction(999_999_999_999 - less as i128, 1000)?;
    Some(Scalar { value, unit })
}

// So many shares of nearly the same size. Every third one is kept below its share.
fn ordinary_shares(alloc: Global, count: usize) -> Result<Vec<Item>, Fail>
    requires { count ≤ 100000 }
    ensures sized { IfOk result (λ items. All IsSized items.items) }
    ensures count { IfOk result (λ items. length items.items ≡ count) }
{
    let most = Scalar {
        value: fraction(1, 1000).ok_or("no fraction")?,
        unit: Unit::Percent,
    };
    let mut items = Vec::with_capacity(alloc, count)?;
    for index in 0..count {
        let Some(share) = ordinary_share((index % 997) as u32, most) else {
            return Err("no fraction".into());
        };
        items.push(share)?;
    }
    Ok(items)
}

fn ordinary_share(number: u32, most: Scalar) -> Option<Item>
    requires number { number < 1000 }
    requires most { IsLimit most }
    ensures { IfSome result IsSized }
{
    let mut share = item(ordinary(number, Unit::Fr)?);
    if number % 3 == 0 {
        share.most = Some(most);
    }
    Some(share)
}

const WIDE: Size = Size {
    width: 8_388_608,
    height: 8_388_608,
};

const WIDEST: Basis = Basis {
    area: WIDE,
    screen: WIDE,
};

// The places between the spans are fractions whose denominators have up to 20 digits, and the last
// end is the whole width.
#[test]
fn shares_a_width_between_100_000(rt: HostRuntime) -> Result<(), Fail> {
    let alloc = rt.alloc();
    let items = ordinary_shares(alloc, 100_000)?;
    let gaps = vec![in alloc; 0u32; 100_001]?;
    let base = Size {
        width: 8_388_607,
        ..WIDE
    };
    let own = vec![in alloc; base; 100_000]?;
    let spans = resolve_axis(alloc, &items, &gaps, Axis::Width, WIDEST, &own)?;
    assert_eq!(rt; spans.len(), 100_000);
    if let Some(last) = spans.last() {
        assert_eq!(rt; last.to, 8_388_608);
    }
    Ok(())
}

#[test]
fn lays_out_the_largest_ordinary_numbers(rt: HostRuntime) -> Result<(), Fail> {
    let largest = Item {
        least: ordinary(0, Unit::Percent),
        most: ordinary(0, Unit::Vh),
        gutter: u32::MAX,
        sizing: BoxSizing::ContentBox,
        auto: u32::MAX,
        ..item(ordinary(0, Unit::W).ok_or("no fraction")?)
    };
    assert_eq!(rt; box_of(&largest, Axis::Height, WIDEST, WIDE)?, 65_535);
    let gaps = [u32::MAX, u32::MAX, u32::MAX];
    let share = item(ordinary(0, Unit::Fr).ok_or("no fraction")?);
    let spans = resolve_axis(
        rt.alloc(),
        &[largest, share],
        &gaps,
        Axis::Width,
        WIDEST,
        &[WIDE, WIDE],
    )?;
    let want = [
        Span {
            from: 4_294_967_295,
            to: 4_295_032_830,
        },
        Span {
            from: 8_590_000_125,
            to: 8_590_000_125,
        },
    ];
    assert_eq!(rt; spans.as_slice(), want.as_slice());
    Ok(())
}

#[test]
fn refuses_a_fraction_past_128_bits(rt: HostRuntime) -> Result<(), Fail> {
    let ten_to_18: i128 = 1_000_000_000_000_000_000;
    let third = Scalar {
        value: fraction(33_333_333_333_333_333_333, ten_to_18).ok_or("no fraction")?,
        unit: Unit::Percent,
    };
    let large = Scalar {
        value: fraction(999_999_999_999_999_999_999_999_999, ten_to_18).ok_or("no fraction")?,
        unit: Unit::Fr,
    };
    // What a third leaves of 100 can't be divided by the share.
    let left = Frac::whole(100).sub(third.value).ok_or("no fraction")?;
    assert!(rt; left.div(large.value).is_none());
    let own = Size {
        width: 100,
        height: 1,
    };
    let basis = Basis { area: own, ..AREA };
    let items = [item(third), item(large)];
    let spans = resolve_axis(
        rt.alloc(),
        &items,
        &[0, 0, 0],
        Axis::Width,
        basis,
        &[own, own],
    );
    assert!(rt; spans.is_err());
    if let Err(fault) = spans {
        assert_eq!(rt; fault, LayoutFault::Fraction { axis: Axis::Width });
    }
    let items = [item(third), share(1)];
    let spans = resolve_axis(
        rt.alloc(),
        &items,
        &[0, 0, 0],
        Axis::Width,
        basis,
        &[own, own],
    )?;
    let want = [Span { from: 0, to: 33 }, Span { from: 33, to: 100 }];
    assert_eq!(rt; spans.as_slice(), want.as_slice());
    Ok(())
}

#[test]
fn sizes_one_box(rt: HostRuntime) -> Result<(), Fail> {
    let content = Item {
        gutter: 2,
        sizing: BoxSizing::ContentBox,
        auto: 4,
        ..item(cells(5))
    };
    let border = Item {
        sizing: BoxSizing::BorderBox,
        ..content
    };
    let auto = Item {
        size: scalar(0, Unit::Auto),
        ..content
    };
    let most = Item {
        most: Some(cells(3)),
        ..content
    };
    let third = Scalar {
        value: fraction(333, 10).ok_or("no fraction")?,
        unit: Unit::Percent,
    };
    for (item, axis, want) in [
        (content, Axis::Width, 7),
        (border, Axis::Width, 5),
        (auto, Axis::Width, 6),
        (most, Axis::Width, 5),
        (share(1), Axis::Width, 10),
        (share(1), Axis::Height, 4),
        (item(third), Axis::Width, 3),
        (item(cells(70_000)), Axis::Height, 65_535),
        (limited(9, Unit::Cells, Some(4), Some(3)), Axis::Height, 4),
    ] {
        assert_eq!(rt; box_of(&item, axis, AREA, OWN)?, want);
    }
    Ok(())
}
