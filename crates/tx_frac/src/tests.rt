use crate::Frac;
use std::process::Abort;
use std::test::Fail;

const M: i128 = i128::MAX;

// Two to a power.
const P63: i128 = 1 << 63;

const P64: i128 = 1 << 64;

const P70: i128 = 1 << 70;

const P126: i128 = 1 << 126;

fn fraction((num, den): (i128, i128)) -> Result<Frac, Fail> {
    Ok(Frac::new(num, den).ok_or("no fraction")?)
}

fn same(rt: &impl Abort, got: Option<Frac>, want: Option<(i128, i128)>) {
    assert_eq!(rt; got, want.and_then(|(num, den)| Frac::new(num, den)));
    assert_eq!(rt; got.is_some(), want.is_some());
}

#[test]
fn makes_fractions(rt: HostRuntime) -> Result<(), Fail> {
    for (num, den, want) in [
        (6, 4, Some((3, 2))),
        (-6, 4, Some((-3, 2))),
        (0, 5, Some((0, 1))),
        (M, M, Some((1, 1))),
        (-M, 1, Some((-M, 1))),
        (1, M, Some((1, M))),
        (i128::MIN, 1, None),
        (i128::MIN, 2, None),
        (1, 0, None),
        (1, -2, None),
    ] {
        same(&rt, Frac::new(num, den), want);
    }
    assert_eq!(rt; Frac::whole(-7), fraction((-14, 2))?);
    assert_eq!(rt; Frac::whole(i64::MIN), fraction((-P63, 1))?);
    assert!(rt; fraction((1, 2))? != fraction((1, 3))?);
    Ok(())
}

#[test]
fn adds(rt: HostRuntime) -> Result<(), Fail> {
    for (left, right, want) in [
        ((1, 6), (1, 10), Some((4, 15))),
        ((1, 2), (-1, 2), Some((0, 1))),
        ((-3, 4), (1, 4), Some((-1, 2))),
        // The sum.
        ((M - 1, 1), (1, 1), Some((M, 1))),
        ((M, 1), (1, 1), None),
        ((1 - M, 1), (-1, 1), Some((-M, 1))),
        ((-M, 1), (-1, 1), None),
        // A numerator over the least common multiple.
        ((P126 - 1, 1), (1, 2), Some((M, 2))),
        ((P126, 1), (-1, 2), None),
        ((-1, 2), (P126, 1), None),
        // The least common multiple.
        (
            (1, P64 - 1),
            (1, P63),
            Some((P64 - 1 + P63, (P64 - 1) * P63)),
        ),
        ((1, P64 + 1), (1, P63), None),
        // The product of the denominators is past M, the least common multiple isn't.
        ((1, P70), (1, P70), Some((1, P70 / 2))),
    ] {
        let (left, right) = (fraction(left)?, fraction(right)?);
        same(&rt, left.add(right), want);
        same(&rt, right.add(left), want);
    }
    Ok(())
}

#[test]
fn subtracts(rt: HostRuntime) -> Result<(), Fail> {
    for (left, right, want) in [
        ((1, 2), (1, 3), Some((1, 6))),
        ((1, 3), (1, 2), Some((-1, 6))),
        ((1 - M, 1), (1, 1), Some((-M, 1))),
        ((-M, 1), (1, 1), None),
        ((M, 1), (-1, 1), None),
        ((M, 1), (M, 1), Some((0, 1))),
    ] {
        same(&rt, fraction(left)?.sub(fraction(right)?), want);
    }
    Ok(())
}

#[test]
fn multiplies(rt: HostRuntime) -> Result<(), Fail> {
    for (left, right, want) in [
        ((2, 3), (3, 4), Some((1, 2))),
        ((-2, 3), (3, 4), Some((-1, 2))),
        ((0, 1), (-5, 7), Some((0, 1))),
        ((P64, 1), (P63 - 1, 1), Some((P64 * (P63 - 1), 1))),
        ((P64, 1), (P63, 1), None),
        ((-P64, 1), (P63, 1), None),
        ((1, P64), (1, P63 - 1), Some((1, P64 * (P63 - 1)))),
        ((1, P64), (1, P63), None),
        ((P64, 3), (P63, 5), None),
    ] {
        same(&rt, fraction(left)?.mul(fraction(right)?), want);
    }
    Ok(())
}

#[test]
fn divides(rt: HostRuntime) -> Result<(), Fail> {
    for (left, right, want) in [
        ((1, 2), (3, 4), Some((2, 3))),
        ((1, 2), (-3, 4), Some((-2, 3))),
        ((-1, 2), (-3, 4), Some((2, 3))),
        ((0, 1), (-3, 4), Some((0, 1))),
        ((1, 2), (0, 1), None),
        ((P64, 1), (1, P63 - 1), Some((P64 * (P63 - 1), 1))),
        ((P64, 1), (1, P63), None),
        ((1, P64), (P63 - 1, 1), Some((1, P64 * (P63 - 1)))),
        ((1, P64), (-P63, 1), None),
    ] {
        same(&rt, fraction(left)?.div(fraction(right)?), want);
    }
    Ok(())
}

#[test]
fn compares(rt: HostRuntime) -> Result<(), Fail> {
    for (left, right, want) in [
        ((1, 3), (1, 2), Some(true)),
        ((1, 2), (1, 3), Some(false)),
        ((2, 4), (1, 2), Some(false)),
        ((-1, 2), (-1, 3), Some(true)),
        ((M - 1, M), (1, 1), Some(true)),
        ((P126 - 1, 1), (1, 2), Some(false)),
        ((P126, 1), (1, 2), None),
        ((1, 2), (-P126, 1), None),
        ((P70, 1), (P70, 3), Some(false)),
    ] {
        assert_eq!(rt; fraction(left)?.less(fraction(right)?), want);
    }
    Ok(())
}

#[test]
fn rounds_down(rt: HostRuntime) -> Result<(), Fail> {
    for (value, want) in [
        ((7, 2), 3),
        ((-7, 2), -4),
        ((-1, 3), -1),
        ((4, 2), 2),
        ((-4, 2), -2),
        ((1, M), 0),
        ((-1, M), -1),
        ((-M, 1), -M),
    ] {
        assert_eq!(rt; fraction(value)?.floor(), want);
    }
    Ok(())
}

#[test]
fn keeps_the_unit(rt: HostRuntime) {
    use crate::{Scalar, Unit};
    let half = Scalar {
        value: Frac::whole(50),
        unit: Unit::Percent,
    };
    assert_eq!(rt; half.value, Frac::whole(50));
    assert_eq!(rt; half.unit, Unit::Percent);
}
