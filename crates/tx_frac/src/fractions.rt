//! Bounded fractions.

ghost use Rattle.std.specs.Prelude.{◌≡◌, ◌↔◌, ◌<◌, ◌≤ℤ◌, ◌<ℤ◌, ◌^◌, ◌*◌, ◌/◌, ◌+◌, ℤ, pos, ◌+ℤ◌, ◌*ℤ◌, neg_ℤ, unsigned_abs, IsTrue, IsSome, IfSome, not, ◌&&◌, ◌==◌};
ghost use Rattle.std.specs.Option.{SomeIff};

use crate::divisors::greatest_common_divisor;
use std::marker::Model;

/// A fraction in lowest terms: its numerator lies from -M to M and its denominator from 1 to M,
/// where M is 2^127 - 1.
#[derive(Clone, Copy, Debug, PartialEq, Eq, Hash)]
pub struct Frac {
    num: i128,
    den: u128,
}

impl Model for Frac {
    ghost use Rattle.tx_frac.specs.Ratio.{Ratio, IsBounded};

    ghost Value = { Ratio };

    ghost view = { λ f. record { num = f.num; den = f.den } };

    ghost invariant = { λ f. IsBounded (record { num = f.num; den = f.den }) };

    ghost inverse = { λ x. record { num = x.num; den = x.den } };
}

ghost use Rattle.tx_frac.specs.Ratio.{in_range, lowest, gcd, IsBounded, IsRatio, IsQuotient, sum_fits, sum_num, negated, floor_of, whole_of, add, sub, mul, div, less, is_less, widened_left, widened_right};

impl Frac {
    /// The whole number `n`.
    pub fn whole(n: i64) -> Frac
        ensures { result ≡ whole_of n }
    {
        Frac {
            num: n as i128,
            den: 1,
        }
    }

    /// `num` over `den`, brought to lowest terms.
    ///
    /// It is `None` exactly where `den` is below 1 or `num` is -2^127.
    pub fn new(num: i128, den: i128) -> Option<Frac>
        ensures defined { IsSome result ↔ ((pos 0 <ℤ den) × IsTrue (in_range num)) }
        ensures exact { IfSome result (λ x. x ≡ lowest num (unsigned_abs den)) }
        ensures value { IfSome result (IsRatio num (unsigned_abs den)) }
    {
        if den < 1 {
            return None;
        }
        let num = in_range_only(num)?;
        Some(reduced(num, den as u128))
    }

    /// The exact sum.
    ///
    /// With `a/b` and `c/d` for the two and `g` for the greatest common divisor of `b` and `d`, it
    /// is `None` exactly where `a*(d/g)`, `c*(b/g)`, the sum of these two or `b*(d/g)` lies
    /// outside -M to M.
    #[tactic(auto, unfolding(crate::specs::Ratio::add))]
    pub fn add(self, other: Frac) -> Option<Frac>
        ensures shape { IsBounded self }
        ensures other_shape { IsBounded other }
        ensures exact { result ≡ add self other }
        ensures defined { IsSome result ↔ IsTrue (sum_fits self other) }
        ensures value { IfSome result (IsRatio (sum_num self other) (self.den * other.den)) }
    {
        let common = greatest_common_divisor(self.den, other.den);
        let left = product(self.num, other.den / common)?;
        let right = product(other.num, self.den / common)?;
        let num = sum(left, right)?;
        let den = den_product(self.den, other.den / common)?;
        Some(reduced(num, den))
    }

    /// The exact difference: the sum with `other` of the opposite sign, and `None` exactly where
    /// that sum is.
    #[tactic(auto, unfolding(crate::specs::Ratio::sub))]
    pub fn sub(self, other: Frac) -> Option<Frac>
        ensures exact { result ≡ sub self other }
        ensures defined { IsSome result ↔ IsTrue (sum_fits self (negated other)) }
        ensures value { IfSome result (IsRatio (sum_num self (negated other)) (self.den * other.den)) }
    {
        let negated = Frac {
            num: -other.num,
            den: other.den,
        };
        self.add(negated)
    }

    /// The exact product.
    ///
    /// With `a/b` and `c/d` for the two, it is `None` exactly where `a*c` or `b*d` lies outside -M
    /// to M.
    #[tactic(auto, unfolding(crate::specs::Ratio::mul))]
    pub fn mul(self, other: Frac) -> Option<Frac>
        ensures shape { IsBounded self }
        ensures other_shape { IsBounded other }
        ensures exact { result ≡ mul self other }
        ensures defined { IsSome result ↔ (IsTrue (in_range (self.num *ℤ other.num)) × IsTrue (in_range (pos (self.den * other.den)))) }
        ensures value { IfSome result (IsRatio (self.num *ℤ other.num) (self.den * other.den)) }
    {
        let num = in_range_only(self.num.checked_mul(other.num)?)?;
        let den = den_product(self.den, other.den)?;
        Some(reduced(num, den))
    }

    /// The exact quotient.
    ///
    /// With `a/b` and `c/d` for the two, it is `None` exactly where `c` is 0 or `a*d` or `b*c` lies
    /// outside -M to M.
    #[tactic(auto, unfolding(crate::specs::Ratio::div))]
    pub fn div(self, other: Frac) -> Option<Frac>
        ensures shape { IsBounded self }
        ensures other_shape { IsBounded other }
        ensures exact { result ≡ div self other }
        ensures defined { IsSome result
            ↔ ((0 < unsigned_abs other.num)
            × IsTrue (in_range (self.num *ℤ pos other.den))
            × IsTrue (in_range (pos self.den *ℤ other.num))) }
        ensures value { IfSome result (IsQuotient self other) }
    {
        if other.num == 0 {
            return None;
        }
        let num = product(self.num, other.den)?;
        let den = den_product(self.den, other.num.unsigned_abs())?;
        Some(reduced(num * other.num.signum(), den))
    }

    /// Whether this fraction is below the other.
    ///
    /// With `a/b` and `c/d` for the two and `g` for the greatest common divisor of `b` and `d`, it
    /// is `None` exactly where `a*(d/g)` or `c*(b/g)` lies outside -M to M.
    #[tactic(auto, unfolding(crate::specs::Ratio::less))]
    pub fn less(self, other: Frac) -> Option<bool>
        ensures shape { IsBounded self }
        ensures other_shape { IsBounded other }
        ensures exact { result ≡ less self other }
        ensures defined { IsSome result ↔ (IsTrue (in_range (widened_left self other)) × IsTrue (in_range (widened_right self other))) }
        ensures value { IfSome result (λ b. IsTrue b ↔ ((self.num *ℤ pos other.den) <ℤ (other.num *ℤ pos self.den))) }
    {
        let common = greatest_common_divisor(self.den, other.den);
        let left = product(self.num, other.den / common)?;
        let right = product(other.num, self.den / common)?;
        Some(left < right)
    }

    /// The greatest whole number that isn't above this fraction.
    pub fn floor(self) -> i128
        ensures shape { IsBounded self }
        ensures value { result ≡ floor_of self }
        ensures below { (result *ℤ pos self.den) ≤ℤ self.num }
        ensures greatest { self.num <ℤ ((result +ℤ pos 1) *ℤ pos self.den) }
    {
        self.num.div_euclid(self.den as i128)
    }
}

// `n` where it lies from -M to M.
fn in_range_only(n: i128) -> Option<i128>
    ensures { SomeIff result (IsTrue (in_range n)) n }
{
    if n == i128::MIN { None } else { Some(n) }
}

// The sum of two numerators, where it lies from -M to M.
fn sum(left: i128, right: i128) -> Option<i128>
    ensures { SomeIff result (IsTrue (in_range (left +ℤ right))) (left +ℤ right) }
{
    in_range_only(left.checked_add(right)?)
}

// `n` times `factor`, where that lies from -M to M.
fn product(n: i128, factor: u128) -> Option<i128>
    requires small { factor < 2 ^ 127 }
    ensures { SomeIff result (IsTrue (in_range (n *ℤ pos factor))) (n *ℤ pos factor) }
{
    in_range_only(n.checked_mul(factor as i128)?)
}

// The product of two denominators, where it is at most M.
fn den_product(first: u128, second: u128) -> Option<u128>
    ensures { SomeIff result (first * second < 2 ^ 127) (first * second) }
{
    let product = first.checked_mul(second)?;
    if product < 1 << 127 {
        Some(product)
    } else {
        None
    }
}

// `num` over `den` in lowest terms.
fn reduced(num: i128, den: u128) -> Frac
    requires num_in_range { IsTrue (in_range num) }
    requires positive { 0 < den }
    requires den_in_range { den < 2 ^ 127 }
    ensures exact { result ≡ lowest num den }
    ensures value { IsRatio num den result }
{
    let common = greatest_common_divisor(num.unsigned_abs(), den);
    Frac {
        num: num / common as i128,
        den: den / common,
    }
}
