//! Greatest common divisors.

ghost use Rattle.std.specs.Prelude.{◌≡◌, ◌<◌, ◌≤◌};
ghost use Rattle.tx_frac.specs.Ratio.{gcd};

/// The greatest common divisor of `first` and `second`, by Euclid's algorithm.
pub fn greatest_common_divisor(first: u128, second: u128) -> u128
    requires { 0 < second }
    ensures value { result ≡ gcd first second }
    ensures positive { 0 < result }
    ensures bound { result ≤ second }
{
    let mut larger = first;
    let mut smaller = second;
    while smaller != 0 {
        let rest = larger % smaller;
        larger = smaller;
        smaller = rest;
    }
    larger
}
