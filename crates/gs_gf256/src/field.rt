// The product, the inverse, and powers and logarithms to the base 2.

ghost use Rattle.std.specs.Prelude.{◌≡◌, ◌≢◌, ◌<◌, if◌then◌else◌, ◌==◌};
ghost use Rattle.gs_gf256.specs.Field.{product, inverse, IsInverse, power};

use crate::tables::{LOGARITHMS, POWERS};

/// The product of `a` and `b`.
pub fn mul(a: u8, b: u8) -> u8
    ensures { result ≡ product a b }
{
    if a == 0 || b == 0 {
        return 0;
    }
    let logarithm = LOGARITHMS[a as usize] as usize + LOGARITHMS[b as usize] as usize;
    POWERS[logarithm]
}

/// The inverse of `a`, which isn't 0.
pub fn inv(a: u8) -> u8
    requires { a ≢ 0 }
    ensures inverse { IsInverse a result }
    ensures value { result ≡ inverse a }
{
    let logarithm = LOGARITHMS[a as usize] as usize;
    POWERS[255 - logarithm]
}

/// The logarithm of `a` to the base 2, so that logarithms add up where elements are multiplied: the
/// exponent below 255 of the power of 2 that `a` is. That of 0 is 0, as if it were 1.
#[inline]
pub fn log(a: u8) -> u8
    ensures below { result < 255 }
    ensures power { power result ≡ (if a == 0 then 1 else a) }
{
    LOGARITHMS[a as usize]
}

/// The power of 2 with this exponent.
#[inline]
pub fn exp(exponent: u32) -> u8
    ensures { result ≡ power exponent }
{
    POWERS[(exponent % 255) as usize]
}
