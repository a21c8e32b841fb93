// The value of a polynomial, and the weight of a point.

ghost use Rattle.std.specs.Prelude.{◌≡◌, ◌≢◌, ◌<◌, length, AllPairs};
ghost use Rattle.gs_poly.specs.Polynomial.{value, weight, difference_product};

use gs_gf256::{inv, mul};

/// The value at `x` of the polynomial with coefficients `c`, lowest first.
pub fn eval(c: &[u8], x: u8) -> u8
    ensures { result ≡ value c.now x }
{
    let mut value = 0;
    for coefficient in c.iter().rev() {
        value = coefficient ^ mul(x, value);
    }
    value
}

/// The weight at `x` of the point with index `i`: the product, over the other points q, of
/// (x - q) / (points[i] - q). The points are distinct.
pub fn weight(points: &[u8], i: usize, x: u8) -> u8
    requires distinct { AllPairs (λ p q. p ≢ q) points.now }
    requires in_range { i < length points.now }
    ensures { result ≡ weight points.now i x }
{
    let point = points[i];
    let before = &points[..i];
    let after = &points[i + 1..];
    let numerator = mul(difference_product(before, x), difference_product(after, x));
    let denominator = mul(
        difference_product(before, point),
        difference_product(after, point),
    );
    mul(numerator, inv(denominator))
}

// The product over the points q of x - q.
fn difference_product(points: &[u8], x: u8) -> u8
    ensures { result ≡ difference_product points.now x }
{
    let mut product = 1;
    for point in points {
        product = mul(product, x ^ point);
    }
    product
}
