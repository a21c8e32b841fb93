//! Polynomials over GF(2^8): their values, and the weights of Lagrange's interpolation.
//!
//! A polynomial of degree below D is the list of its D coefficients, lowest first. `eval` gives its value
//! and `weight` the weight of a point, as the definitions in specs/Polynomial.antt say.
//! `interpolation_laws` promises that a polynomial of degree below D with D roots is zero, and that D
//! distinct points with values fix one polynomial of degree below D, whose value elsewhere is the sum of
//! the values, each times the weight of its point. No call takes memory.
#![tactic(auto)]

mod laws;
mod polynomial;
#[cfg(test)]
mod tests;

pub use laws::interpolation_laws;
pub use polynomial::{eval, weight};
