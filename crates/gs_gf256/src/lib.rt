//! Arithmetic in GF(2^8), the field with 256 elements, modulo x^8 + x^4 + x^3 + x^2 + 1.
//!
//! A byte is a polynomial over GF(2): bit i is the coefficient of x^i. The sum of two bytes is their
//! xor. `mul`, `inv` and `mul_add` give the product, the inverse and a sum of products exactly as the
//! definitions in specs/Field.antt say, which know of no table. `log` and `exp` turn a long product into
//! one sum. `sum_two` and `sum_four` add the products of many shards for two or four rows at once, by
//! tables that `write_table` makes. `field_laws` promises that these are the sum and the product of a
//! field. No call takes memory.
//!
//! A product is found by the halves of a byte: the table of a factor has its products with the sixteen
//! low halves and the sixteen high halves, and a vector shuffle looks up sixteen of them at once.
#![tactic(auto)]

mod field;
mod halves;
mod lanes;
mod laws;
mod sums;
mod table;
mod tables;
#[cfg(test)]
mod tests;

pub use field::{exp, inv, log, mul};
pub use lanes::{BLOCK_LEN, write_block};
pub use laws::field_laws;
pub use sums::{mul_add, sum_four, sum_two};
pub use table::{TABLE_LEN, write_table};
