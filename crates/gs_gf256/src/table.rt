// The table of a factor.

ghost use Rattle.std.specs.Prelude.{◌≡◌, ℕ, ◌+◌, ◌*◌, ◌<◌, ◌≤◌, length, slice_index, bit_xor};
ghost use Rattle.gs_gf256.specs.Field.{product};
ghost use Rattle.gs_gf256.specs.Table.{times};

use crate::halves::{HIGH_BY_HIGH, HIGH_BY_LOW, LOW_BY_LOW};
use std::simd::prelude::*;

/// How many bytes a factor's table has: sixteen products for each half of a byte.
pub const TABLE_LEN: usize = 32;

/// How many products a table has for one half.
pub(crate) const HALF_LEN: usize = 16;

/// Writes the table of `k` at a place of `tables`: what it then gives for each byte is `k` times it.
pub fn write_table(tables: &mut [u8], at: usize, k: u8)
    requires { at + TABLE_LEN ≤ length tables.old }
    ensures products { (x : ℕ) → x < 256 → times tables.new at x ≡ product k x }
    ensures before { (i : ℕ) → i < at → slice_index tables.new i ≡ slice_index tables.old i }
    ensures after { (i : ℕ) → at + TABLE_LEN ≤ i → slice_index tables.new i ≡ slice_index tables.old i }
{
    let low = (k & 15) as usize;
    let high = (k >> 4) as usize;
    write_sums(tables, at, row(&LOW_BY_LOW, low), row(&HIGH_BY_LOW, high));
    let middle = at + HALF_LEN;
    write_sums(
        tables,
        middle,
        row(&HIGH_BY_LOW, low),
        row(&HIGH_BY_HIGH, high),
    );
}

// Sixteen neighbouring products.
#[inline(always)]
fn row(products: &[u8], number: usize) -> u8x16
    requires { number * 16 + HALF_LEN ≤ length products.now }
    ensures size { length result ≡ HALF_LEN }
    ensures lanes { (i : ℕ) → i < HALF_LEN → slice_index result i ≡ slice_index products.now (number * 16 + i) }
{
    u8x16::from_slice(&products[number * HALF_LEN..])
}

// Writes the sums of sixteen products and sixteen others.
#[inline(always)]
fn write_sums(tables: &mut [u8], at: usize, a: u8x16, b: u8x16)
    requires { at + HALF_LEN ≤ length tables.old }
    ensures sums { (i : ℕ) → i < HALF_LEN
        → slice_index tables.new (at + i) ≡ bit_xor (slice_index a i) (slice_index b i) }
    ensures before { (i : ℕ) → i < at → slice_index tables.new i ≡ slice_index tables.old i }
    ensures after { (i : ℕ) → at + HALF_LEN ≤ i → slice_index tables.new i ≡ slice_index tables.old i }
{
    (a ^ b).copy_to_slice(&mut tables[at..]);
}
