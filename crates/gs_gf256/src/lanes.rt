// Blocks of bytes as lanes of a vector. A processor's shuffle of sixteen bytes finds sixteen products at once.

ghost use Rattle.std.specs.Prelude.{◌≡◌, ℕ, ◌+◌, ◌/◌, ◌%◌, ◌<◌, ◌≤◌, length, slice_index, bit_xor};

use crate::table::HALF_LEN;
use std::simd::prelude::*;

/// How many bytes a block has.
pub const BLOCK_LEN: usize = 32;

/// The block at a place.
#[inline(always)]
pub(crate) fn load(bytes: &[u8], at: usize) -> u8x32
    requires { at + BLOCK_LEN ≤ length bytes.now }
    ensures size { length result ≡ BLOCK_LEN }
    ensures lanes { (j : ℕ) → j < BLOCK_LEN → slice_index result j ≡ slice_index bytes.now (at + j) }
{
    u8x32::from_slice(&bytes[at..])
}

/// Writes a block at a place.
#[inline(always)]
pub fn write_block(bytes: &mut [u8], at: usize, block: u8x32)
    requires { at + BLOCK_LEN ≤ length bytes.old }
    ensures written { (j : ℕ) → j < BLOCK_LEN → slice_index bytes.new (at + j) ≡ slice_index block j }
    ensures before { (i : ℕ) → i < at → slice_index bytes.new i ≡ slice_index bytes.old i }
    ensures after { (i : ℕ) → at + BLOCK_LEN ≤ i → slice_index bytes.new i ≡ slice_index bytes.old i }
{
    block.copy_to_slice(&mut bytes[at..]);
}

#[inline(always)]
pub(crate) fn sum(a: u8x32, b: u8x32) -> u8x32
    ensures size { length result ≡ BLOCK_LEN }
    ensures lanes { (j : ℕ) → j < BLOCK_LEN
        → slice_index result j ≡ bit_xor (slice_index a j) (slice_index b j) }
{
    a ^ b
}

#[inline(always)]
pub(crate) fn low_halves(block: u8x32) -> u8x32
    ensures size { length result ≡ BLOCK_LEN }
    ensures lanes { (j : ℕ) → j < BLOCK_LEN → slice_index result j ≡ slice_index block j % 16 }
{
    block & u8x32::splat(15)
}

#[inline(always)]
pub(crate) fn high_halves(block: u8x32) -> u8x32
    ensures size { length result ≡ BLOCK_LEN }
    ensures lanes { (j : ℕ) → j < BLOCK_LEN → slice_index result j ≡ slice_index block j / 16 }
{
    block >> u8x32::splat(4)
}

/// The products that sixteen bytes at a place have for these halves.
#[inline(always)]
pub(crate) fn look_up(tables: &[u8], at: usize, halves: u8x32) -> u8x32
    requires room { at + HALF_LEN ≤ length tables.now }
    requires halves { (j : ℕ) → j < BLOCK_LEN → slice_index halves j < 16 }
    ensures size { length result ≡ BLOCK_LEN }
    ensures lanes { (j : ℕ) → j < BLOCK_LEN
        → slice_index result j ≡ slice_index tables.now (at + slice_index halves j) }
{
    twice(u8x16::from_slice(&tables[at..])).swizzle_dyn_within::<16>(halves)
}

/// Sixteen bytes twice.
#[inline(always)]
fn twice(row: u8x16) -> u8x32
    ensures size { length result ≡ BLOCK_LEN }
    ensures lanes { (j : ℕ) → j < BLOCK_LEN → slice_index result j ≡ slice_index row (j % 16) }
{
    row.swizzle([
        0, 1, 2, 3, 4, 5, 6, 7, 8, 9, 10, 11, 12, 13, 14, 15, 0, 1, 2, 3, 4, 5, 6, 7, 8, 9, 10, 11,
        12, 13, 14, 15,
    ])
}
