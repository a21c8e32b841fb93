// Sums of products over slices.

ghost use Rattle.std.specs.Prelude.{
  ◌≡◌,
  ℕ,
  ◌+◌,
  ◌*◌,
  ◌/◌,
  ◌%◌,
  ◌<◌,
  ◌≤◌,
  length,
  slice_index,
  EachIndex,
  All,
  bit_xor,
};
ghost use Rattle.gs_gf256.specs.Field.{product};
ghost use Rattle.gs_gf256.specs.Table.{times, IsRowOfSums};

use crate::lanes::{BLOCK_LEN, high_halves, load, look_up, low_halves, sum, write_block};
use crate::table::{HALF_LEN, TABLE_LEN, write_table};
use std::simd::prelude::*;

/// Adds `k` times each byte of `src` to the byte of `dst` at its place. Both have one length.
pub fn mul_add(dst: &mut [u8], src: &[u8], k: u8)
    requires { length dst.old ≡ length src.now }
    ensures { EachIndex dst.new (λ i.
        slice_index dst.new i ≡ bit_xor (slice_index dst.old i) (product k (slice_index src.now i))) }
{
    let mut table = [0; TABLE_LEN];
    write_table(&mut table, 0, k);
    let at = add_blocks(dst, src, &table);
    add_rest(dst, src, at, &table);
}

// Adds the products by the table's factor, block by block, and answers where less than a block is left.
#[inline(always)]
fn add_blocks(dst: &mut [u8], src: &[u8], table: &[u8]) -> usize
    requires one_length { length dst.old ≡ length src.now }
    requires table_size { TABLE_LEN ≤ length table.now }
    ensures inside { result ≤ length dst.old }
    ensures sums { (i : ℕ) → i < result
        → slice_index dst.new i ≡ bit_xor (slice_index dst.old i) (times table.now 0 (slice_index src.now i)) }
    ensures rest { (i : ℕ) → result ≤ i → slice_index dst.new i ≡ slice_index dst.old i }
{
    let mut at = 0;
    while dst.len() - at >= 2 * BLOCK_LEN {
        add_block(dst, src, at, table);
        add_block(dst, src, at + BLOCK_LEN, table);
        at += 2 * BLOCK_LEN;
    }
    if dst.len() - at >= BLOCK_LEN {
        add_block(dst, src, at, table);
        at += BLOCK_LEN;
    }
    at
}

#[inline(always)]
fn add_block(dst: &mut [u8], src: &[u8], at: usize, table: &[u8])
    requires dst_room { at + BLOCK_LEN ≤ length dst.old }
    requires src_room { at + BLOCK_LEN ≤ length src.now }
    requires table_size { TABLE_LEN ≤ length table.now }
    ensures sums { (i : ℕ) → at ≤ i → i < at + BLOCK_LEN
        → slice_index dst.new i ≡ bit_xor (slice_index dst.old i) (times table.now 0 (slice_index src.now i)) }
    ensures before { (i : ℕ) → i < at → slice_index dst.new i ≡ slice_index dst.old i }
    ensures after { (i : ℕ) → at + BLOCK_LEN ≤ i → slice_index dst.new i ≡ slice_index dst.old i }
{
    let block = load(src, at);
    let made = add_products(
        load(dst, at),
        table,
        0,
        low_halves(block),
        high_halves(block),
    );
    write_block(dst, at, made);
}

// Adds the products of bytes, which are given by their halves, that the table at a place gives.
#[inline(always)]
fn add_products(sums: u8x32, tables: &[u8], at: usize, low: u8x32, high: u8x32) -> u8x32
    requires room { at + TABLE_LEN ≤ length tables.now }
    requires low { (j : ℕ) → j < BLOCK_LEN → slice_index low j < 16 }
    requires high { (j : ℕ) → j < BLOCK_LEN → slice_index high j < 16 }
    ensures size { length result ≡ BLOCK_LEN }
    ensures lanes { (j : ℕ) → j < BLOCK_LEN
        → slice_index result j
        ≡ bit_xor (slice_index sums j)
        (bit_xor (slice_index tables.now (at + slice_index low j))
        (slice_index tables.now (at + 16 + slice_index high j))) }
{
    let products = sum(
        look_up(tables, at, low),
        look_up(tables, at + HALF_LEN, high),
    );
    sum(sums, products)
}

#[inline(always)]
fn add_rest(dst: &mut [u8], src: &[u8], from: usize, table: &[u8])
    requires one_length { length dst.old ≡ length src.now }
    requires table_size { TABLE_LEN ≤ length table.now }
    ensures before { (i : ℕ) → i < from → slice_index dst.new i ≡ slice_index dst.old i }
    ensures sums { (i : ℕ) → from ≤ i → i < length dst.old
        → slice_index dst.new i ≡ bit_xor (slice_index dst.old i) (times table.now 0 (slice_index src.now i)) }
{
    for i in from..dst.len() {
        let byte = src[i] as usize;
        dst[i] ^= table[byte % 16] ^ table[HALF_LEN + byte / 16];
    }
}

/// Two sums for each place of a block: the bytes at it of the numbered shards, each times a factor.
///
/// The shards are laid end to end, each of `len` bytes, and the block begins at `at` in each. Shard i
/// of the list has two factors: their tables (`write_table`) stand one behind the other, those of shard
/// i from place 2 * `TABLE_LEN` * i on. So two rows share one reading of the shards.
#[inline]
pub fn sum_two(
    shards: &[u8],
    len: usize,
    numbers: &[u8],
    at: usize,
    tables: &[u8],
) -> (u8x32, u8x32)
    requires shards_size { All (λ number. number * len + (at + BLOCK_LEN) ≤ length shards.now) numbers.now }
    requires tables_size { length numbers.now * 64 ≤ length tables.now }
    ensures first { IsRowOfSums shards.now len numbers.now at tables.now 2 0 result.0 }
    ensures second { IsRowOfSums shards.now len numbers.now at tables.now 2 1 result.1 }
{
    let mut first = u8x32::splat(0);
    let mut second = u8x32::splat(0);
    for (i, number) in numbers.iter().enumerate() {
        let block = load(shards, usize::from(*number) * len + at);
        let low = low_halves(block);
        let high = high_halves(block);
        let table = i * 2 * TABLE_LEN;
        first = add_products(first, tables, table, low, high);
        second = add_products(second, tables, table + TABLE_LEN, low, high);
    }
    (first, second)
}

/// Four sums for each place of a block, as `sum_two` makes two: each shard has four tables.
#[inline]
pub fn sum_four(
    shards: &[u8],
    len: usize,
    numbers: &[u8],
    at: usize,
    tables: &[u8],
) -> (u8x32, u8x32, u8x32, u8x32)
    requires shards_size { All (λ number. number * len + (at + BLOCK_LEN) ≤ length shards.now) numbers.now }
    requires tables_size { length numbers.now * 128 ≤ length tables.now }
    ensures first { IsRowOfSums shards.now len numbers.now at tables.now 4 0 result.0 }
    ensures second { IsRowOfSums shards.now len numbers.now at tables.now 4 1 result.1 }
    ensures third { IsRowOfSums shards.now len numbers.now at tables.now 4 2 result.2 }
    ensures fourth { IsRowOfSums shards.now len numbers.now at tables.now 4 3 result.3 }
{
    let mut first = u8x32::splat(0);
    let mut second = u8x32::splat(0);
    let mut third = u8x32::splat(0);
    let mut fourth = u8x32::splat(0);
    for (i, number) in numbers.iter().enumerate() {
        let block = load(shards, usize::from(*number) * len + at);
        let low = low_halves(block);
        let high = high_halves(block);
        let table = i * 4 * TABLE_LEN;
        first = add_products(first, tables, table, low, high);
        second = add_products(second, tables, table + TABLE_LEN, low, high);
        third = add_products(third, tables, table + 2 * TABLE_LEN, low, high);
        fourth = add_products(fourth, tables, table + 3 * TABLE_LEN, low, high);
    }
    (first, second, third, fourth)
}
